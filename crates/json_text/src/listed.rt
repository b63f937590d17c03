//! Texts with commas between them.
ghost use Rattle.std.specs.Prelude.{◌≡◌, ◌∷◌, ◌++◌, [], IfOk, OnOk, nat_lt, if◌then◌else◌};
ghost use Rattle.json_text.specs.Internal.Lists.{bytes_of_each};
ghost use Rattle.json_text.specs.Texts.{enclosed};

use std::alloc::{AllocError, Global};

/// `,`, if texts stand before this one.
fn push_comma(out: &mut Vec<u8>, before: usize) -> Result<(), AllocError>
    ensures { OnOk result (out.new.items ≡ out.old.items ++ (if nat_lt 0 before then 44 ∷ [] else [])) }
{
    if before > 0 {
        out.push(b',')?;
    }
    Ok(())
}

/// Texts with commas between them, and a byte before and after them.
pub(crate) fn enclosed(
    alloc: Global,
    first: u8,
    items: &[Vec<u8>],
    last: u8,
) -> Result<Vec<u8>, AllocError>
    ensures { IfOk result (λ text. text.items ≡ enclosed first (bytes_of_each items.now) last) }
{
    let mut out = Vec::new(alloc);
    out.push(first)?;
    for (i, item) in items.iter().enumerate() {
        push_comma(&mut out, i)?;
        out.extend_from_slice(item.as_slice())?;
    }
    out.push(last)?;
    Ok(out)
}
