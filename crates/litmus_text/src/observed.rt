//! What is observed.
ghost use Rattle.std.specs.Prelude.{◌≡◌, ◌++◌, OnOk, map};
ghost use Rattle.text_tokens.specs.Pieces.{text_of};
ghost use Rattle.litmus_text.specs.Spelling.{observed_place_pieces, observed_pieces};
ghost use Rattle.litmus_text.specs.Canonical.{place_named};

use crate::words::{push_gap, push_number, push_register};
use litmus_reader::{NameTable, Observed, location_name};
use std::alloc::AllocError;

/// `x;` or `t:REG;`
fn push_place(out: &mut Vec<u8>, names: &NameTable, place: Observed) -> Result<(), AllocError>
    ensures { OnOk result (out.new.items ≡ out.old.items ++ text_of (observed_place_pieces (place_named names.now.locations place))) }
{
    match place {
        Observed::Location(location) => {
            out.extend_from_slice(location_name(names, location as usize))?;
        }
        Observed::Register(thread, register) => {
            push_number(out, thread)?;
            out.push(b':')?;
            push_register(out, register)?;
        }
    }
    out.push(b';')?;
    Ok(())
}

/// `locations [x; t:REG; ..]`, where something is observed.
pub fn push_observed(
    out: &mut Vec<u8>,
    names: &NameTable,
    observed: &[Observed],
) -> Result<(), AllocError>
    ensures { OnOk result (out.new.items ≡ out.old.items ++ text_of (observed_pieces (map (place_named names.now.locations) observed.now))) }
{
    if observed.is_empty() {
        return Ok(());
    }
    out.extend_from_slice(b"locations [")?;
    for (i, place) in observed.iter().enumerate() {
        push_gap(out, i)?;
        push_place(out, names, *place)?;
    }
    out.extend_from_slice(b"]\n")?;
    Ok(())
}
