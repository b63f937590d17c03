//! Pages.

ghost use Rattle.std.specs.Prelude.{◌≡◌, IfOk};
ghost use Rattle.run_page.specs.Pages.{page_head, page_tail, page_text};

use crate::bytes::{HEAD, TAIL};
use std::alloc::{AllocError, Global};

/// The page up to its document.
#[tactic(auto, unfolding(crate::specs::Pages::page_head))]
fn head() -> &'static [u8]
    ensures { result.now ≡ page_head }
{
    HEAD
}

/// The page after its document.
#[tactic(auto, unfolding(crate::specs::Pages::page_tail))]
fn tail() -> &'static [u8]
    ensures { result.now ≡ page_tail }
{
    TAIL
}

/// The page that shows a document of `fencer why`, `fencer trace` or `fencer witness`: the page up to the document, the document as it is,
/// and the rest. A document has no `<`, so a browser reads exactly its bytes in the element around it.
pub fn page_of(alloc: Global, document: &[u8]) -> Result<Vec<u8>, AllocError>
    ensures { IfOk result (λ page. page.items ≡ page_text document.now) }
{
    let mut page = Vec::from_slice(alloc, head())?;
    page.extend_from_slice(document)?;
    page.extend_from_slice(tail())?;
    Ok(page)
}
