//! A text that is being written, page by page.

ghost use Rattle.std.specs.Prelude.{◌≡◌, ◌++◌, [], IfOk, OnOk};
ghost use Rattle.cert_pages.specs.Drafts.{draft_text};

use paged_text::Pages;
use std::alloc::{AllocError, Global};
use std::mem;

/// A page of so many bytes is full. It is below the length from which the system's allocator keeps a block apart, so
/// that pages fit into what was freed.
const PAGE_BYTES: usize = 32_768;

/// A page has room for so many bytes more, since the next one begins after a whole node.
const NODE_BYTES: usize = 512;

/// What is written so far: the pages that are full, and the one that is being filled.
#[derive(Drop)]
pub(crate) struct Draft {
    alloc: Global,
    full: Pages,
    pub(crate) page: Vec<u8>,
}

impl Draft {
    /// Nothing yet.
    pub(crate) fn new(alloc: Global) -> Draft
        ensures { draft_text result ≡ [] }
    {
        Draft {
            alloc,
            full: Pages::new(alloc),
            page: Vec::new(alloc),
        }
    }

    /// What gives it memory.
    pub(crate) fn alloc(&self) -> Global {
        self.alloc
    }

    /// Writes these bytes.
    pub(crate) fn push(&mut self, text: &[u8]) -> Result<(), AllocError>
        ensures { OnOk result (draft_text self.new ≡ draft_text self.old ++ text.now) }
    {
        self.page.extend_from_slice(text)
    }

    /// Puts the pages of a text after what is written.
    pub(crate) fn append(&mut self, text: Pages) -> Result<(), AllocError>
        ensures { OnOk result (draft_text self.new ≡ draft_text self.old ++ text) }
    {
        let page = mem::replace(&mut self.page, Vec::new(self.alloc));
        self.full.push(page)?;
        self.full.append(text)
    }

    /// Goes on to the next page, if this one is full.
    pub(crate) fn turn(&mut self) -> Result<(), AllocError>
        ensures { OnOk result (draft_text self.new ≡ draft_text self.old) }
    {
        if self.page.len() < PAGE_BYTES {
            return Ok(());
        }
        self.put_away()
    }

    /// Puts the page to the full ones, and begins the next.
    fn put_away(&mut self) -> Result<(), AllocError>
        ensures { OnOk result (draft_text self.new ≡ draft_text self.old) }
    {
        let mut next = Vec::new(self.alloc);
        next.reserve(PAGE_BYTES + NODE_BYTES)?;
        let page = mem::replace(&mut self.page, next);
        self.full.push(page)
    }

    /// The whole text.
    pub(crate) fn into_pages(self) -> Result<Pages, AllocError>
        ensures { IfOk result (λ pages. pages ≡ draft_text self) }
    {
        let mut pages = self.full;
        pages.push(self.page)?;
        Ok(pages)
    }
}
