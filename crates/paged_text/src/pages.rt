//! Texts in pages.

ghost use Rattle.std.specs.Prelude.{◌≡◌, ◌++◌, [], IfOk, OnOk};
ghost use Rattle.paged_text.specs.PageTexts.{text_of};

use std::alloc::{AllocError, Global};
use std::marker::Model;

/// A text in pages: blocks of bytes, one after another.
#[derive(Drop)]
pub struct Pages {
    pages: Vec<Vec<u8>>,
}

impl Model for Pages {
    ghost use Rattle.std.specs.Prelude.{ℕ, List};
    ghost use Rattle.paged_text.specs.PageTexts.{text_of};

    ghost Value = { List ℕ };

    ghost view = { λ p. text_of p.pages.items };
}

impl Pages {
    /// No page.
    pub fn new(alloc: Global) -> Pages
        ensures { result ≡ [] }
    {
        Pages {
            pages: Vec::new(alloc),
        }
    }

    /// The text in one page.
    pub fn of(alloc: Global, text: Vec<u8>) -> Result<Pages, AllocError>
        ensures { IfOk result (λ pages. pages ≡ text.items) }
    {
        let mut pages = Pages::new(alloc);
        pages.push(text)?;
        Ok(pages)
    }

    /// Puts a page after the others.
    pub fn push(&mut self, page: Vec<u8>) -> Result<(), AllocError>
        ensures { OnOk result (self.new ≡ self.old ++ page.items) }
    {
        self.pages.push(page)?;
        Ok(())
    }

    /// Puts the pages of another text after these.
    pub fn append(&mut self, other: Pages) -> Result<(), AllocError>
        ensures { OnOk result (self.new ≡ self.old ++ other) }
    {
        let mut pages = other.pages;
        self.pages.append(&mut pages)?;
        Ok(())
    }

    /// The pages in order.
    pub fn as_slice(&self) -> &[Vec<u8>]
        ensures { text_of result.now ≡ self.now }
    {
        &self.pages
    }

    /// The text in one block.
    pub fn joined(&self, alloc: Global) -> Result<Vec<u8>, AllocError>
        ensures { IfOk result (λ text. text.items ≡ self.now) }
    {
        let mut text = Vec::new(alloc);
        for page in self.as_slice() {
            text.extend_from_slice(page)?;
        }
        Ok(text)
    }
}
