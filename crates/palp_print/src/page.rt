//! A page of bytes.

ghost use Rattle.std.specs.Prelude.{◌≡◌, [], IfOk};
ghost use Rattle.palp_print.specs.Pages.{Appends};

use lattice_core::NoMemory;
use std::alloc::Global;
use std::marker::Model;

/// Bytes that are printed. Contracts see their list. A text of several steps is written apart first, so that a page stays as it was where
/// the text finds no memory.
#[derive(Drop)]
pub struct Page {
    pub(crate) text: Vec<u8>,
    pub(crate) draft: Vec<u8>,
}

impl Model for Page {
    ghost use Rattle.std.specs.Prelude.{ℕ, List};

    ghost Value = { List ℕ };

    ghost view = { λ page. page.text.items };
}

impl Page {
    /// An empty page. `NoMemory` comes where its first bytes find no memory.
    pub fn new(alloc: Global) -> Result<Page, NoMemory>
        ensures { IfOk result (λ page. page ≡ []) }
    {
        Ok(Page {
            text: Vec::with_capacity(alloc, 512)?,
            draft: Vec::with_capacity(alloc, 512)?,
        })
    }

    /// The bytes.
    pub fn bytes(&self) -> &[u8]
        ensures { result.now ≡ self.now }
    {
        &self.text
    }

    /// Takes all bytes away, and keeps their memory.
    pub fn clear(&mut self)
        ensures { self.new ≡ [] }
    {
        self.text.clear();
    }

    /// Appends bytes, or leaves the page as it was.
    pub(crate) fn append(&mut self, bytes: &[u8]) -> Result<(), NoMemory>
        ensures { Appends bytes.now self.old self.new result }
    {
        self.text.extend_from_slice(bytes)?;
        Ok(())
    }
}
