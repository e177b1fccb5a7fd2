//! One page.
ghost use Rattle.std.specs.Prelude.{◌≡◌, IfOk};

use file_bytes::BLOCK_BYTES;
use std::alloc::{AllocError, Global};
use std::marker::Model;

/// The bytes of a block, on the heap, so that a cache moves a pointer alone.
#[derive(Drop)]
pub(crate) struct Page {
    bytes: Vec<u8>,
}

impl Model for Page {
    ghost use Rattle.std.specs.Prelude.{◌≡◌, ℕ, List, length};
    ghost use Rattle.file_bytes.specs.Limits.{block_bytes};

    ghost Value = { List ℕ };

    ghost view = { λ p. p.bytes.items };

    ghost invariant = { λ p. length p.bytes.items ≡ block_bytes };
}

impl Page {
    /// A page with these bytes.
    pub(crate) fn new(alloc: Global, bytes: &[u8; BLOCK_BYTES]) -> Result<Page, AllocError>
        ensures { IfOk result (λ page. page ≡ bytes.now) }
    {
        let mut page = Vec::with_capacity(alloc, BLOCK_BYTES)?;
        page.extend_from_slice(bytes)?;
        Ok(Page { bytes: page })
    }

    /// Copies the page.
    pub(crate) fn read(&self, bytes: &mut [u8; BLOCK_BYTES])
        ensures { bytes.new ≡ self.now }
    {
        bytes.copy_from_slice(&self.bytes);
    }

    /// Makes the page one with these bytes.
    pub(crate) fn write(&mut self, bytes: &[u8; BLOCK_BYTES])
        ensures { self.new ≡ bytes.now }
    {
        self.bytes.copy_from_slice(bytes);
    }
}
