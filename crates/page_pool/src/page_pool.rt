//! The blocks of a file, with pages.
ghost use Rattle.std.specs.Prelude.{◌≡◌};

use crate::pages::Pages;
use block_file::{BlockFile, Blocks, State, TakeFault};
use disk_face::{Disk, DiskFault};
use file_bytes::BLOCK_BYTES;
use std::alloc::{AllocError, Global};
use std::marker::Model;

/// The blocks of a file, and pages of some of them. Callers see the file below: each write goes to it, and a page is
/// what its block holds there.
#[derive(Drop)]
pub struct PagePool<D: Disk> {
    file: BlockFile<D>,
    pages: Pages,
}

impl<D: Disk> Model for PagePool<D> {
    ghost use Rattle.block_file.specs.View.{BlockFileView};
    ghost use Rattle.page_pool.specs.Pages.{ArePages};

    ghost Value = { BlockFileView };

    ghost view = { λ s. s.file };

    ghost invariant = { λ s. ArePages s.file.content s.file.honest s.pages };
}

impl<D: Disk> PagePool<D> {
    /// The blocks of a file, with at most so many pages. Where there is no memory for them, there are none.
    pub fn new(alloc: Global, file: BlockFile<D>, pages: usize) -> PagePool<D>
        ensures { result ≡ file }
    {
        PagePool {
            file,
            pages: Pages::new(alloc, pages),
        }
    }

    /// Keeps at most so many pages from now on: of those that are there the ones used last stay.
    pub fn resize(&mut self, pages: usize)
        ensures { self.new ≡ self.old }
    {
        self.pages.resize(pages);
    }

    /// The file, which has all that was written.
    pub fn into_file(self) -> BlockFile<D>
        ensures { result ≡ self }
    {
        let PagePool { file, pages: _ } = self;
        file
    }
}

impl<D: Disk> Blocks for PagePool<D> {
    ghost use Rattle.block_file.specs.View.{state_of};

    ghost state = { λ s. state_of s };

    fn read(&mut self, k: u32, bytes: &mut [u8; BLOCK_BYTES]) -> Result<(), DiskFault> {
        if self.pages.get(k, bytes) {
            return Ok(());
        }
        self.file.read(k, bytes)?;
        self.pages.offer(k, bytes);
        Ok(())
    }

    /// Goes past the pages, which are what the file has.
    fn read_run(&mut self, k: u32, bytes: &mut [u8]) -> Result<(), DiskFault> {
        self.file.read_run(k, bytes)
    }

    fn write(&mut self, k: u32, bytes: &[u8; BLOCK_BYTES]) -> Result<(), DiskFault> {
        match self.file.write(k, bytes) {
            Ok(()) => {
                self.pages.renew(k, bytes);
                Ok(())
            }
            Err(fault) => {
                self.pages.forget(k);
                Err(fault)
            }
        }
    }

    fn take(&mut self, n: usize) -> Result<Vec<u32>, TakeFault> {
        self.file.take(n)
    }

    fn give_back(&mut self, ks: &[u32]) {
        self.file.give_back(ks);
    }

    fn hold(&mut self, ks: &[u32]) -> Result<(), AllocError> {
        self.file.hold(ks)
    }

    /// No page is kept from now on.
    fn let_go(&mut self) {
        self.pages.let_go();
    }

    fn free(&self) -> u32 {
        self.file.free()
    }

    fn uses(&self, k: u32) -> u32 {
        self.file.uses(k)
    }

    fn write_header(&mut self, session: State, first: u32, length: u64) -> Result<(), DiskFault> {
        self.pages.forget(0);
        self.file.write_header(session, first, length)
    }
}
