//! The pages that are kept.
ghost use Rattle.std.specs.Prelude.{◌≡◌, [], Some, None, IsTrue, IsFalse, IfOk};
ghost use Rattle.page_pool.specs.Pages.{page_of, SamePages, NoneAdded, Forgets, Renews};

use crate::page::Page;
use file_bytes::BLOCK_BYTES;
use lru::LruCache;
use std::alloc::{AllocError, Global};
use std::marker::Model;
use std::num::NonZeroUsize;

/// How many numbers of blocks are noted that were asked for.
const NOTED: usize = 256;

/// Pages by the numbers of their blocks, in the order of their last use. A page is kept where its block was asked for
/// lately, so that one pass over many blocks drives out none. What finds no memory is left out: a page, or the whole.
#[derive(Drop)]
pub(crate) struct Pages {
    kept: Option<LruCache<u32, Page>>,
    asked: Vec<u32>,
    alloc: Global,
}

impl Model for Pages {
    ghost use Rattle.std.specs.Prelude.{ℕ, List};
    ghost use Rattle.page_pool.specs.Pages.{entries_of};

    ghost Value = { List (ℕ × List ℕ) };

    ghost view = { λ p. entries_of p.kept };
}

/// No page, and the places for numbers of blocks.
fn empty(alloc: Global, count: NonZeroUsize) -> Result<Pages, AllocError>
    ensures { IfOk result (λ pages. pages ≡ []) }
{
    let asked = vec![in alloc; 0u32; NOTED]?;
    let kept = LruCache::sparse(alloc, count)?;
    Ok(Pages {
        kept: Some(kept),
        asked,
        alloc,
    })
}

impl Pages {
    /// No page yet, and room for at most so many.
    pub(crate) fn new(alloc: Global, count: usize) -> Pages
        ensures { result ≡ [] }
    {
        if let Some(count) = NonZeroUsize::new(count) {
            if let Ok(pages) = empty(alloc, count) {
                return pages;
            }
        }
        Pages {
            kept: None,
            asked: Vec::new(alloc),
            alloc,
        }
    }

    /// Makes room for so many pages. Of those that are there the ones used last stay.
    pub(crate) fn resize(&mut self, count: usize)
        ensures { NoneAdded self.old self.new }
    {
        if let (Some(kept), Some(count)) = (&mut self.kept, NonZeroUsize::new(count)) {
            kept.resize(count);
            return;
        }
        *self = Pages::new(self.alloc, count);
    }

    /// Drops the pages, and keeps none from now on. Takes no memory.
    pub(crate) fn let_go(&mut self)
        ensures { self.new ≡ [] }
    {
        self.kept = None;
        self.asked = Vec::new(self.alloc);
    }

    /// Copies the page of block k, where there is one, which it tells.
    pub(crate) fn get(&mut self, k: u32, bytes: &mut [u8; BLOCK_BYTES]) -> bool
        ensures kept { IsTrue result → page_of self.old k ≡ Some bytes.new }
        ensures absent { IsFalse result → page_of self.old k ≡ None }
        ensures same { SamePages self.old self.new }
    {
        let Some(kept) = &mut self.kept else {
            return false;
        };
        let Some(page) = kept.get(&k) else {
            return false;
        };
        page.read(bytes);
        true
    }

    /// Keeps a page of block k, of which there is none, where the block was asked for lately.
    pub(crate) fn offer(&mut self, k: u32, bytes: &[u8; BLOCK_BYTES])
        requires { page_of self.old k ≡ None }
        ensures { Renews k bytes.now self.old self.new }
    {
        let Some(last) = self.asked.get_mut(k as usize % NOTED) else {
            return;
        };
        if *last != k {
            *last = k;
            return;
        }
        let Some(kept) = &mut self.kept else {
            return;
        };
        let Ok(page) = Page::new(self.alloc, bytes) else {
            return;
        };
        let _put = kept.put(k, page);
    }

    /// Writes these bytes into the page of block k, where there is one.
    pub(crate) fn renew(&mut self, k: u32, bytes: &[u8; BLOCK_BYTES])
        ensures { Renews k bytes.now self.old self.new }
    {
        let Some(kept) = &mut self.kept else {
            return;
        };
        let Some(page) = kept.peek_mut(&k) else {
            return;
        };
        page.write(bytes);
    }

    /// Drops the page of block k.
    pub(crate) fn forget(&mut self, k: u32)
        ensures { Forgets k self.old self.new }
    {
        let Some(kept) = &mut self.kept else {
            return;
        };
        let _distinct = kept.len();
        let _page = kept.pop_entry(&k);
    }
}
