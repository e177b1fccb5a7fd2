//! How often each block of a file is in use.
ghost use Rattle.std.specs.Prelude.{◌≡◌, ◌≤◌, ◌<◌, ◌+◌, ◌-◌, ◌↔◌, [], ℕ, length, slice_index, slice_set, vec_capacity, IsTrue, IfOk, OnOk, OnErr};
ghost use Rattle.std.specs.Bool.{OnTrue, OnFalse};
ghost use Rattle.block_file.specs.Limits.{max_blocks, last_block};
ghost use Rattle.block_file.specs.State.{free_up_to, one, times};
ghost use Rattle.block_file.specs.Uses.{kept_mark, use_count, uses_of, CanClaim, Claims, NoneFreeBelow, Raises, TakesLowest};

use crate::MAX_BLOCKS;
use std::alloc::{AllocError, Global};
use std::marker::Model;

/// How a free block is marked that holds metadata.
const KEPT: u32 = u32::MAX;

/// A mark for each block of a file: how often it is in use, and once for the header, or `KEPT`; 4 MiB of marks for a
/// file of 4 GiB. How many blocks are free, those past the last counted, and a block from 1 on below which none is.
#[derive(Drop)]
pub(crate) struct Marks {
    marks: Vec<u32>,
    free: usize,
    lowest: usize,
}

impl Model for Marks {
    ghost use Rattle.std.specs.Prelude.{ℕ, List};
    ghost use Rattle.block_file.specs.Uses.{AreMarks};

    ghost Value = { List ℕ };

    ghost view = { λ m. m.marks.items };

    ghost invariant = { λ m. AreMarks m.marks.items m.free m.lowest };
}

impl Marks {
    /// Marks for so many blocks, of which none is in use.
    pub(crate) fn blank(alloc: Global, blocks: usize) -> Result<Marks, AllocError>
        requires some { 0 < blocks }
        requires few { blocks ≤ max_blocks }
        ensures len { IfOk result (λ marks. length marks ≡ blocks) }
        ensures unmarked { IfOk result (λ marks. (k : ℕ) → 0 < k → slice_index marks k ≡ 0) }
    {
        let mut marks = vec![in alloc; 0u32; blocks]?;
        marks[0] = 1;
        Ok(Marks {
            marks,
            free: MAX_BLOCKS - 1,
            lowest: 1,
        })
    }

    /// How many blocks have a mark.
    pub(crate) fn len(&self) -> usize
        ensures len { result ≡ length self.now }
        ensures few { result ≤ max_blocks }
        ensures header { slice_index self.now 0 ≡ 1 }
    {
        self.marks.len()
    }

    /// How many blocks are free.
    #[tactic(auto, using(crate::proofs::Free::free_le))]
    pub(crate) fn free(&self) -> usize
        ensures free { result ≡ free_up_to last_block (uses_of self.now) }
        ensures few { result ≤ last_block }
    {
        self.free
    }

    /// How often block k is in use: not at all where it is the header, is free or has no mark.
    pub(crate) fn uses(&self, k: u32) -> u32
        ensures { result ≡ uses_of self.now k }
    {
        let at = k as usize;
        if at == 0 || at >= self.marks.len() {
            return 0;
        }
        let mark = self.marks[at];
        if is_free(mark) {
            return 0;
        }
        mark
    }

    /// Marks block k as one of the metadata's. Says whether it could: it is inside the file and was not marked.
    pub(crate) fn keep(&mut self, k: u32) -> bool
        ensures above_zero { OnTrue result (0 < k) }
        ensures inside { OnTrue result (k < length self.old) }
        ensures unmarked { OnTrue result (slice_index self.old k ≡ 0) }
        ensures marked { OnTrue result (self.new ≡ slice_set self.old k kept_mark) }
        ensures refused { OnFalse result (k < length self.old → slice_index self.old k ≡ 0 → ⊥) }
    {
        let at = k as usize;
        if at >= self.marks.len() || self.marks[at] != 0 {
            return false;
        }
        self.marks[at] = KEPT;
        true
    }

    /// Makes room for the marks of n more blocks in use.
    pub(crate) fn reserve(&mut self, n: usize) -> Result<(), AllocError>
        requires { n ≤ free_up_to last_block (uses_of self.old) }
        ensures uses { (k : ℕ) → uses_of self.new k ≡ uses_of self.old k }
        ensures no_shorter { length self.old ≤ length self.new }
        ensures enough { OnOk result (n ≤ free_up_to (length self.new - 1) (uses_of self.new)) }
        ensures few { length self.new ≤ max_blocks }
        ensures refused { OnErr result (self.new ≡ self.old) }
    {
        let inside = self.free - (MAX_BLOCKS - self.marks.len());
        self.marks
            .resize(self.marks.len() + n.saturating_sub(inside), 0)?;
        Ok(())
    }

    /// Puts the n lowest free blocks in use, and into a list that has room for them. Takes no memory.
    #[tactic(auto, using(crate::proofs::Markings::free_inside))]
    pub(crate) fn take(&mut self, ks: &mut Vec<u32>, n: usize)
        requires enough { n ≤ free_up_to (length self.old - 1) (uses_of self.old) }
        requires room { n ≤ vec_capacity ks.old }
        requires empty { ks.old.items ≡ [] }
        ensures taken { TakesLowest ks.new.items self.old self.new }
        ensures count { length ks.new.items ≡ n }
    {
        self.lowest = pick(&mut self.marks, self.lowest, ks, n);
        self.free -= n;
    }

    /// Gives up one use of a block. Takes no memory.
    #[tactic(auto, using(crate::proofs::Free::free_le))]
    fn give_back_one(&mut self, k: u32)
        requires { 0 < uses_of self.old k }
        ensures marks { (j : ℕ) → slice_index self.new j + one k j ≡ slice_index self.old j }
        ensures len { length self.new ≡ length self.old }
    {
        let at = k as usize;
        let mark = self.marks[at] - 1;
        self.marks[at] = mark;
        if mark == 0 {
            self.free += 1;
            self.lowest = self.lowest.min(at);
        }
    }

    /// Gives up one use of each block listed, as often as it is listed. Takes no memory.
    pub(crate) fn give_back(&mut self, ks: &[u32])
        requires { (k : ℕ) → times ks.now k ≤ uses_of self.old k }
        ensures marks { (k : ℕ) → slice_index self.new k + times ks.now k ≡ slice_index self.old k }
        ensures uses { (k : ℕ) → uses_of self.new k + times ks.now k ≡ uses_of self.old k }
        ensures len { length self.new ≡ length self.old }
    {
        for k in ks {
            self.give_back_one(*k);
        }
    }

    /// Counts one use more of a block in use. Says whether it could: the count ends two below the last `u32`, and who
    /// holds a block so often keeps as many copies of the list that names it, more than a machine has memory for.
    fn hold_one(&mut self, k: u32) -> bool
        requires { 0 < uses_of self.old k }
        ensures marks { OnTrue result ((j : ℕ) → slice_index self.new j ≡ slice_index self.old j + one k j) }
        ensures uses { OnTrue result ((j : ℕ) → uses_of self.new j ≡ uses_of self.old j + one k j) }
        ensures same { OnFalse result (self.new ≡ self.old) }
        ensures len { length self.new ≡ length self.old }
    {
        let at = k as usize;
        let mark = self.marks[at];
        if mark >= KEPT - 1 {
            return false;
        }
        self.marks[at] = mark + 1;
        true
    }

    /// Counts one use more of each block listed, as often as it is listed, or of none, where the count of one of them
    /// is at its end. Says whether it did. Takes no memory.
    pub(crate) fn hold(&mut self, ks: &[u32]) -> bool
        requires { (k : ℕ) → 0 < times ks.now k → 0 < uses_of self.old k }
        ensures raised { OnTrue result (Raises ks.now self.old self.new) }
        ensures same { OnFalse result (self.new ≡ self.old) }
    {
        for i in 0..ks.len() {
            if !self.hold_one(ks[i]) {
                self.give_back(&ks[..i]);
                return false;
            }
        }
        true
    }

    /// Puts a block in use once. Says whether it could: it is inside the file and was not marked.
    fn claim_one(&mut self, k: u32) -> bool
        ensures above_zero { OnTrue result (0 < k) }
        ensures inside { OnTrue result (k < length self.old) }
        ensures unmarked { OnTrue result (slice_index self.old k ≡ 0) }
        ensures marks { OnTrue result ((j : ℕ) → slice_index self.new j ≡ slice_index self.old j + one k j) }
        ensures refused { OnFalse result (k < length self.old → slice_index self.old k ≡ 0 → ⊥) }
        ensures same { OnFalse result (self.new ≡ self.old) }
        ensures len { length self.new ≡ length self.old }
    {
        let at = k as usize;
        if at >= self.marks.len() || self.marks[at] != 0 {
            return false;
        }
        self.marks[at] = 1;
        self.free -= 1;
        true
    }

    /// Puts each of the blocks in use once, or none, where one of them is marked already or past the last. Says whether
    /// it did.
    pub(crate) fn claim(&mut self, ks: &[u32]) -> bool
        ensures claims { OnTrue result (Claims ks.now self.old self.new) }
        ensures refused { OnFalse result (CanClaim ks.now self.old → ⊥) }
        ensures same { OnFalse result (self.new ≡ self.old) }
    {
        for i in 0..ks.len() {
            if !self.claim_one(ks[i]) {
                self.give_back(&ks[..i]);
                return false;
            }
        }
        true
    }
}

/// Whether a block with this mark is free.
fn is_free(mark: u32) -> bool
    ensures { IsTrue result ↔ (use_count mark ≡ 0) }
{
    mark == 0 || mark == KEPT
}

/// Puts the n lowest free blocks in use, and into a list that has room for them. No block below `from` is free; below
/// what it gives none is then. Takes no memory.
fn pick(marks: &mut [u32], from: usize, ks: &mut Vec<u32>, n: usize) -> usize
    requires below { NoneFreeBelow from marks.old }
    requires few { length marks.old ≤ max_blocks }
    requires enough { n ≤ free_up_to (length marks.old - 1) (uses_of marks.old) }
    requires room { n ≤ vec_capacity ks.old }
    requires empty { ks.old.items ≡ [] }
    ensures taken { TakesLowest ks.new.items marks.old marks.new }
    ensures count { length ks.new.items ≡ n }
    ensures below { NoneFreeBelow result marks.new }
{
    for k in from..marks.len() {
        if ks.len() == n {
            return k;
        }
        if is_free(marks[k]) {
            marks[k] = 1;
            match ks.push(k as u32) {
                Ok(()) => {}
                Err(_) => unreachable!(),
            }
        }
    }
    marks.len()
}
