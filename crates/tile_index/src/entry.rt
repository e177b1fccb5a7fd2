//! Where the bytes of a tile lie.

ghost use Rattle.std.specs.Prelude.{◌≡◌, ◌<◌, ◌≤◌, ◌^◌, ◌+◌, ◌*◌, ◌++◌, ◌∷◌, ℕ, [], length, All};
ghost use Rattle.tile_index.specs.Bytes.{entry_bytes};
ghost use Rattle.tile_index.specs.Limits.{max_tile_blocks};

use file_bytes::Form;
use std::marker::Model;

/// How many blocks a tile may have.
pub const MAX_TILE_BLOCKS: usize = 10;

/// The numbers of the blocks of a tile, in the order of its bytes. They take no memory of their own.
#[derive(Drop)]
pub struct BlockList {
    numbers: [u32; MAX_TILE_BLOCKS],
    count: usize,
}

impl Model for BlockList {
    ghost use Rattle.std.specs.Prelude.{List, ℕ, ◌≤◌, take};
    ghost use Rattle.tile_index.specs.Limits.{max_tile_blocks};

    ghost Value = { List ℕ };

    ghost view = { λ b. take b.count b.numbers };

    ghost invariant = { λ b. b.count ≤ max_tile_blocks };
}

impl BlockList {
    /// The blocks of a list, in its order.
    pub fn new(numbers: &[u32]) -> BlockList
        requires { length numbers.now ≤ max_tile_blocks }
        ensures blocks { result ≡ numbers.now }
        ensures numbers { All (λ b. b < 2 ^ 32) numbers.now }
    {
        let mut kept = [0; MAX_TILE_BLOCKS];
        kept[..numbers.len()].copy_from_slice(numbers);
        BlockList {
            numbers: kept,
            count: numbers.len(),
        }
    }

    /// A list without blocks.
    pub(crate) fn empty() -> BlockList
        ensures { result ≡ [] }
    {
        BlockList {
            numbers: [0; MAX_TILE_BLOCKS],
            count: 0,
        }
    }

    /// One block more.
    pub(crate) fn push(&mut self, number: u32)
        requires { length self.old < max_tile_blocks }
        ensures { self.new ≡ self.old ++ number ∷ [] }
    {
        self.numbers[self.count] = number;
        self.count += 1;
    }

    /// How many blocks there are.
    fn len(&self) -> usize
        ensures len { result ≡ length self.now }
        ensures few { result ≤ max_tile_blocks }
    {
        self.count
    }

    /// The blocks as a slice.
    pub fn as_slice(&self) -> &[u32]
        ensures { result.now ≡ self.now }
    {
        &self.numbers[..self.count]
    }

    /// The same blocks again.
    pub(crate) fn copy(&self) -> BlockList
        ensures { result ≡ self.now }
    {
        BlockList {
            numbers: self.numbers,
            count: self.count,
        }
    }
}

/// A tile's bytes: in which form they spell its cells, how many there are, and the blocks that they lie in.
#[derive(Drop)]
pub struct Entry {
    pub form: Form,
    pub length: u32,
    pub blocks: BlockList,
}

impl Entry {
    /// How many bytes an index has for the entry and its tile.
    #[tactic(auto, using(crate::proofs::Codes::entry_length))]
    pub fn bytes_len(&self) -> u64
        ensures value { (tile : ℕ) → result ≡ length (entry_bytes (tile, self.now)) }
        ensures small { result ≤ 8 + 4 * max_tile_blocks }
    {
        8 + 4 * self.blocks.len() as u64
    }

    /// The same entry again.
    pub(crate) fn copy(&self) -> Entry
        ensures { result ≡ self.now }
    {
        Entry {
            form: self.form,
            length: self.length,
            blocks: self.blocks.copy(),
        }
    }
}
