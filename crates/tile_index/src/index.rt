//! The index, and what it says of a tile.

ghost use Rattle.std.specs.Prelude.{◌≡◌, ◌<◌, ◌^◌, ℕ, [], ◌++◌, length, flat_map, Option, None, Some, IfOk, OnOk, OnErr, option_copied};
ghost use Rattle.tile_index.specs.declared.entry.Entry.{Entry};
ghost use Rattle.tile_index.specs.Bytes.{index_bytes};
ghost use Rattle.tile_index.specs.Index.{found_at, changed_at, IsRising, AreSmall, AreEntries, IsIndex};

use crate::changes::{are_exchanges, exchange_all, merged};
use crate::entry::Entry;
use std::alloc::{AllocError, Global};
use std::marker::Model;
use std::mem;

/// Which tiles of a field have bytes, and where: a finite map from tile numbers to entries.
#[derive(Drop)]
pub struct TileIndex {
    entries: Vec<(u64, Entry)>,
}

impl Model for TileIndex {
    ghost use Rattle.std.specs.Prelude.{List, ℕ};
    ghost use Rattle.tile_index.specs.declared.entry.Entry.{Entry};

    ghost Value = { List (ℕ × Entry) };

    ghost use Rattle.tile_index.specs.Index.{IsIndex};

    ghost view = { λ i. i.entries.items };

    ghost invariant = { λ i. IsIndex i.entries.items };
}

impl TileIndex {
    /// An index without tiles.
    pub fn new(alloc: Global) -> TileIndex
        ensures { result ≡ [] }
    {
        TileIndex {
            entries: Vec::new(alloc),
        }
    }

    /// The index of a list of pairs.
    pub(crate) fn from_entries(entries: Vec<(u64, Entry)>) -> TileIndex
        requires { IsIndex entries.items }
        ensures { result ≡ entries.items }
    {
        TileIndex { entries }
    }

    /// The entry of a tile. Takes no memory.
    pub fn get(&self, tile: u64) -> Option<&Entry>
        ensures { option_copied result ≡ found_at tile self.now }
    {
        let entries = self.as_slice();
        match entries.binary_search_by_key(&tile, |pair| pair.0) {
            Ok(place) => Some(&entries[place].1),
            Err(_) => None,
        }
    }

    /// The pairs of a tile and its entry, in rising order.
    pub fn as_slice(&self) -> &[(u64, Entry)]
        ensures pairs { result.now ≡ self.now }
        ensures index { IsIndex self.now }
    {
        &self.entries
    }

    /// Gives each listed tile its entry, or none, and leaves the others as they are. Where memory
    /// is wanting, all stay as they are. Takes no memory where each of the tiles has an entry and is given another.
    pub fn replace_all(&mut self, changes: Vec<(u64, Option<Entry>)>) -> Result<(), AllocError>
        requires rising { IsRising changes.items }
        requires small { AreSmall changes.items }
        requires entries { AreEntries changes.items }
        requires room { (tile : ℕ) × (tile < 2 ^ 32) × (changed_at tile changes.items self.old ≡ None) }
        ensures changed { OnOk result ((tile : ℕ) → found_at tile self.new ≡ changed_at tile changes.items self.old) }
        ensures unchanged { OnErr result (self.new ≡ self.old) }
        ensures index { IsIndex self.new }
    {
        if are_exchanges(&self.entries, &changes) {
            exchange_all(&mut self.entries, changes);
            return Ok(());
        }
        let alloc = *self.entries.allocator();
        let room = Vec::with_capacity(alloc, self.entries.len() + changes.len())?;
        let entries = mem::replace(&mut self.entries, Vec::new(alloc));
        self.entries = merged(entries, changes, room);
        Ok(())
    }

    /// The same index again.
    pub fn copy(&self) -> Result<TileIndex, AllocError>
        ensures { IfOk result (λ index. index ≡ self.now) }
    {
        let mut entries = Vec::with_capacity(*self.entries.allocator(), self.entries.len())?;
        for (tile, entry) in &self.entries {
            entries.push((*tile, entry.copy()))?;
        }
        Ok(TileIndex { entries })
    }

    /// Puts the blocks of all entries behind others, in the order of the tiles.
    pub fn push_blocks(&self, blocks: &mut Vec<u32>) -> Result<(), AllocError>
        ensures { OnOk result
            (blocks.new.items ≡ blocks.old.items ++ flat_map (λ (x : ℕ × Entry). x.1.blocks) self.now) }
    {
        for (_tile, entry) in &self.entries {
            blocks.extend_from_slice(entry.blocks.as_slice())?;
        }
        Ok(())
    }

    /// The blocks of all entries, in the order of the tiles.
    pub fn blocks(&self, alloc: Global) -> Result<Vec<u32>, AllocError>
        ensures { IfOk result (λ blocks. blocks.items ≡ flat_map (λ (x : ℕ × Entry). x.1.blocks) self.now) }
    {
        let mut blocks = Vec::new(alloc);
        self.push_blocks(&mut blocks)?;
        Ok(blocks)
    }

    /// How many bytes `to_bytes` gives.
    pub fn bytes_len(&self) -> u64
        ensures value { result ≡ length (index_bytes self.now) }
        ensures index { IsIndex self.now }
    {
        let mut bytes = 4;
        for (_tile, entry) in &self.entries {
            bytes += entry.bytes_len();
        }
        bytes
    }
}
