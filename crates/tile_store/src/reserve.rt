//! How many bytes changes give the index of a field, and how many blocks have to stay free for the metadata.

ghost use Rattle.std.specs.Prelude.{◌≡◌, ◌+◌, ◌*◌, ◌<◌, ◌≤◌, ◌^◌, length, All, Option, Some, IsTrue, false, option_copied};
ghost use Rattle.block_file.specs.Format.{chain_blocks};
ghost use Rattle.tile_index.specs.declared.entry.Entry.{Entry};
ghost use Rattle.tile_index.specs.Entries.{IsEntry};
ghost use Rattle.tile_index.specs.Index.{IsIndex};
ghost use Rattle.tile_store.specs.Room.{listed_bytes, entry_blocks, replaced_bytes, given_bytes};

use block_file::CHAIN_BYTES;
use tile_index::{Entry, TileIndex};

/// How many bytes an index has for a tile, by its entry: none without one.
fn entry_size(entry: Option<&Entry>) -> u64
    requires { (e : Entry) → option_copied entry ≡ Some e → IsEntry e }
    ensures value { result ≡ listed_bytes (entry_blocks (option_copied entry.entry)) }
    ensures small { result ≤ 48 }
{
    match entry {
        None => 0,
        Some(entry) => entry.bytes_len(),
    }
}

/// How many bytes the entries of some tiles have in an index.
pub(crate) fn listed_size(index: &TileIndex, tiles: &[u64]) -> u64
    requires index { IsIndex index.now }
    requires few { length tiles.now ≤ 2 ^ 32 }
    ensures { result ≡ replaced_bytes index.now tiles.now }
{
    let mut size = 0u64;
    for tile in tiles {
        size += entry_size(index.get(*tile));
    }
    size
}

/// How many bytes changes give an index.
pub(crate) fn changes_size(changes: &[(u64, Option<Entry>)]) -> u64
    requires entries { All (λ x. (e : Entry) → x.1 ≡ Some e → IsEntry e) changes.now }
    requires few { length changes.now ≤ 2 ^ 32 }
    ensures value { result ≡ given_bytes changes.now }
    ensures small { result ≤ 2 ^ 40 }
{
    let mut size = 0u64;
    for (_tile, change) in changes {
        size += entry_size(change.as_ref());
    }
    size
}

/// Whether so many free blocks hold metadata of `rest` and `size` bytes. The last value of `rest` stands for more than
/// fits anywhere.
pub(crate) fn has_room(free: u32, rest: u64, size: u64) -> bool
    ensures fits { IsTrue result → chain_blocks (rest + size) ≤ free }
    ensures short { (result ≡ false) → free < chain_blocks (rest + size) }
{
    rest.saturating_add(size).div_ceil(CHAIN_BYTES as u64) <= u64::from(free)
}
