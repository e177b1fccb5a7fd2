//! Bytes as an index.

ghost use Rattle.std.specs.Prelude.{◌≡◌, ◌++◌, ◌<◌, ◌≤◌, ◌*◌, ◌^◌, ◌↔◌, length, flat_map, All, IfOk, IfSome, IfNone, IsErrOf, IsTrue};
ghost use Rattle.file_bytes.specs.Codes.{NoneIsRead};
ghost use Rattle.tile_index.specs.Index.{IsIndex, IsPair, ArePairs, AreSoMany};
ghost use Rattle.tile_index.specs.Limits.{max_tile_blocks};
ghost use Rattle.tile_index.specs.Entries.{most_bytes, AreOf};
ghost use Rattle.tile_index.specs.Bytes.{number_bytes, length_number, entry_bytes, index_bytes, IsOfNoIndex, IsOfNoOther};

use crate::entry::{BlockList, Entry};
use crate::index::TileIndex;
use file_bytes::{BLOCK_BYTES, Form, ReadError, Reader, Version};
use std::alloc::Global;

/// What a number that tells a form and a length has besides the length for raw cells: its highest bit.
pub(crate) const RAW: u32 = 2_147_483_648;

/// The most bytes that a tile of runs may have: 4,096 runs of 10 bytes.
const MAX_RUN_BYTES: u32 = 40_960;

/// The most bytes that a tile of raw cells may have: 4,096 cells of 8 bytes.
const MAX_RAW_BYTES: u32 = 32_768;

/// The most bytes that a tile of a form may have.
fn most_bytes(form: Form) -> u32
    ensures { result ≡ most_bytes form }
{
    match form {
        Form::Runs => MAX_RUN_BYTES,
        Form::Raw => MAX_RAW_BYTES,
    }
}

/// The form and the length that a number tells.
fn parts_of(number: u32) -> (Form, u32)
    ensures told { length_number result.0 result.1 ≡ number }
    ensures small { result.1 < 2 ^ 31 }
{
    if number < RAW {
        return (Form::Runs, number);
    }
    (Form::Raw, number - RAW)
}

/// The next `count` numbers.
fn read_numbers(bytes: &mut Reader, count: usize) -> Option<BlockList>
    requires { count ≤ max_tile_blocks }
    ensures counted { IfSome result (λ numbers. length numbers ≡ count) }
    ensures small { IfSome result (λ numbers. All (λ b. b < 2 ^ 32) numbers) }
    ensures read { IfSome result (λ numbers. bytes.old ≡ flat_map number_bytes numbers ++ bytes.new) }
    ensures damaged { IfNone result (length bytes.old < 4 * count) }
{
    let mut numbers = BlockList::empty();
    for _ in 0..count {
        let Some(number) = bytes.read_u32() else {
            return None;
        };
        numbers.push(number);
    }
    Some(numbers)
}

/// The next tile and its entry.
#[tactic(auto, unfolding(crate::specs::Bytes::entry_bytes))]
fn read_entry(bytes: &mut Reader) -> Option<(u64, Entry)>
    ensures read { IfSome result (λ pair. IsPair pair × (bytes.old ≡ entry_bytes pair ++ bytes.new)) }
    ensures damaged { IfNone result (NoneIsRead IsPair entry_bytes bytes.old) }
{
    let Some(tile) = bytes.read_u32() else {
        return None;
    };
    let Some(number) = bytes.read_u32() else {
        return None;
    };
    let (form, length) = parts_of(number);
    if !(1..=most_bytes(form)).contains(&length) {
        return None;
    }
    let Some(blocks) = read_numbers(bytes, length.div_ceil(BLOCK_BYTES as u32) as usize) else {
        return None;
    };
    let entry = Entry {
        form,
        length,
        blocks,
    };
    Some((u64::from(tile), entry))
}

/// The next `count` entries, their tiles in rising order.
fn read_entries(
    alloc: Global,
    bytes: &mut Reader,
    count: u32,
) -> Result<Vec<(u64, Entry)>, ReadError>
    ensures read { IfOk result (λ entries. bytes.old ≡ flat_map entry_bytes entries.items ++ bytes.new) }
    ensures counted { IfOk result (λ entries. length entries.items ≡ count) }
    ensures index { IfOk result (λ entries. ArePairs entries.items) }
    ensures damaged { IsErrOf result ReadError.Damaged
        → NoneIsRead (AreSoMany count) (flat_map entry_bytes) bytes.old }
{
    let mut entries = Vec::new(alloc);
    let mut after = 0;
    for _ in 0..count {
        let Some((tile, entry)) = read_entry(bytes) else {
            return Err(ReadError::Damaged);
        };
        if tile < after {
            return Err(ReadError::Damaged);
        }
        after = tile + 1;
        entries.push((tile, entry))?;
    }
    Ok(entries)
}

/// Whether all tiles are such as a file of a version has.
fn are_of(version: Version, entries: &[(u64, Entry)]) -> bool
    ensures { IsTrue result ↔ AreOf version entries.now }
{
    match version {
        Version::One => entries.iter().all(|pair| pair.1.form == Form::Runs),
        Version::Two => true,
    }
}

impl TileIndex {
    /// The index whose bytes these are in a file of a version: `Damaged` where they are those of none.
    #[tactic(auto, unfolding(crate::specs::Bytes::index_bytes))]
    pub fn from_bytes(alloc: Global, version: Version, bytes: &[u8]) -> Result<TileIndex, ReadError>
        ensures read { IfOk result (λ index. bytes.now ≡ index_bytes index) }
        ensures index { IfOk result (λ index. IsIndex index) }
        ensures version { IfOk result (λ index. AreOf version index) }
        ensures only { IfOk result (λ index. IsOfNoOther bytes.now index) }
        ensures damaged { IsErrOf result ReadError.Damaged → IsOfNoIndex version bytes.now }
    {
        let mut bytes = Reader::new(bytes);
        let Some(count) = bytes.read_u32() else {
            return Err(ReadError::Damaged);
        };
        let entries = read_entries(alloc, &mut bytes, count)?;
        if bytes.len() != 0 {
            return Err(ReadError::Damaged);
        }
        if !are_of(version, &entries) {
            return Err(ReadError::Damaged);
        }
        Ok(TileIndex::from_entries(entries))
    }
}
