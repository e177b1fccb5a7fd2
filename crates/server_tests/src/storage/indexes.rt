//! Indexes of tiles.

ghost use Rattle.std.specs.Prelude.{◌≡◌, ◌<◌, None, Some, IfOk, IsTrue};
ghost use Rattle.tile_index.specs.declared.entry.Entry.{Entry};
ghost use Rattle.tile_index.specs.Entries.{IsEntry, most_bytes};
ghost use Rattle.tile_index.specs.Index.{found_at};

use crate::storage::words::{block_numbers, form_of, say_form, say_list, unread};
use anyhow::{Result, bail};
use file_bytes::{Form, Version};
use std::alloc::{AllocError, Global};
use test_rows::{Answer, Files, cut, number};
use tile_index::{BlockList, Entry, TileIndex};

/// The last tile number of 32 bits. An index has room for another tile as long as this one is not listed.
const LAST: u64 = 4294967295;

/// Reads the index of bytes in a file of a version into one.
fn read(
    alloc: Global,
    answer: &mut Answer,
    index: &mut TileIndex,
    version: Version,
    files: &Files,
    words: &str,
) -> Result<()> {
    let bytes = files.bytes(alloc, words)?;
    match TileIndex::from_bytes(alloc, version, &bytes) {
        Ok(read) => {
            *index = read;
            answer.say("ok");
        }
        Err(error) => answer.refusal(unread(error)),
    }
    Ok(())
}

/// The length of a tile and its blocks, as `4 in 1`, of a raw one as `raw:4 in 1`; `none` where it is not listed.
fn say_entry(alloc: Global, answer: &mut Answer, entry: Option<&Entry>) {
    match entry {
        Some(entry) => {
            say_form(answer, entry.form);
            answer.count(u64::from(entry.length));
            answer.say(" in ");
            say_list(alloc, answer, entry.blocks.as_slice());
        }
        None => answer.say("none"),
    }
}

/// How many bytes a tile has at most.
fn most_bytes(form: Form) -> u32
    ensures { result ≡ most_bytes form }
{
    match form {
        Form::Runs => 40960,
        Form::Raw => 32768,
    }
}

/// The entry of a length and its blocks, as `4 1`, of a raw tile as `raw:4 1`.
fn entry_of(alloc: Global, words: &str) -> Result<Entry>
    ensures { IfOk result (λ e. IsEntry e) }
{
    let (form, words) = form_of(words);
    let (length, list) = cut(words);
    let length = length.parse::<u32>()?;
    let numbers = block_numbers(alloc, list)?;
    if length == 0 || length > most_bytes(form) || numbers.len() != length.div_ceil(4096) as usize {
        bail!("no such tile");
    }
    let blocks = BlockList::new(&numbers);
    Ok(Entry {
        form,
        length,
        blocks,
    })
}

/// Whether an index does not list the last tile, so that it has room for one below it.
fn has_room(index: &TileIndex, tile: u64) -> bool
    ensures below { IsTrue result → tile < 4294967295 }
    ensures room { IsTrue result → found_at 4294967295 index.now ≡ None }
{
    tile < LAST && index.get(LAST).is_none()
}

/// Gives a tile an entry, or none.
fn change(
    alloc: Global,
    index: &mut TileIndex,
    tile: u64,
    entry: Option<Entry>,
) -> Result<(), AllocError>
    requires below { tile < 4294967295 }
    requires room { found_at 4294967295 index.old ≡ None }
    requires entry { (e : Entry) → entry ≡ Some e → IsEntry e }
{
    index.replace_all(vec![in alloc; (tile, entry)]?)
}

/// Gives a tile an entry, as `0 4 1`, or none, as `0 none`.
fn replace(alloc: Global, answer: &mut Answer, index: &mut TileIndex, words: &str) -> Result<()> {
    let (tile, rest) = cut(words);
    let tile = number(tile)?;
    if !has_room(index, tile) {
        bail!("the last tile is left out");
    }
    match rest {
        "none" => change(alloc, index, tile, None)?,
        _ => change(alloc, index, tile, Some(entry_of(alloc, rest)?))?,
    }
    answer.say("ok");
    Ok(())
}

/// The blocks that an index lists.
fn blocks(alloc: Global, answer: &mut Answer, index: &TileIndex) -> Result<()> {
    say_list(alloc, answer, &index.blocks(alloc)?);
    Ok(())
}

/// The bytes of an index.
fn bytes(alloc: Global, answer: &mut Answer, index: &TileIndex) -> Result<()> {
    answer.hex(&index.to_bytes(alloc)?);
    Ok(())
}

/// A call on an index.
pub fn call(
    alloc: Global,
    answer: &mut Answer,
    index: &mut TileIndex,
    files: &Files,
    verb: &str,
    words: &str,
) -> Result<()> {
    match verb {
        "of" => return read(alloc, answer, index, Version::Two, files, words),
        "of_version_1" => return read(alloc, answer, index, Version::One, files, words),
        "replace" => return replace(alloc, answer, index, words),
        "blocks" => return blocks(alloc, answer, index),
        "index_bytes" => return bytes(alloc, answer, index),
        "entry" => say_entry(alloc, answer, index.get(number(words)?)),
        "tiles" => answer.count(index.as_slice().len() as u64),
        _ => answer.wrong("no such call"),
    }
    Ok(())
}
