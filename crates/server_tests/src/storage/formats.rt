//! Numbers in bytes, and the bytes of tiles.

ghost use Rattle.std.specs.Prelude.{All, IsTrue};
ghost use Rattle.arr_core.specs.Cells.{Fits};

use crate::storage::words::{form_of, say_form, say_list, say_runs, unread};
use anyhow::{Result, bail};
use arr_core::{FieldType, RunList};
use file_bytes::{Reader, push_i32, push_u32};
use run_tile::{decode, decode_into, decode_runs, encode};
use std::alloc::Global;
use test_rows::{Answer, Files, coordinate, cut, cut_at, index, kind, numbers, text};

fn say_number(answer: &mut Answer, number: Option<i64>) {
    match number {
        Some(number) => answer.integer(number),
        None => answer.say("none"),
    }
}

fn say_bytes(answer: &mut Answer, bytes: Option<&[u8]>) {
    match bytes {
        Some(bytes) => answer.hex(bytes),
        None => answer.say("none"),
    }
}

/// What a reader gives: for `u8`, `u32` and `i32` a number, for `left` how many bytes are left, and for a number so
/// many bytes.
fn take(answer: &mut Answer, reader: &mut Reader, word: &str) -> Result<()> {
    match word {
        "u8" => say_number(answer, reader.read_u8().map(i64::from)),
        "u32" => say_number(answer, reader.read_u32().map(i64::from)),
        "i32" => say_number(answer, reader.read_i32().map(i64::from)),
        "left" => answer.count(reader.len() as u64),
        _ => say_bytes(answer, reader.take(index(word)?)),
    }
    Ok(())
}

/// What a reader of bytes gives in turn, as `u8,u32`.
fn read_numbers(answer: &mut Answer, words: &str, bytes: &[u8]) -> Result<()> {
    let mut reader = Reader::new(bytes);
    for word in words.split(',') {
        answer.comma();
        take(answer, &mut reader, word)?;
    }
    Ok(())
}

/// Writes a number behind bytes, as `u32:513`.
fn push(written: &mut Vec<u8>, word: &str) -> Result<()> {
    let (type_name, number) = cut_at(word, ':');
    match type_name {
        "u32" => push_u32(written, number.parse::<u32>()?)?,
        "i32" => push_i32(written, coordinate(number)?)?,
        _ => bail!("no such number"),
    }
    Ok(())
}

/// The bytes with numbers behind them, as `u32:513,i32:-2`.
fn write_numbers(alloc: Global, answer: &mut Answer, words: &str, bytes: &[u8]) -> Result<()> {
    let mut written = Vec::new(alloc);
    written.extend_from_slice(bytes)?;
    for word in words.split(',') {
        push(&mut written, word)?;
    }
    answer.hex(&written);
    Ok(())
}

/// The cells of the bytes of a tile, of a type and so many, as `i16:2`; of a raw tile as `raw:i16:2`.
fn decoded(alloc: Global, answer: &mut Answer, words: &str, bytes: &[u8]) -> Result<()> {
    let (form, words) = form_of(words);
    let (type_name, count) = cut_at(words, ':');
    match decode(alloc, kind(type_name)?, index(count)?, form, bytes) {
        Ok(cells) => say_list(alloc, answer, &cells),
        Err(error) => answer.refusal(unread(error)),
    }
    Ok(())
}

/// The same cells, read into a buffer that held five others.
fn decoded_into(alloc: Global, answer: &mut Answer, words: &str, bytes: &[u8]) -> Result<()> {
    let (form, words) = form_of(words);
    let (type_name, count) = cut_at(words, ':');
    let kind = kind(type_name)?;
    let mut cells = vec![in alloc; 3i64; 5]?;
    match decode_into(kind, index(count)?, form, bytes, &mut cells) {
        Ok(()) => say_list(alloc, answer, &cells),
        Err(error) => answer.refusal(unread(error)),
    }
    Ok(())
}

/// The same cells as runs, in a list that held two.
fn decoded_runs(alloc: Global, answer: &mut Answer, words: &str, bytes: &[u8]) -> Result<()> {
    let (form, words) = form_of(words);
    let (type_name, count) = cut_at(words, ':');
    let kind = kind(type_name)?;
    let values = vec![in alloc; 9i64; index(count)?]?;
    let counts = vec![in alloc; 3u32; 2]?;
    let mut runs = RunList::of(alloc, values, counts);
    match decode_runs(kind, form, bytes, &mut runs) {
        Ok(()) => say_runs(alloc, answer, &runs),
        Err(error) => answer.refusal(unread(error)),
    }
    Ok(())
}

/// A call on bytes.
fn on_bytes(
    alloc: Global,
    answer: &mut Answer,
    verb: &str,
    words: &str,
    bytes: &[u8],
) -> Result<()> {
    match verb {
        "decode" => decoded(alloc, answer, words, bytes),
        "decode_into" => decoded_into(alloc, answer, words, bytes),
        "decode_runs" => decoded_runs(alloc, answer, words, bytes),
        "read_numbers" => read_numbers(answer, words, bytes),
        "write_numbers" => write_numbers(alloc, answer, words, bytes),
        _ => bail!("no call {verb}"),
    }
}

/// A call on the bytes of a file, as `decode i16:2 lai`.
pub fn call(
    alloc: Global,
    answer: &mut Answer,
    files: &Files,
    verb: &str,
    words: &str,
) -> Result<()> {
    let (words, file) = cut(words);
    let bytes = files.bytes(alloc, file)?;
    on_bytes(alloc, answer, verb, words, &bytes)
}

/// Whether a field of a type may have each of the numbers.
fn all_fit(kind: FieldType, numbers: &[i64]) -> bool
    ensures { IsTrue result → All (Fits kind) numbers.now }
{
    numbers.iter().all(|number| kind.fits(*number))
}

/// The form and the bytes of the cells of a tile.
fn say_encoded(alloc: Global, answer: &mut Answer, kind: FieldType, cells: &[i64]) -> Result<()> {
    if cells.is_empty() || cells.len() > 4096 || !all_fit(kind, cells) {
        bail!("not the cells of a tile");
    }
    let (form, bytes) = encode(alloc, kind, cells)?;
    say_form(answer, form);
    answer.hex(&bytes);
    Ok(())
}

/// The bytes of a tile, as `i16 7,7,8`.
pub fn encoded(alloc: Global, answer: &mut Answer, words: &str) -> Result<()> {
    let (type_name, list) = cut(words);
    let kind = kind(type_name)?;
    let list = text(alloc, list)?;
    let cells = numbers(alloc, list.as_str())?;
    say_encoded(alloc, answer, kind, &cells)
}
