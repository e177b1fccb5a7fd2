//! Catalogues.

use crate::storage::words::{NO_MEMORY, say_signature, signature, unread};
use anyhow::Result;
use arr_core::Name;
use catalogue::{Catalogue, InsertError};
use file_bytes::Version;
use std::alloc::Global;
use test_rows::{Answer, Files, number};

const NO_SUCH_COVERAGE: u16 = 20;

fn refused(error: InsertError) -> u16 {
    match error {
        InsertError::CoverageExists => 21,
        InsertError::BadDomain => 22,
        InsertError::BadField => 23,
        InsertError::TooManyCoverages => 27,
        InsertError::NoMemory => NO_MEMORY,
    }
}

/// Reads the catalogue of bytes into one.
fn read(
    alloc: Global,
    answer: &mut Answer,
    catalogue: &mut Catalogue,
    files: &Files,
    words: &str,
) -> Result<()> {
    let bytes = files.bytes(alloc, words)?;
    match Catalogue::from_bytes(alloc, Version::Two, &bytes) {
        Ok(read) => {
            *catalogue = read;
            answer.say("ok");
        }
        Err(error) => answer.refusal(unread(error)),
    }
    Ok(())
}

/// Inserts a coverage, as `lai x(0:99) v:i16`.
fn insert(
    alloc: Global,
    answer: &mut Answer,
    catalogue: &mut Catalogue,
    words: &str,
) -> Result<()> {
    match catalogue.insert(signature(alloc, words)?) {
        Ok(()) => answer.say("ok"),
        Err(error) => answer.refusal(refused(error)),
    }
    Ok(())
}

/// Inserts a coverage with one axis and one field, and a number in its name.
fn insert_numbered(alloc: Global, catalogue: &mut Catalogue, number: u64) -> Result<()> {
    let words = format!(in alloc; "c{number} x(0:99) v:i16")?;
    catalogue.insert(signature(alloc, words.as_str())?)?;
    Ok(())
}

/// Inserts so many coverages with numbers from 0 on.
fn insert_many(
    alloc: Global,
    answer: &mut Answer,
    catalogue: &mut Catalogue,
    count: u64,
) -> Result<()> {
    for number in 0..count {
        insert_numbered(alloc, catalogue, number)?;
    }
    answer.say("ok");
    Ok(())
}

/// The names, in order.
fn names(alloc: Global, answer: &mut Answer, catalogue: &Catalogue) -> Result<()> {
    for signature in &catalogue.list(alloc)? {
        answer.comma();
        answer.say(signature.name.as_str());
    }
    Ok(())
}

/// How many coverages there are, and how many bytes they take, as `1 in 23`.
fn say_size(answer: &mut Answer, catalogue: &Catalogue) {
    let count = catalogue.len();
    answer.count(count as u64);
    answer.say(" in ");
    answer.count(catalogue.bytes_len());
    if catalogue.is_empty() != (count == 0) {
        answer.wrong("is_empty is wrong");
    }
}

/// How many bytes the catalogue takes with a coverage, or why it is not inserted.
fn size_with(alloc: Global, answer: &mut Answer, catalogue: &Catalogue, words: &str) -> Result<()> {
    let signature = signature(alloc, words)?;
    match catalogue.check(&signature) {
        Ok(()) => answer.count(catalogue.bytes_len_with(&signature)),
        Err(error) => answer.refusal(refused(error)),
    }
    Ok(())
}

/// Takes a coverage out.
fn remove(
    alloc: Global,
    answer: &mut Answer,
    catalogue: &mut Catalogue,
    words: &str,
) -> Result<()> {
    match catalogue.remove(&Name::new(alloc, words)?) {
        Ok(()) => answer.say("ok"),
        Err(_) => answer.refusal(NO_SUCH_COVERAGE),
    }
    Ok(())
}

/// What is told of the coverage with a name.
fn describe(alloc: Global, answer: &mut Answer, catalogue: &Catalogue, words: &str) -> Result<()> {
    let name = Name::new(alloc, words)?;
    say_signature(answer, catalogue.describe(&name));
    Ok(())
}

/// The bytes of the catalogue.
fn bytes(alloc: Global, answer: &mut Answer, catalogue: &Catalogue) -> Result<()> {
    answer.hex(&catalogue.to_bytes(alloc)?);
    Ok(())
}

/// A call on a catalogue.
pub fn call(
    alloc: Global,
    answer: &mut Answer,
    catalogue: &mut Catalogue,
    files: &Files,
    verb: &str,
    words: &str,
) -> Result<()> {
    match verb {
        "of" => return read(alloc, answer, catalogue, files, words),
        "insert" => return insert(alloc, answer, catalogue, words),
        "insert_many" => return insert_many(alloc, answer, catalogue, number(words)?),
        "size_with" => return size_with(alloc, answer, catalogue, words),
        "remove" => return remove(alloc, answer, catalogue, words),
        "describe" => return describe(alloc, answer, catalogue, words),
        "list" => return names(alloc, answer, catalogue),
        "bytes" => return bytes(alloc, answer, catalogue),
        "size" => say_size(answer, catalogue),
        _ => answer.wrong("no such call"),
    }
    Ok(())
}
