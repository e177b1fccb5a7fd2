//! The metadata of a file.

use crate::storage::words::{say_list, unread};
use anyhow::Result;
use file_bytes::Version;
use metadata::{Metadata, catalogue_part, push_part, read_metadata};
use std::alloc::{AllocError, Global};
use test_rows::{Answer, Files};
use tile_index::TileIndex;

/// Adds the blocks that indexes list.
fn add_blocks(
    alloc: Global,
    blocks: &mut Vec<u32>,
    indexes: &[TileIndex],
) -> Result<(), AllocError> {
    for index in indexes {
        blocks.extend_from_slice(&index.blocks(alloc)?)?;
    }
    Ok(())
}

/// How many coverages metadata has, and the blocks that its indexes list.
fn describe(alloc: Global, answer: &mut Answer, metadata: &Metadata) -> Result<()> {
    let mut blocks = Vec::new(alloc);
    for indexes in &metadata.indexes {
        add_blocks(alloc, &mut blocks, indexes)?;
    }
    answer.count(metadata.catalogue.len() as u64);
    answer.say(" coverages, blocks ");
    say_list(alloc, answer, &blocks);
    Ok(())
}

/// Adds indexes as parts.
fn push_indexes(
    alloc: Global,
    written: &mut Vec<u8>,
    indexes: &[TileIndex],
) -> Result<(), AllocError> {
    for index in indexes {
        push_part(written, &index.to_bytes(alloc)?)?;
    }
    Ok(())
}

/// The bytes of metadata, written again.
fn bytes(alloc: Global, answer: &mut Answer, metadata: &Metadata) -> Result<()> {
    let mut written = catalogue_part(alloc, &metadata.catalogue)?;
    for indexes in &metadata.indexes {
        push_indexes(alloc, &mut written, indexes)?;
    }
    answer.hex(&written);
    Ok(())
}

/// What metadata holds, and for `again` its bytes.
fn say(alloc: Global, answer: &mut Answer, verb: &str, metadata: &Metadata) -> Result<()> {
    match verb {
        "again" => bytes(alloc, answer, metadata),
        _ => describe(alloc, answer, metadata),
    }
}

/// The version of the file that a call reads.
fn version_of(verb: &str) -> Version {
    match verb {
        "of_version_1" => Version::One,
        _ => Version::Two,
    }
}

/// What the metadata of a file holds, as `of lai`, of one of version 1 as `of_version_1 lai`, and for `again` its
/// bytes.
pub fn call(
    alloc: Global,
    answer: &mut Answer,
    files: &Files,
    verb: &str,
    words: &str,
) -> Result<()> {
    let bytes = files.bytes(alloc, words)?;
    match read_metadata(alloc, version_of(verb), &bytes) {
        Ok(metadata) => say(alloc, answer, verb, &metadata)?,
        Err(error) => answer.refusal(unread(error)),
    }
    Ok(())
}
