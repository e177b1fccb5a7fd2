//! Values that stand in memory alone.

use crate::storage::{catalogues, domains, file_metadata, formats, indexes};
use anyhow::Result;
use catalogue::Catalogue;
use std::alloc::Global;
use test_rows::{Answer, Files, cut};
use tile_index::TileIndex;

/// The index and the catalogue that rows speak to, each in its last state.
#[derive(Drop)]
pub struct Values {
    index: TileIndex,
    catalogue: Catalogue,
}

impl Values {
    pub fn new(alloc: Global) -> Values {
        Values {
            index: TileIndex::new(alloc),
            catalogue: Catalogue::new(alloc),
        }
    }

    /// A call on an index, a catalogue or metadata, or on a value that a row has whole.
    pub fn call(
        &mut self,
        alloc: Global,
        answer: &mut Answer,
        files: &Files,
        object: &str,
        rest: &str,
    ) -> Result<()> {
        let (verb, words) = cut(rest);
        match object {
            "index" => indexes::call(alloc, answer, &mut self.index, files, verb, words),
            "catalogue" => catalogues::call(alloc, answer, &mut self.catalogue, files, verb, words),
            "metadata" => file_metadata::call(alloc, answer, files, verb, words),
            "encode" => formats::encoded(alloc, answer, rest),
            "decode" | "decode_into" | "decode_runs" | "read_numbers" | "write_numbers" => {
                formats::call(alloc, answer, files, object, rest)
            }
            _ => domains::call(alloc, answer, object, rest),
        }
    }
}
