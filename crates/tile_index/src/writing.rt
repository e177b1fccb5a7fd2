//! An index as bytes.

ghost use Rattle.std.specs.Prelude.{◌≡◌, ◌++◌, ◌<◌, ◌^◌, flat_map, IfOk, OnOk};
ghost use Rattle.tile_index.specs.declared.entry.Entry.{Entry};
ghost use Rattle.tile_index.specs.Bytes.{number_bytes, length_number, entry_bytes, index_bytes};

use crate::entry::Entry;
use crate::index::TileIndex;
use crate::reading::RAW;
use file_bytes::{Form, push_u32};
use std::alloc::{AllocError, Global};

/// Writes numbers after the bytes.
fn push_numbers(bytes: &mut Vec<u8>, numbers: &[u32]) -> Result<(), AllocError>
    ensures { OnOk result (bytes.new.items ≡ bytes.old.items ++ flat_map number_bytes numbers.now) }
{
    for number in numbers {
        push_u32(bytes, *number)?;
    }
    Ok(())
}

/// The number that tells a form and a length.
fn length_number(form: Form, length: u32) -> u32
    requires { length < 2 ^ 31 }
    ensures { result ≡ length_number form length }
{
    match form {
        Form::Runs => length,
        Form::Raw => RAW + length,
    }
}

/// Writes a tile and its entry after the bytes.
#[tactic(auto, unfolding(crate::specs::Bytes::entry_bytes))]
fn push_entry(bytes: &mut Vec<u8>, tile: u32, entry: &Entry) -> Result<(), AllocError>
    requires { entry.now.length < 2 ^ 31 }
    ensures { OnOk result (bytes.new.items ≡ bytes.old.items ++ entry_bytes (tile, entry.now)) }
{
    push_u32(bytes, tile)?;
    push_u32(bytes, length_number(entry.form, entry.length))?;
    push_numbers(bytes, entry.blocks.as_slice())
}

impl TileIndex {
    /// The bytes of the index, every number in 32 bits with the lowest byte first: how many
    /// entries there are, and for each its tile, its length and its blocks.
    #[tactic(auto, unfolding(crate::specs::Bytes::index_bytes))]
    pub fn to_bytes(&self, alloc: Global) -> Result<Vec<u8>, AllocError>
        ensures { IfOk result (λ bytes. bytes.items ≡ index_bytes self.now) }
    {
        let entries = self.as_slice();
        let mut bytes = Vec::new(alloc);
        push_u32(&mut bytes, entries.len() as u32)?;
        for (tile, entry) in entries {
            push_entry(&mut bytes, *tile as u32, entry)?;
        }
        Ok(bytes)
    }
}
