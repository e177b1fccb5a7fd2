//! Cells to bytes.

ghost use Rattle.std.specs.Prelude.{◌≡◌, ◌≢◌, ◌+◌, ◌*◌, ◌<◌, ◌≤◌, ℕ, length, ◌++◌, All, IfOk, OnOk, get_or, pos};
ghost use Rattle.arr_core.specs.Cells.{Fits};
ghost use Rattle.arr_core.specs.Limits.{max_tile};
ghost use Rattle.run_tile.specs.Runs.{IsRun};
ghost use Rattle.run_tile.specs.Bytes.{run_bytes};
ghost use Rattle.run_tile.specs.Raw.{Spells, IsTile, AreRunsUpTo, form_of, raw_size, runs_size, tile_size};

use crate::raw::{encode_raw, is_shorter};
use crate::run::{Run, width};
use arr_core::FieldType;
use byteorder::{ByteOrder, LittleEndian};
use file_bytes::Form;
use std::alloc::{AllocError, Global};

/// Where the cells that are equal to the one at a place end.
fn run_end(cells: &[i64], at: usize) -> usize
    requires { at < length cells.now }
    ensures some { at < result }
    ensures within { result ≤ length cells.now }
    ensures equal { (k : ℕ) → at ≤ k → k < result → get_or cells.now k (pos 0) ≡ get_or cells.now at (pos 0) }
    ensures longest { result < length cells.now → get_or cells.now result (pos 0) ≢ get_or cells.now at (pos 0) }
{
    for place in at + 1..cells.len() {
        if cells[place] != cells[at] {
            return place;
        }
    }
    cells.len()
}

/// Writes a run after the bytes.
fn push_run(bytes: &mut Vec<u8>, kind: FieldType, run: Run) -> Result<(), AllocError>
    requires { IsRun kind run }
    ensures { OnOk result (bytes.new.items ≡ bytes.old.items ++ run_bytes kind run) }
{
    let mut count = [0; 2];
    LittleEndian::write_u16(&mut count, run.count);
    let mut value = [0; 8];
    let size = width(kind);
    LittleEndian::write_int(&mut value, run.value, size);
    bytes.extend_from_slice(&count)?;
    bytes.extend_from_slice(&value[..size])?;
    Ok(())
}

/// The bytes that spell the cells in runs, each as long as it can be; none where there are more than `most`.
fn encode_runs(
    alloc: Global,
    kind: FieldType,
    cells: &[i64],
    most: usize,
) -> Result<Option<Vec<u8>>, AllocError>
    requires few { length cells.now ≤ max_tile }
    requires short { most ≤ 8 * max_tile }
    requires of_type { All (Fits kind) cells.now }
    ensures runs { IfOk result (AreRunsUpTo kind cells.now most) }
{
    let mut bytes = Vec::with_capacity(alloc, most + 2 + width(kind))?;
    let mut at = 0;
    while at < cells.len() {
        let end = run_end(cells, at);
        let run = Run {
            count: (end - at) as u16,
            value: cells[at],
        };
        push_run(&mut bytes, kind, run)?;
        if most < bytes.len() {
            return Ok(None);
        }
        at = end;
    }
    Ok(Some(bytes))
}

/// How many of the first cells are looked at for noise.
const FIRST: usize = 64;

/// Whether cells look like noise: whether the first ones take more bytes in runs than one after the other. Noise is
/// found here, before its runs would be written.
fn seems_noisy(kind: FieldType, cells: &[i64]) -> bool {
    let first = cells.len().min(FIRST);
    let mut runs: usize = 1;
    for place in 1..first {
        if cells[place - 1] != cells[place] {
            runs += 1;
        }
    }
    first * width(kind) < runs * (2 + width(kind))
}

/// The raw bytes of cells whose runs take more.
fn raw_tile(alloc: Global, kind: FieldType, cells: &[i64]) -> Result<(Form, Vec<u8>), AllocError>
    requires few { length cells.now ≤ max_tile }
    requires of_type { All (Fits kind) cells.now }
    requires shorter { raw_size kind cells.now < runs_size kind cells.now }
    ensures { IfOk result (λ it. IsTile kind cells.now it.0 it.1.items) }
{
    let bytes = encode_raw(alloc, kind, cells)?;
    Ok((Form::Raw, bytes))
}

/// The bytes that spell the cells, and their form: the cells one after the other where that takes fewer bytes than
/// their runs, else runs, each as long as it can be. 1 to 32,768 bytes.
pub fn encode(alloc: Global, kind: FieldType, cells: &[i64]) -> Result<(Form, Vec<u8>), AllocError>
    requires some { 1 ≤ length cells.now }
    requires few { length cells.now ≤ max_tile }
    requires of_type { All (Fits kind) cells.now }
    ensures spelled { IfOk result (λ it. Spells it.0 kind it.1.items cells.now) }
    ensures form { IfOk result (λ it. it.0 ≡ form_of kind cells.now) }
    ensures length { IfOk result (λ it. length it.1.items ≡ tile_size kind cells.now) }
    ensures some { IfOk result (λ it. 1 ≤ length it.1.items) }
    ensures few { IfOk result (λ it. length it.1.items ≤ 8 * max_tile) }
{
    if seems_noisy(kind, cells) {
        let bytes = encode_raw(alloc, kind, cells)?;
        if is_shorter(kind, &bytes) {
            return Ok((Form::Raw, bytes));
        }
    }
    let Some(bytes) = encode_runs(alloc, kind, cells, cells.len() * width(kind))? else {
        let tile = raw_tile(alloc, kind, cells)?;
        return Ok(tile);
    };
    Ok((Form::Runs, bytes))
}
