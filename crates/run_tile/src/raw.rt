//! Cells one after the other, each in the width of its type.

ghost use Rattle.std.specs.Prelude.{◌≡◌, ◌+◌, ◌-◌, ◌*◌, ◌≤◌, ◌<◌, ◌↔◌, ℕ, length, map, All, pos, false, get_or, cond, IsTrue, IfOk};
ghost use Rattle.std.specs.Ordering.{int_eq};
ghost use Rattle.arr_core.specs.Cells.{Fits};
ghost use Rattle.arr_core.specs.Limits.{max_tile};
ghost use Rattle.run_tile.specs.Types.{width_of};
ghost use Rattle.run_tile.specs.Runs.{runs_in};
ghost use Rattle.run_tile.specs.Raw.{raw_at, raw_cells, raw_size, runs_from, runs_size, IsRawSpelling, IsNoRawSpelling};

use crate::number::Number;
use crate::run::{read_value, width};
use arr_core::{FieldType, MAX_TILE};
use byteorder::{ByteOrder, LittleEndian};
use std::alloc::{AllocError, Global};

/// The value at a place, counted from 0.
#[inline(always)]
pub(crate) fn value_at(kind: FieldType, bytes: &[u8], place: usize) -> i64
    requires { place * width_of kind + width_of kind ≤ length bytes.now }
    ensures { result ≡ raw_at kind bytes.now place }
{
    let size = width(kind);
    read_value(kind, &bytes[place * size..])
}

/// How many values are compared at least before it is asked whether their runs are too many.
const BLOCK: usize = 64;

/// 1 where the value at a place is that of the place before it, else 0.
#[inline(always)]
fn repeats_at(kind: FieldType, bytes: &[u8], place: usize) -> u16
    requires some { 1 ≤ place }
    requires within { place * width_of kind + width_of kind ≤ length bytes.now }
    ensures value { result ≡ cond (int_eq (raw_at kind bytes.now (place - 1)) (raw_at kind bytes.now place)) 1 0 }
    ensures small { result ≤ 1 }
{
    if value_at(kind, bytes, place - 1) == value_at(kind, bytes, place) {
        1
    } else {
        0
    }
}

/// How many of the values from one place on up to a later one begin a run. They are compared in the width of their
/// type.
#[inline(always)]
fn count_starts(kind: FieldType, bytes: &[u8], from: usize, end: usize) -> usize
    requires some { 1 ≤ from }
    requires order { from ≤ end }
    requires few { end ≤ from + max_tile }
    requires within { end * width_of kind ≤ length bytes.now }
    ensures value { result + runs_from kind bytes.now (end - 1) ≡ runs_from kind bytes.now (from - 1) }
    ensures few { result ≤ end - from }
{
    let mut repeats: u16 = 0;
    for place in from..end {
        repeats += repeats_at(kind, bytes, place);
    }
    end - from - repeats as usize
}

/// How many runs the values make. Where they make more than `most`, any number above it will do.
#[inline(always)]
fn count_runs(kind: FieldType, bytes: &[u8], most: usize) -> usize
    ensures exact { result ≤ most → result ≡ runs_in (raw_cells kind bytes.now) }
    ensures more { most < result → most < runs_in (raw_cells kind bytes.now) }
{
    let count = bytes.len() / width(kind);
    if count == 0 {
        return 0;
    }
    let mut runs: usize = 1;
    let mut at: usize = 1;
    while at < count {
        if most < runs {
            return runs;
        }
        let block = (most - runs + 1).max(BLOCK).min(MAX_TILE as usize);
        let end = at + block.min(count - at);
        runs += count_starts(kind, bytes, at, end);
        at = end;
    }
    runs
}

/// Whether the runs of the values that the bytes read as take more bytes than these.
#[inline(always)]
fn is_shorter_of(kind: FieldType, bytes: &[u8]) -> bool
    ensures { IsTrue result ↔ (length bytes.now < runs_size kind (raw_cells kind bytes.now)) }
{
    let most = bytes.len() / (2 + width(kind));
    most < count_runs(kind, bytes, most)
}

/// The same, by a loop of its own for each type.
pub(crate) fn is_shorter(kind: FieldType, bytes: &[u8]) -> bool
    ensures { IsTrue result ↔ (length bytes.now < runs_size kind (raw_cells kind bytes.now)) }
{
    match kind {
        FieldType::Bool => is_shorter_of(FieldType::Bool, bytes),
        FieldType::U8 => is_shorter_of(FieldType::U8, bytes),
        FieldType::I16 => is_shorter_of(FieldType::I16, bytes),
        FieldType::I32 => is_shorter_of(FieldType::I32, bytes),
        FieldType::I64 => is_shorter_of(FieldType::I64, bytes),
    }
}

/// Reads the value at each place, as many as there is room for, and tells whether all are of the type.
#[inline(always)]
fn read_each<N: Number>(kind: FieldType, bytes: &[u8], cells: &mut [N]) -> bool
    requires long { length cells.old * width_of kind ≤ length bytes.now }
    requires room { (k : ℕ) → N.HasRoom (raw_at kind bytes.now k) }
    ensures places { length cells.new ≡ length cells.old }
    ensures read { (k : ℕ) → k < length cells.new → get_or (map N.number cells.new) k (pos 0) ≡ raw_at kind bytes.now k }
    ensures fit { IsTrue result → (k : ℕ) → k < length cells.new → Fits kind (raw_at kind bytes.now k) }
    ensures unfit { (result ≡ false) → (k : ℕ) × (k < length cells.new) × ¬ (Fits kind (raw_at kind bytes.now k)) }
{
    let mut fit = true;
    for place in 0..cells.len() {
        let value = value_at(kind, bytes, place);
        fit &= kind.fits(value);
        cells[place] = N::of(value);
    }
    fit
}

/// The same, by a loop of its own for each type.
fn read_values<N: Number>(kind: FieldType, bytes: &[u8], cells: &mut [N]) -> bool
    requires long { length cells.old * width_of kind ≤ length bytes.now }
    requires room { (k : ℕ) → N.HasRoom (raw_at kind bytes.now k) }
    ensures places { length cells.new ≡ length cells.old }
    ensures read { (k : ℕ) → k < length cells.new → get_or (map N.number cells.new) k (pos 0) ≡ raw_at kind bytes.now k }
    ensures fit { IsTrue result → (k : ℕ) → k < length cells.new → Fits kind (raw_at kind bytes.now k) }
    ensures unfit { (result ≡ false) → (k : ℕ) × (k < length cells.new) × ¬ (Fits kind (raw_at kind bytes.now k)) }
{
    match kind {
        FieldType::Bool => read_each(FieldType::Bool, bytes, cells),
        FieldType::U8 => read_each(FieldType::U8, bytes, cells),
        FieldType::I16 => read_each(FieldType::I16, bytes, cells),
        FieldType::I32 => read_each(FieldType::I32, bytes, cells),
        FieldType::I64 => read_each(FieldType::I64, bytes, cells),
    }
}

/// Whether the bytes are cells of a type one after the other, as many as there is room for, which are written then, and
/// are fewer than the runs of these take.
pub(crate) fn read_raw<N: Number>(kind: FieldType, bytes: &[u8], cells: &mut [N]) -> bool
    requires { (k : ℕ) → N.HasRoom (raw_at kind bytes.now k) }
    ensures spelled { IsTrue result → IsRawSpelling kind bytes.now (map N.number cells.new) }
    ensures damaged { (result ≡ false) → IsNoRawSpelling (length cells.old) kind bytes.now }
{
    let size = width(kind);
    if bytes.len() % size != 0 || bytes.len() / size != cells.len() {
        return false;
    }
    if !read_values(kind, bytes, cells) {
        return false;
    }
    is_shorter(kind, bytes)
}

/// Writes the value at each place.
#[inline(always)]
fn write_values(kind: FieldType, cells: &[i64], bytes: &mut [u8])
    requires whole { length bytes.old ≡ raw_size kind cells.now }
    requires of_type { All (Fits kind) cells.now }
    ensures whole { length bytes.new ≡ raw_size kind cells.now }
    ensures read { cells.now ≡ raw_cells kind bytes.new }
{
    let size = width(kind);
    for place in 0..cells.len() {
        LittleEndian::write_int(&mut bytes[place * size..], cells[place], size);
    }
}

/// The same, by a loop of its own for each type.
fn write_raw(kind: FieldType, cells: &[i64], bytes: &mut [u8])
    requires whole { length bytes.old ≡ raw_size kind cells.now }
    requires of_type { All (Fits kind) cells.now }
    ensures whole { length bytes.new ≡ raw_size kind cells.now }
    ensures read { cells.now ≡ raw_cells kind bytes.new }
{
    match kind {
        FieldType::Bool => write_values(FieldType::Bool, cells, bytes),
        FieldType::U8 => write_values(FieldType::U8, cells, bytes),
        FieldType::I16 => write_values(FieldType::I16, cells, bytes),
        FieldType::I32 => write_values(FieldType::I32, cells, bytes),
        FieldType::I64 => write_values(FieldType::I64, cells, bytes),
    }
}

/// The cells one after the other.
pub(crate) fn encode_raw(
    alloc: Global,
    kind: FieldType,
    cells: &[i64],
) -> Result<Vec<u8>, AllocError>
    requires few { length cells.now ≤ max_tile }
    requires of_type { All (Fits kind) cells.now }
    ensures whole { IfOk result (λ bytes. length bytes.items ≡ raw_size kind cells.now) }
    ensures read { IfOk result (λ bytes. cells.now ≡ raw_cells kind bytes.items) }
{
    let mut bytes = vec![in alloc; 0u8; cells.len() * width(kind)]?;
    write_raw(kind, cells, &mut bytes);
    Ok(bytes)
}
