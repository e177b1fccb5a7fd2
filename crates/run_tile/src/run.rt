//! One run of equal cells, and its bytes.

ghost use Rattle.std.specs.Prelude.{◌≡◌, ◌+◌, ◌≤◌, ◌<◌, ◌↔◌, length, IsTrue};
ghost use Rattle.run_tile.specs.Types.{width_of, value_of};
ghost use Rattle.run_tile.specs.Runs.{run_size, run_of, run_at, run_count, IsRun};
ghost use Rattle.byteorder.specs.Endian.{little_number};

use arr_core::{FieldType, MAX_TILE};
use byteorder::{ByteOrder, LittleEndian};

/// A run: `count` cells of one value.
#[derive(Clone, Copy, PartialEq, Eq)]
pub struct Run {
    pub count: u16,
    pub value: i64,
}

/// How many bytes a value of a type takes.
pub fn width(kind: FieldType) -> usize
    ensures { result ≡ width_of kind }
{
    match kind {
        FieldType::Bool | FieldType::U8 => 1,
        FieldType::I16 => 2,
        FieldType::I32 => 4,
        FieldType::I64 => 8,
    }
}

/// The value in the first bytes.
#[inline(always)]
pub(crate) fn read_value(kind: FieldType, bytes: &[u8]) -> i64
    requires { width_of kind ≤ length bytes.now }
    ensures { result ≡ value_of kind (little_number (width_of kind) bytes.now) }
{
    match kind {
        FieldType::Bool | FieldType::U8 => i64::from(bytes[0]),
        FieldType::I16 => i64::from(LittleEndian::read_i16(bytes)),
        FieldType::I32 => i64::from(LittleEndian::read_i32(bytes)),
        FieldType::I64 => LittleEndian::read_i64(bytes),
    }
}

impl Run {
    /// The run that the first bytes read as.
    pub fn read(kind: FieldType, bytes: &[u8]) -> Run
        requires { run_size kind ≤ length bytes.now }
        ensures { result ≡ run_of kind bytes.now }
    {
        Run {
            count: LittleEndian::read_u16(bytes),
            value: read_value(kind, &bytes[2..]),
        }
    }

    /// The run at a place, counted from 0.
    #[inline(always)]
    pub fn read_at(kind: FieldType, bytes: &[u8], place: usize) -> Run
        requires { place < run_count kind bytes.now }
        ensures { result ≡ run_at kind bytes.now place }
    {
        let size = 2 + width(kind);
        Run::read(kind, &bytes[place * size..])
    }

    /// Whether it has 1 to `MAX_TILE` cells, of a type.
    #[inline(always)]
    pub fn is_run(self, kind: FieldType) -> bool
        ensures { IsTrue result ↔ IsRun kind self }
    {
        1 <= self.count && u64::from(self.count) <= MAX_TILE && kind.fits(self.value)
    }
}
