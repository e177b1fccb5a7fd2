//! Encodes or decodes 64 tiles of 4,096 cells, to time how tiles are written and read.
//!
//! Its words are a type of cells, a pattern of them, `encode` or `decode`, and how often. The tiles differ, so that no
//! processor knows their runs by heart. The line says how many bytes or cells it were.

ghost use Rattle.std.specs.Prelude.{◌↔◌, All, IsTrue};
ghost use Rattle.arr_core.specs.Cells.{Fits};

use crate::noise::noise;
use anyhow::{Result, bail};
use arr_core::FieldType;
use file_bytes::Form;
use run_tile::{decode_into, encode};
use std::alloc::{AllocError, Global};
use std::marker::Model;

/// The type of a word.
fn kind_of(word: &str) -> Result<FieldType> {
    Ok(match word {
        "bool" => FieldType::Bool,
        "u8" => FieldType::U8,
        "i16" => FieldType::I16,
        "i32" => FieldType::I32,
        "i64" => FieldType::I64,
        _ => bail!("no type {word}"),
    })
}

/// Where runs begin in a tile.
#[derive(Clone, Copy)]
enum Pattern {
    /// At its first place alone.
    One,
    /// At each 64th place.
    Runs,
    /// By chance, so that runs have twenty cells on the average.
    Twenty,
    /// The same with three cells.
    Three,
    /// At each place.
    Noise,
}

impl Pattern {
    /// The pattern with a name.
    fn of(word: &str) -> Result<Pattern> {
        Ok(match word {
            "one" => Pattern::One,
            "runs" => Pattern::Runs,
            "twenty" => Pattern::Twenty,
            "three" => Pattern::Three,
            "noise" => Pattern::Noise,
            _ => bail!("no pattern {word}"),
        })
    }

    /// Whether a run begins at a place that is not the first of a tile.
    fn begins(self, place: u64) -> bool {
        match self {
            Pattern::One => false,
            Pattern::Runs => place % 64 == 0,
            Pattern::Twenty => noise(!place) % 20 == 0,
            Pattern::Three => noise(!place) % 3 == 0,
            Pattern::Noise => true,
        }
    }
}

/// The number brought into the range of a type.
fn cell(kind: FieldType, number: u64) -> i64 {
    match kind {
        FieldType::Bool => (number % 2) as i64,
        FieldType::U8 => (number % 256) as i64,
        FieldType::I16 => (number % 65536) as i64 - 32768,
        FieldType::I32 => (number % 4294967296) as i64 - 2147483648,
        FieldType::I64 => (number / 2) as i64,
    }
}

/// Whether all cells are of the type.
fn all_fit(kind: FieldType, cells: &[i64]) -> bool
    ensures { IsTrue result ↔ All (Fits kind) cells.now }
{
    cells.iter().all(|cell| kind.fits(*cell))
}

/// How many tiles there are.
const TILES: u64 = 64;

/// The cells of a tile, which may be written as those of its type: that is seen once, before anything is timed.
#[derive(Drop)]
struct Tile {
    kind: FieldType,
    cells: Vec<i64>,
}

impl Model for Tile {
    ghost use Rattle.std.specs.Prelude.{◌≤◌, ℤ, List, length, All};
    ghost use Rattle.arr_core.specs.Cells.{Fits};

    ghost Value = { List ℤ };

    ghost view = { λ t. t.cells.items };

    ghost invariant = { λ t. (1 ≤ length t.cells.items) × (length t.cells.items ≤ 4096) × All (Fits t.kind) t.cells.items };
}

impl Tile {
    /// The tile of these cells.
    fn of(kind: FieldType, cells: Vec<i64>) -> Result<Tile> {
        if cells.is_empty() || cells.len() > 4096 || !all_fit(kind, &cells) {
            bail!("not the cells of a tile");
        }
        Ok(Tile { kind, cells })
    }

    /// The form and the bytes of the tile.
    fn encoded(&self, alloc: Global) -> Result<(Form, Vec<u8>), AllocError> {
        encode(alloc, self.kind, &self.cells)
    }
}

/// Encodes the tiles in each round; gives how many bytes it were.
fn encode_all(alloc: Global, tiles: &[Tile], rounds: u32) -> Result<u64, AllocError> {
    let mut size: u64 = 0;
    for _ in 0..rounds {
        for tile in tiles {
            size = size.wrapping_add(tile.encoded(alloc)?.1.len() as u64);
        }
    }
    Ok(size)
}

/// The forms and the bytes of the tiles.
fn texts_of(alloc: Global, tiles: &[Tile]) -> Result<Vec<(Form, Vec<u8>)>> {
    let mut texts = Vec::new(alloc);
    for tile in tiles {
        texts.push(tile.encoded(alloc)?)?;
    }
    Ok(texts)
}

/// Decodes the tiles in each round, all into one buffer; gives how many cells it were.
fn decode_all(alloc: Global, kind: FieldType, tiles: &[Tile], rounds: u32) -> Result<u64> {
    let texts = texts_of(alloc, tiles)?;
    let mut size: u64 = 0;
    let mut again = Vec::new(alloc);
    for _ in 0..rounds {
        for (form, bytes) in &texts {
            if decode_into(kind, 4096, *form, bytes, &mut again).is_err() {
                bail!("no tile in the bytes of one");
            }
            size = size.wrapping_add(again.len() as u64);
        }
    }
    Ok(size)
}

/// The cells of the tile with a number.
fn cells_of(
    alloc: Global,
    kind: FieldType,
    pattern: Pattern,
    number: u64,
) -> Result<Vec<i64>, AllocError> {
    let mut cells = Vec::new(alloc);
    let mut begin = 0;
    for index in 0u64..4096 {
        let place = number.wrapping_mul(4096).wrapping_add(index);
        if index == 0 || pattern.begins(place) {
            begin = place;
        }
        cells.push(cell(kind, noise(begin)))?;
    }
    Ok(cells)
}

/// The tiles.
fn tiles(alloc: Global, kind: FieldType, pattern: Pattern) -> Result<Vec<Tile>> {
    let mut tiles = Vec::new(alloc);
    for number in 0..TILES {
        tiles.push(Tile::of(kind, cells_of(alloc, kind, pattern, number)?)?)?;
    }
    Ok(tiles)
}

/// What the words ask for.
pub fn run(alloc: Global, words: &[String]) -> Result<String> {
    let [kind, pattern, action, rounds] = words else {
        bail!("words: tile TYPE one|runs|twenty|three|noise encode|decode ROUNDS");
    };
    let kind = kind_of(kind.as_str())?;
    let rounds = rounds.parse::<u32>()?;
    let tiles = tiles(alloc, kind, Pattern::of(pattern.as_str())?)?;
    let size = match action.as_str() {
        "encode" => encode_all(alloc, &tiles, rounds)?,
        "decode" => decode_all(alloc, kind, &tiles, rounds)?,
        _ => bail!("no action {action}"),
    };
    Ok(format!(in alloc; "{size}")?)
}
