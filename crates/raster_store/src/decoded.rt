//! The tiles that are kept decoded.

ghost use Rattle.std.specs.Prelude.{◌≡◌, ◌<◌, length, IsTrue, IfOk, None, Some, false, replicate};
ghost use Rattle.arr_core.specs.Runs.{cells_of};
ghost use Rattle.raster_store.specs.Decoded.{nothing, IsKept, NoneAdded, Adds};

use crate::lists::{append_cells, copy_of, exchange_narrow, list_of, write_list};
use crate::reading::TileKey;
use arr_core::RunList;
use lru::LruCache;
use std::alloc::{AllocError, Global};
use std::marker::Model;
use std::num::NonZeroUsize;

/// How many tiles are kept at most.
const TILES: usize = 64;

/// How many keys are noted of tiles that were read.
const NOTED: usize = 256;

/// How many tiles are kept from their first read on after one was read again.
const EXPECTED: u32 = 8;

/// How many places there are for marks of tiles that were tested. Each has one place, where a later tile takes it.
const MARKS: usize = 65536;

/// How far apart the places of tiles of one number are, of versions and of fields that follow one another.
const STRIDE: u64 = 4099;

/// The cells of tiles by the versions of their coverages, as they were read, in the order of their last use, and marks
/// of tiles that were tested, which is to say read whole without a refusal. What finds no memory is left out: a tile,
/// the marks, or the whole. A tile is kept where it was read lately, so that one pass over many tiles drives out none.
/// Where tiles are being read again, as by a query that names a layer twice, the next few are kept from their first
/// read on. The last of these is given away at its second read, if it has 32 bits and such tiles are not read once
/// more; else it goes before the next one is kept, which then takes its memory. Tiles of versions that no coverage has
/// any more go as the least lately used.
#[derive(Drop)]
pub(crate) struct DecodedTiles {
    kept: Option<LruCache<TileKey, RunList>>,
    read: Vec<TileKey>,
    expected: u32,
    /// The tile that was kept last from its first read on, and whether it was read again.
    fresh: Option<TileKey>,
    served: bool,
    /// The tile that was given away last, and whether such tiles are given away: not where one was read once more.
    given: Option<TileKey>,
    gives: bool,
    tested: Vec<Option<TileKey>>,
}

impl Model for DecodedTiles {
    ghost use Rattle.raster_store.specs.Decoded.{Kept, kept_of};

    ghost Value = { Kept };

    ghost view = { λ d. kept_of d.kept d.tested.items };
}

/// No mark, at each of so many places.
fn no_marks(alloc: Global, count: usize) -> Result<Vec<Option<TileKey>>, AllocError>
    ensures { IfOk result (λ marks. marks.items ≡ replicate count None) }
{
    vec![in alloc; None; count]
}

/// The place for the mark of a tile. The remainder by a smaller number is the place for its key.
fn place_of(at: TileKey) -> usize
    ensures { result < MARKS }
{
    let first = at.version.wrapping_add(at.field as u64);
    let place = first.wrapping_mul(STRIDE).wrapping_add(at.tile) % MARKS as u64;
    place as usize
}

/// No tile, and no place for one.
fn without_room(alloc: Global) -> DecodedTiles
    ensures { result ≡ nothing }
{
    DecodedTiles {
        kept: None,
        read: Vec::new(alloc),
        expected: 0,
        fresh: None,
        served: false,
        given: None,
        gives: true,
        tested: Vec::new(alloc),
    }
}

/// No tile, and the places for keys.
fn empty(alloc: Global, count: NonZeroUsize) -> Result<DecodedTiles, AllocError>
    ensures { IfOk result (λ tiles. tiles ≡ nothing) }
{
    let first = TileKey {
        version: 0,
        field: 0,
        tile: 0,
    };
    let mut tiles = without_room(alloc);
    tiles.read = vec![in alloc; first; NOTED]?;
    tiles.kept = Some(LruCache::sparse(alloc, count)?);
    Ok(tiles)
}

impl DecodedTiles {
    /// No tile yet.
    pub(crate) fn new(alloc: Global) -> DecodedTiles
        ensures { result ≡ nothing }
    {
        if let Some(count) = NonZeroUsize::new(TILES) {
            if let Ok(tiles) = empty(alloc, count) {
                return tiles;
            }
        }
        without_room(alloc)
    }

    /// Drops the tiles, and keeps none from now on, and drops the marks. Takes no memory.
    pub(crate) fn let_go(&mut self, alloc: Global)
        ensures { self.new ≡ nothing }
    {
        *self = without_room(alloc);
    }

    /// Copies the cells of a tile into a buffer, whatever that held before, where the tile is kept, which it tells.
    pub(crate) fn get(&mut self, at: TileKey, cells: &mut Vec<i64>) -> Result<bool, AllocError>
        ensures kept { IfOk result (λ found. IsTrue found → IsKept at (Some cells.new.items) self.old) }
        ensures same { NoneAdded self.old self.new }
    {
        let Some(kept) = &mut self.kept else {
            return Ok(false);
        };
        let Some(tile) = kept.get(&at) else {
            return Ok(false);
        };
        self.expected = EXPECTED;
        self.served |= self.fresh == Some(at);
        cells.clear();
        append_cells(tile, cells)?;
        Ok(true)
    }

    /// Makes a list that of the cells of a tile, where the tile is kept and the list has room for its values, which it
    /// tells. The list keeps as many values as it has.
    pub(crate) fn get_runs(&mut self, at: TileKey, runs: &mut RunList) -> Result<bool, AllocError>
        ensures kept { IfOk result (λ found. IsTrue found → IsKept at (Some (cells_of runs.new)) self.old) }
        ensures same { NoneAdded self.old self.new }
        ensures room { length runs.new.values.items ≡ length runs.old.values.items }
    {
        if !self.gives || self.fresh != Some(at) {
            return self.copy_runs(at, runs);
        }
        if self.give(at, runs) {
            return Ok(true);
        }
        self.copy_runs(at, runs)
    }

    /// Makes a list that of the cells of a tile, as `get_runs` does, by a copy.
    fn copy_runs(&mut self, at: TileKey, runs: &mut RunList) -> Result<bool, AllocError>
        ensures kept { IfOk result (λ found. IsTrue found → IsKept at (Some (cells_of runs.new)) self.old) }
        ensures same { NoneAdded self.old self.new }
        ensures room { length runs.new.values.items ≡ length runs.old.values.items }
    {
        let Some(kept) = &mut self.kept else {
            return Ok(false);
        };
        let Some(tile) = kept.get(&at) else {
            return Ok(false);
        };
        self.expected = EXPECTED;
        self.served |= self.fresh == Some(at);
        write_list(runs, tile)
    }

    /// Gives a list the cells of a tile, and keeps the tile no longer, where it is kept in 32 bits, which it tells.
    fn give(&mut self, at: TileKey, runs: &mut RunList) -> bool
        ensures kept { IsTrue result → IsKept at (Some (cells_of runs.new)) self.old }
        ensures unkept { IsTrue result → NoneAdded self.old self.new }
        ensures same { (result ≡ false) → (self.new ≡ self.old) × (runs.new ≡ runs.old) }
        ensures room { length runs.new.values.items ≡ length runs.old.values.items }
    {
        let Some(kept) = &mut self.kept else {
            return false;
        };
        let Some(found) = kept.peek(&at) else {
            return false;
        };
        if !found.is_narrow {
            return false;
        }
        let Some(mut tile) = kept.pop(&at) else {
            return false;
        };
        exchange_narrow(runs, &mut tile);
        self.expected = EXPECTED;
        self.fresh = None;
        self.given = Some(at);
        true
    }

    /// Lets the tile go that was kept last from its first read on, if it was read again since.
    fn drop_served(&mut self)
        ensures { NoneAdded self.old self.new }
    {
        if !self.served {
            return;
        }
        let Some(fresh) = self.fresh else {
            return;
        };
        let Some(kept) = &mut self.kept else {
            return;
        };
        let _served = kept.pop(&fresh);
    }

    /// Notes the key of a tile that was read, and tells whether it is to be kept: where it was noted already, or
    /// another read of it is expected.
    fn note(&mut self, at: TileKey) -> bool
        ensures { NoneAdded self.old self.new }
    {
        let Some(noted) = self.read.get_mut(place_of(at) % NOTED) else {
            return false;
        };
        if *noted == at {
            self.expected = EXPECTED;
            self.gives &= self.given != Some(at);
            return true;
        }
        *noted = at;
        if self.expected == 0 {
            self.gives = true;
            return false;
        }
        self.expected -= 1;
        self.drop_served();
        self.fresh = Some(at);
        self.served = false;
        true
    }

    /// Keeps a tile, where there is memory for it.
    fn put(&mut self, at: TileKey, tile: RunList)
        ensures { Adds at (Some (cells_of tile)) self.old self.new }
    {
        let Some(kept) = &mut self.kept else {
            return;
        };
        let _put = kept.put(at, tile);
    }

    /// Keeps cells one by one, where there is memory for them.
    fn put_cells(&mut self, alloc: Global, at: TileKey, cells: &[i64])
        ensures { Adds at (Some cells.now) self.old self.new }
    {
        let Ok(tile) = list_of(alloc, cells) else {
            return;
        };
        self.put(at, tile);
    }

    /// Keeps the cells of a tile that was read, where another read of it is expected and there is memory for them.
    pub(crate) fn keep(&mut self, alloc: Global, at: TileKey, cells: &[i64])
        ensures { Adds at (Some cells.now) self.old self.new }
    {
        if self.note(at) {
            self.put_cells(alloc, at, cells);
        }
    }

    /// Keeps cells as runs, where there is memory for them.
    fn put_runs(&mut self, alloc: Global, at: TileKey, runs: &RunList)
        ensures { Adds at (Some (cells_of runs.now)) self.old self.new }
    {
        let Ok(tile) = copy_of(alloc, runs) else {
            return;
        };
        self.put(at, tile);
    }

    /// Keeps the cells of a tile that was read as runs, where another read of it is expected and there is memory for
    /// them.
    pub(crate) fn keep_runs(&mut self, alloc: Global, at: TileKey, runs: &RunList)
        ensures { Adds at (Some (cells_of runs.now)) self.old self.new }
    {
        if self.note(at) {
            self.put_runs(alloc, at, runs);
        }
    }

    /// Makes so many places for marks, where there are none and there is memory for them.
    fn make_places(&mut self, alloc: Global, count: usize)
        ensures { NoneAdded self.old self.new }
    {
        if self.tested.len() > 0 {
            return;
        }
        let Ok(marks) = no_marks(alloc, count) else {
            return;
        };
        self.tested = marks;
    }

    /// Marks a tile as tested, where there is a place for the mark.
    fn put_mark(&mut self, at: TileKey)
        ensures { Adds at None self.old self.new }
    {
        let place = place_of(at);
        if place >= self.tested.len() {
            return;
        }
        self.tested[place] = Some(at);
    }

    /// Marks a tile as tested, where there is memory for marks.
    pub(crate) fn mark(&mut self, alloc: Global, at: TileKey)
        ensures { Adds at None self.old self.new }
    {
        self.make_places(alloc, MARKS);
        self.put_mark(at);
    }

    /// Whether a tile is marked as tested.
    pub(crate) fn is_tested(&self, at: TileKey) -> bool
        ensures { IsTrue result → IsKept at None self.now }
    {
        let place = place_of(at);
        if place >= self.tested.len() {
            return false;
        }
        match self.tested[place] {
            Some(key) => key == at,
            None => false,
        }
    }
}
