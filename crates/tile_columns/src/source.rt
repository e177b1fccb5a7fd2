//! Where tiles come from.

ghost use Rattle.std.specs.Prelude.{◌≡◌, ◌<◌, slice_get, length, OnOk};
ghost use Rattle.std.specs.List.{All};
ghost use Rattle.arr_core.specs.Limits.{max_tile};
ghost use Rattle.arr_core.specs.Domains.{count};
ghost use Rattle.arr_core.specs.Runs.{cells_of};
ghost use Rattle.tile_columns.specs.Sources.{SourceState, OneMore, HasTile, box_in, AreOfTile, ArePicked, OnlyReads, Tells};

use arr_core::RunList;
use wcps_mean::CellError;

/// What gives the cells of a plan's coverages, a tile or some cells of one at a time.
pub trait Tiles {
    /// What calls leave as it is, beside coverages and cells.
    ghost Kept: { Type 0 } = { Unit {0} };

    /// The source as of one moment.
    ghost state: { Self → SourceState Self.Kept };

    /// Each tile of the coverages is in its format, by what calls leave as it is.
    ghost spelled: { Self.Kept → Type 0 };

    /// Makes `buffer` the cells of a tile, row-major. Refused with `DiskFault` only where the count of failures rose or
    /// stands at its last value, and with `Damaged` only where a tile is not in its format. Caches may change, the
    /// cells do not.
    fn tile(
        &mut self,
        coverage: usize,
        field: usize,
        tile: u64,
        buffer: &mut Vec<i64>,
    ) -> Result<(), CellError>
        requires { HasTile (slice_get (state self.old).coverages coverage) field tile }
        ensures value { OnOk result (AreOfTile (state self.old) coverage field tile buffer.new.items) }
        ensures places { OnOk result (length buffer.new.items ≡ count (box_in (state self.old) coverage tile)) }
        ensures fetched { OnOk result (OneMore (state self.old).fetched (state self.new).fetched) }
        ensures reads { OnlyReads (state self.old) (state self.new) }
        ensures reports { Tells spelled result (state self.old) (state self.new) };

    /// Makes `runs` the cells of a tile of 4,096 points, row-major: as runs where it lies so, else one by one. Refused
    /// as `tile` is.
    fn runs(
        &mut self,
        coverage: usize,
        field: usize,
        tile: u64,
        runs: &mut RunList,
    ) -> Result<(), CellError>
        requires tile { HasTile (slice_get (state self.old).coverages coverage) field tile }
        requires points { count (box_in (state self.old) coverage tile) ≡ max_tile }
        requires room { length runs.old.values.items ≡ max_tile }
        ensures value { OnOk result (AreOfTile (state self.old) coverage field tile (cells_of runs.new)) }
        ensures places { OnOk result (length (cells_of runs.new) ≡ max_tile) }
        ensures room { OnOk result (length runs.new.values.items ≡ max_tile) }
        ensures fetched { OnOk result (OneMore (state self.old).fetched (state self.new).fetched) }
        ensures reads { OnlyReads (state self.old) (state self.new) }
        ensures reports { Tells spelled result (state self.old) (state self.new) };

    /// Makes `cells` those of a tile at ranks in its box, one for each rank, in their order. Refused as `tile` is.
    fn pick(
        &mut self,
        coverage: usize,
        field: usize,
        tile: u64,
        ranks: &[u64],
        cells: &mut Vec<i64>,
    ) -> Result<(), CellError>
        requires tile { HasTile (slice_get (state self.old).coverages coverage) field tile }
        requires ranks { All (λ r. r < count (box_in (state self.old) coverage tile)) ranks.now }
        ensures value { OnOk result (ArePicked (state self.old) coverage field tile ranks.now cells.new.items) }
        ensures places { OnOk result (length cells.new.items ≡ length ranks.now) }
        ensures fetched { OnOk result (OneMore (state self.old).fetched (state self.new).fetched) }
        ensures reads { OnlyReads (state self.old) (state self.new) }
        ensures reports { Tells spelled result (state self.old) (state self.new) };

    /// How many tiles were fetched, whole or in part, in a `u64`, which stays at its last value.
    fn count(&self) -> u64
        ensures { result ≡ (state self.now).fetched };
}
