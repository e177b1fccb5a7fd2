//! Tiles that are fetched as runs.

ghost use Rattle.std.specs.Prelude.{◌≡◌, length, IsErrOf, OnOk, OnErr};
ghost use Rattle.arr_core.specs.Runs.{cells_of};
ghost use Rattle.tile_store.specs.Faults.{Refuses};
ghost use Rattle.raster_store.specs.Views.{Fetched};
ghost use Rattle.raster_store.specs.Fetches.{HasTile, HasTileCount, IsFetched, IsDamagedAt};
ghost use Rattle.raster_store.specs.Snapshots.{OnHeldFor};
ghost use Rattle.raster_store.specs.Words.{TellsFault, OnlyFetches};

use super::RasterStore;
use crate::fetching::TileOf;
use crate::reading::TileAt;
use crate::runs::fetch_runs_of;
use crate::snapshot::coverages_for;
use arr_core::RunList;
use block_file::Blocks;
use tile_store::Fault;

impl<B: Blocks> RasterStore<B> {
    /// Makes a list that of the stored numbers of a tile, in row-major order, of the coverages that are held for a job,
    /// by their places there, as `fetch_at` does: as runs or one by one. The list has a value for each point of the
    /// tile, and keeps as many. For number 0, where nothing is held for it, of those of the store as it is. `Damaged`
    /// comes where `fetch_at` tells it. After a refusal the list stands for any numbers, and the tile is not counted as
    /// fetched.
    pub fn fetch_runs_at(&mut self, job: u64, at: TileAt, runs: &mut RunList) -> Result<(), Fault>
        requires tile { OnHeldFor job self.old (λ v. HasTile at v.coverages) }
        requires room { OnHeldFor job self.old (λ v. HasTileCount at v.coverages runs.old.values.items) }
        ensures read { OnOk result (OnHeldFor job self.old (λ v. IsFetched B.state at v (cells_of runs.new))) }
        ensures why { Refuses result (OnHeldFor job self.old (λ v. IsDamagedAt B.state at v)) ⊥ }
        ensures frame { OnlyFetches B.state self.old self.new }
        ensures fetched { OnOk result (Fetched 1 self.old.fetched self.new.fetched) }
        ensures unfetched { OnErr result (self.new.fetched ≡ self.old.fetched) }
        ensures told { TellsFault (IsErrOf result Fault.DiskFault) B.state self.old self.new }
        ensures room { length runs.new.values.items ≡ length runs.old.values.items }
    {
        let coverages = coverages_for(&self.coverages, &self.snapshots, job);
        let of = TileOf {
            coverage: &coverages[at.coverage],
            field: at.field,
            tile: at.tile,
        };
        fetch_runs_of(
            self.alloc,
            &mut self.blocks,
            of,
            &mut self.decoded,
            &mut self.bytes,
            runs,
        )?;
        self.fetched = self.fetched.saturating_add(1);
        Ok(())
    }
}
