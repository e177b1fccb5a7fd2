//! What is held for jobs, and read of it.

ghost use Rattle.std.specs.Prelude.{◌≡◌, None, IsErrOf, IfSome};
ghost use Rattle.std.specs.Prelude.{IfNone, OnOk, OnErr, option_copied, option_map, slice_get};
ghost use Rattle.std.specs.Bool.{OnTrue, OnFalse};
ghost use Rattle.arr_core.specs.Stores.{found};
ghost use Rattle.tile_store.specs.Faults.{Refuses};
ghost use Rattle.raster_store.specs.Views.{Fetched, SnapshotView};
ghost use Rattle.raster_store.specs.Calls.{signature_in};
ghost use Rattle.raster_store.specs.Fetches.{IsPlaceOf, HasTile, IsFetched, IsDamagedAt};
ghost use Rattle.raster_store.specs.Fetches.{HasRanks, ArePicked};
ghost use Rattle.raster_store.specs.Words.{TellsFault, OnlyFetches};
ghost use Rattle.raster_store.specs.Snapshots.{AreNames, held_for, OnHeldFor, Holds, HoldsNone, Releases};

use super::RasterStore;
use crate::fetching::{TileOf, fetch_of};
use crate::held::place_of;
use crate::picking::{RanksOf, pick_of};
use crate::reading::TileAt;
use crate::snapshot::{Snapshot, blocks_of, copies_of, coverages_for, place_for, release_all};
use arr_core::{Name, Signature};
use block_file::Blocks;
use std::alloc::AllocError;
use tile_store::Fault;

impl<B: Blocks> RasterStore<B> {
    /// Holds the coverages with names for a job, as they are, whatever is written afterwards. Nothing is held for the
    /// job yet. Refused for memory alone; nothing is held then.
    pub fn hold(&mut self, job: u64, names: &[Name]) -> Result<(), AllocError>
        requires job { held_for job self.old.snapshots ≡ None }
        requires names { AreNames names.now self.old.coverages }
        ensures held { OnOk result (Holds B.state job names.now self.old self.new) }
        ensures refused { OnErr result (HoldsNone B.state self.old self.new) }
    {
        let coverages = copies_of(self.alloc, &self.coverages, names)?;
        let blocks = blocks_of(self.alloc, &coverages)?;
        self.snapshots.reserve(1)?;
        self.blocks.hold(&blocks)?;
        match self.snapshots.push(Snapshot { job, coverages }) {
            Ok(()) => Ok(()),
            Err(_) => unreachable!(),
        }
    }

    /// Ends what is held for a job. Blocks that nothing else uses are free then. Takes no memory. Where nothing is held
    /// for the job nothing changes.
    pub fn release(&mut self, job: u64)
        ensures { Releases B.state job self.old self.new }
    {
        match place_for(&self.snapshots, job) {
            Some(place) => {
                let snapshot = self.snapshots.remove(place);
                release_all(&mut self.blocks, &snapshot.coverages);
            }
            None => {}
        }
    }

    /// The first job that something is held for. Takes no memory.
    pub fn first_held(&self) -> Option<u64>
        ensures { result ≡ option_map (λ (x : SnapshotView). x.job) (slice_get self.now.snapshots 0) }
    {
        match self.snapshots.first() {
            Some(snapshot) => Some(snapshot.job),
            None => None,
        }
    }

    /// Whether something is held for a job. Takes no memory.
    pub fn holds(&self, job: u64) -> bool
        ensures some { OnTrue result (held_for job self.now.snapshots ≡ None → ⊥) }
        ensures none { OnFalse result (held_for job self.now.snapshots ≡ None) }
    {
        match place_for(&self.snapshots, job) {
            Some(_) => true,
            None => false,
        }
    }

    /// The place of the coverage with a name among those that a number reads, for `fetch_at`: those that are held for
    /// the job, or, for number 0 where nothing is held for it, those of the store. Takes no memory.
    pub fn place_at(&self, job: u64, name: &Name) -> Option<usize>
        requires { held_for job self.now.snapshots ≡ None → job ≡ 0 }
        ensures some { IfSome result (λ place. OnHeldFor job self.now (λ v. IsPlaceOf name.now v.coverages place)) }
        ensures none { IfNone result (OnHeldFor job self.now (λ v. found name.now v.coverages ≡ None)) }
    {
        match place_of(coverages_for(&self.coverages, &self.snapshots, job), name) {
            Some(found) => Some(found),
            None => None,
        }
    }

    /// The name, domain and fields of the coverage with a name among those that a number reads, as `place_at` finds it.
    /// Takes no memory.
    pub fn signature_at(&self, job: u64, name: &Name) -> Option<&Signature>
        requires { held_for job self.now.snapshots ≡ None → job ≡ 0 }
        ensures { OnHeldFor job self.now (λ v. option_copied result ≡ signature_in name.now v.coverages) }
    {
        let coverages = coverages_for(&self.coverages, &self.snapshots, job);
        match place_of(coverages, name) {
            Some(place) => Some(&coverages[place].signature),
            None => None,
        }
    }

    /// Reads the stored numbers of a tile into `cells`, whatever it held before, in row-major order, of the coverages
    /// that are held for a job, by their places there. For number 0, where nothing is held for it, of those of the
    /// store as it is. `Damaged` comes where the tile was read and its bytes do not spell as many cells as it has
    /// points, and for no other tile's sake. After a refusal `cells` holds anything, and the tile is not counted as
    /// fetched.
    pub fn fetch_at(&mut self, job: u64, at: TileAt, cells: &mut Vec<i64>) -> Result<(), Fault>
        requires tile { OnHeldFor job self.old (λ v. HasTile at v.coverages) }
        ensures read { OnOk result (OnHeldFor job self.old (λ v. IsFetched B.state at v cells.new.items)) }
        ensures why { Refuses result (OnHeldFor job self.old (λ v. IsDamagedAt B.state at v)) ⊥ }
        ensures frame { OnlyFetches B.state self.old self.new }
        ensures fetched { OnOk result (Fetched 1 self.old.fetched self.new.fetched) }
        ensures unfetched { OnErr result (self.new.fetched ≡ self.old.fetched) }
        ensures told { TellsFault (IsErrOf result Fault.DiskFault) B.state self.old self.new }
    {
        let coverages = coverages_for(&self.coverages, &self.snapshots, job);
        let of = TileOf {
            coverage: &coverages[at.coverage],
            field: at.field,
            tile: at.tile,
        };
        fetch_of(
            self.alloc,
            &mut self.blocks,
            of,
            &mut self.decoded,
            &mut self.bytes,
            cells,
        )?;
        self.fetched = self.fetched.saturating_add(1);
        Ok(())
    }

    /// Reads the stored numbers of a tile at ranks of its points in row-major order into `cells`, one for each rank,
    /// whatever it held before: the same as `fetch_at` gives there, without the others where the tile was read so
    /// before. `Damaged` comes where `fetch_at` tells it. It counts as a tile that was fetched.
    pub fn pick_at(
        &mut self,
        job: u64,
        at: TileAt,
        ranks: &[u64],
        cells: &mut Vec<i64>,
    ) -> Result<(), Fault>
        requires tile { OnHeldFor job self.old (λ v. HasTile at v.coverages) }
        requires ranks { OnHeldFor job self.old (λ v. HasRanks at ranks.now v.coverages) }
        ensures read { OnOk result (OnHeldFor job self.old (λ v. ArePicked B.state at ranks.now v cells.new.items)) }
        ensures why { Refuses result (OnHeldFor job self.old (λ v. IsDamagedAt B.state at v)) ⊥ }
        ensures frame { OnlyFetches B.state self.old self.new }
        ensures fetched { OnOk result (Fetched 1 self.old.fetched self.new.fetched) }
        ensures unfetched { OnErr result (self.new.fetched ≡ self.old.fetched) }
        ensures told { TellsFault (IsErrOf result Fault.DiskFault) B.state self.old self.new }
    {
        let coverages = coverages_for(&self.coverages, &self.snapshots, job);
        let coverage = &coverages[at.coverage];
        let tile = TileOf {
            coverage,
            field: at.field,
            tile: at.tile,
        };
        let of = RanksOf { tile, ranks };
        pick_of(
            self.alloc,
            &mut self.blocks,
            of,
            &mut self.decoded,
            &mut self.bytes,
            cells,
        )?;
        self.fetched = self.fetched.saturating_add(1);
        Ok(())
    }
}
