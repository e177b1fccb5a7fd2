//! The coverages of a disk, and those of them that a query or a job reads. Their cells come a tile at a time.
ghost use Rattle.std.specs.Prelude.{◌≡◌, All, IfOk, OnOk};
ghost use Rattle.tile_store.specs.declared.fault.Fault.TheVariants.{NoRoom};
ghost use Rattle.coverage_server.specs.Views.{IsHeld};
ghost use Rattle.coverage_server.specs.Tiles.{AreRead, TellsCells, store_for};

use crate::coverages::Coverages;
use arr_core::{Name, RunList, Signature};
use disk_face::Disk;
use job_desk::Snapshots;
use raster_store::{Fault, TileAt};
use std::alloc::{AllocError, Global};
use tile_columns::Tiles;
use wcps_mean::CellError;

/// The coverages of a disk, and what is read of them: of the coverages that are held for a job, or for number 0 of the
/// store as it is, those at places there, in the order of a plan.
#[derive(Drop)]
pub struct AskedCells<D: Disk> {
    pub alloc: Global,
    pub coverages: Coverages<D>,
    pub job: u64,
    pub places: Vec<usize>,
}

/// The places of coverages, by their signatures, among those that a number reads.
fn places_of<D: Disk>(
    alloc: Global,
    coverages: &Coverages<D>,
    job: u64,
    signatures: &[Signature],
) -> Result<Vec<usize>, AllocError>
    requires held { All (IsHeld (store_for job coverages.now)) signatures.now }
    ensures { IfOk result (λ places. AreRead (store_for job coverages.now) signatures.now places.items) }
{
    let mut places = Vec::new(alloc);
    for signature in signatures {
        let _axes = signature.domain.axes();
        let place = match coverages.place(job, &signature.name) {
            Some(place) => place,
            None => unreachable!(),
        };
        places.push(place)?;
    }
    Ok(places)
}

impl<D: Disk> AskedCells<D> {
    /// The coverages of a disk, of which none is read.
    pub fn new(alloc: Global, coverages: Coverages<D>) -> AskedCells<D>
        ensures { result.coverages ≡ coverages }
    {
        AskedCells {
            alloc,
            coverages,
            job: 0,
            places: Vec::new(alloc),
        }
    }

    /// From now on these coverages are read, of those that are held for a job, or for number 0 of the store as it is.
    /// Each is looked up once.
    pub fn ask(&mut self, job: u64, signatures: &[Signature]) -> Result<(), AllocError>
        requires held { All (IsHeld (store_for job self.old.coverages)) signatures.now }
        ensures read { OnOk result (AreRead (store_for job self.old.coverages) signatures.now self.new.places.items) }
        ensures job { OnOk result (self.new.job ≡ job) }
        ensures coverages { self.new.coverages ≡ self.old.coverages }
    {
        self.places = places_of(self.alloc, &self.coverages, job, signatures)?;
        self.job = job;
        Ok(())
    }
}

/// Why a tile is not read. Room is never wanting there.
fn cell_error(fault: Fault) -> CellError
    requires { fault ≡ NoRoom → ⊥ }
    ensures { TellsCells fault result }
{
    match fault {
        Fault::NoMemory => CellError::NoMemory,
        Fault::DiskFault => CellError::DiskFault,
        Fault::NoRoom => unreachable!(),
        Fault::Damaged => CellError::Damaged,
    }
}

impl<D: Disk> Tiles for AskedCells<D> {
    ghost use Rattle.coverage_server.specs.Tiles.{AskedKept, ReadsSpelled, asked_state};

    ghost Kept = { AskedKept };

    ghost state = { λ s. asked_state s.job s.places.items s.coverages };

    ghost spelled = { λ k. ReadsSpelled k.0 k.1 k.2 };

    fn tile(
        &mut self,
        coverage: usize,
        field: usize,
        tile: u64,
        buffer: &mut Vec<i64>,
    ) -> Result<(), CellError> {
        let at = TileAt {
            coverage: self.places[coverage],
            field,
            tile,
        };
        match self.coverages.fetch(self.job, at, buffer) {
            Ok(()) => Ok(()),
            Err(fault) => Err(cell_error(fault)),
        }
    }

    fn runs(
        &mut self,
        coverage: usize,
        field: usize,
        tile: u64,
        runs: &mut RunList,
    ) -> Result<(), CellError> {
        let at = TileAt {
            coverage: self.places[coverage],
            field,
            tile,
        };
        match self.coverages.fetch_runs(self.job, at, runs) {
            Ok(()) => Ok(()),
            Err(fault) => Err(cell_error(fault)),
        }
    }

    fn pick(
        &mut self,
        coverage: usize,
        field: usize,
        tile: u64,
        ranks: &[u64],
        cells: &mut Vec<i64>,
    ) -> Result<(), CellError> {
        let at = TileAt {
            coverage: self.places[coverage],
            field,
            tile,
        };
        match self.coverages.pick(self.job, at, ranks, cells) {
            Ok(()) => Ok(()),
            Err(fault) => Err(cell_error(fault)),
        }
    }

    fn count(&self) -> u64 {
        self.coverages.fetched()
    }
}

impl<D: Disk> Snapshots for AskedCells<D> {
    ghost use Rattle.coverage_server.specs.Holding.{MayHold, HoldsFor, ReleasesFor};

    ghost may_hold = { λ s job names. MayHold job names s.coverages };

    ghost holds = { λ s job names t. HoldsFor job names s.coverages t.coverages };

    ghost stays = { λ s t. t.coverages ≡ s.coverages };

    ghost releases = { λ s job t. ReleasesFor job s.coverages t.coverages };

    fn hold(&mut self, job: u64, names: &[Name]) -> Result<(), AllocError> {
        self.coverages.hold(job, names)
    }

    fn release(&mut self, job: u64) {
        self.coverages.release(job)
    }
}
