//! The coverages of a disk: their catalogue, and their cells in tiles.
ghost use Rattle.std.specs.Prelude.{◌≡◌, ◌<◌, ◌≤◌, None, Some, length, IfOk, IfErr, IfSome, IfNone, OnOk, OnErr};
ghost use Rattle.std.specs.Prelude.{IsErr, IsErrOf, IsTrue, option_copied, option_map, slice_get};
ghost use Rattle.arr_core.specs.Runs.{cells_of};
ghost use Rattle.arr_core.specs.Stores.{deleted, found};
ghost use Rattle.block_file.specs.Format.{HeaderTorn, KeepsHeader};
ghost use Rattle.block_file.specs.State.{overreads_of};
ghost use Rattle.catalogue.specs.Bytes.{catalogue_bytes};
ghost use Rattle.metadata.specs.Metadata.{part_bytes};
ghost use Rattle.catalogue.specs.Signatures.{IsCatalogue, listed};
ghost use Rattle.tile_store.specs.Faults.{Refuses};
ghost use Rattle.raster_store.specs.Calls.{AreWhole, HasField, indexes_without};
ghost use Rattle.raster_store.specs.Views.{Fetched, SnapshotView};
ghost use Rattle.raster_store.specs.Fetches.{IsPlaceOf, HasTile, HasRanks, HasTileCount, AreTileCells};
ghost use Rattle.raster_store.specs.Snapshots.{held_for};
ghost use Rattle.coverage_server.specs.Damage.{AreListedWhole, KeepsSpelled};
ghost use Rattle.coverage_server.specs.Holding.{MayHold, HoldsFor, ReleasesFor};
ghost use Rattle.coverage_server.specs.Growing.{GrowsToClose, GrowsToWrite};
ghost use Rattle.coverage_server.specs.Leaving.{Continues, KeepsDisk};
ghost use Rattle.coverage_server.specs.Tiles.{ArePickedFor, IsSpelledFor, store_for};
ghost use Rattle.disk_face.specs.Disk.{Tells};
ghost use Rattle.kvp_front.specs.Contents.{content_view};
ghost use Rattle.coverage_server.specs.Closing.{metadata_held, ClosesFile, HoldsClosed, WritesHeld};
ghost use Rattle.tile_store.specs.declared.fault.Fault.TheVariants as device;
ghost use Rattle.kvp_front.specs.Contents as contents;
ghost use Rattle.coverage_server.specs.Disk.{IsOpenFile};
ghost use Rattle.coverage_server.specs.Views.{IsSound, IsUnchanged, KeepsHeld, signatures_of, still_of, without_held};
ghost use Rattle.coverage_server.specs.Writing.{device_refusal, write_refusal, insert_refusal, FindsCoverage};
ghost use Rattle.coverage_server.specs.Writing.{InsertsCoverage, InsertRefused, WritesCells, WriteRefused};

use crate::error::AnswerError;
use arr_core::{Cell, Domain, Name, Refusal, RunList, Signature};
use block_file::{CloseFault, State};
use catalogue::{Catalogue, InsertError};
use disk_face::{Disk, DiskFault};
use kvp_front::Content;
use metadata::catalogue_part;
use page_pool::PagePool;
use raster_store::{Fault, RasterStore, TileAt, WriteFault};
use std::alloc::{AllocError, Global};
use std::marker::Model;
use tile_store::FieldIndex;

/// The coverages of a disk. As many blocks stay free as the metadata takes, so that the disk can be closed.
#[derive(Drop)]
pub struct Coverages<D: Disk> {
    catalogue: Catalogue,
    cells: RasterStore<PagePool<D>>,
}

impl<D: Disk> Model for Coverages<D> {
    ghost use Rattle.block_file.specs.Uses.{uses_of};
    ghost use Rattle.coverage_server.specs.Views.{ServerView, IsClosable};

    ghost Value = { ServerView };

    ghost view = { λ s. record {
      store = s.cells.coverages;
      indexes = s.cells.indexes;
      held = s.cells.snapshots;
      content = s.cells.blocks.content;
      honest = s.cells.blocks.honest;
      failures = s.cells.blocks.failures;
      overreads = s.cells.blocks.overreads;
      fetched = s.cells.fetched;
    } };

    ghost invariant = { λ s.
        IsClosable s.catalogue s.cells.coverages s.cells.indexes s.cells.snapshots (uses_of s.cells.blocks.marks) };
}

/// Why a signature is not inserted.
fn insert_refusal(error: InsertError) -> AnswerError
    ensures { result ≡ insert_refusal error }
{
    match error {
        InsertError::CoverageExists => AnswerError::Named(Refusal::CoverageExists),
        InsertError::BadDomain => AnswerError::Named(Refusal::BadDomain),
        InsertError::BadField => AnswerError::Named(Refusal::BadField),
        InsertError::TooManyCoverages => AnswerError::Named(Refusal::TooManyCoverages),
        InsertError::NoMemory => AnswerError::NoMemory,
    }
}

/// Why cells are not written.
fn write_refusal(fault: WriteFault) -> AnswerError
    ensures { result ≡ write_refusal fault }
{
    match fault {
        WriteFault::OutsideDomain => AnswerError::Named(Refusal::OutsideDomain),
        WriteFault::ValueCount => AnswerError::Named(Refusal::ValueCount),
        WriteFault::ValueRange => AnswerError::Named(Refusal::ValueRange),
        WriteFault::Device(fault) => device_refusal(fault),
    }
}

/// Why the device refused.
fn device_refusal(fault: Fault) -> AnswerError
    ensures { result ≡ device_refusal fault }
{
    match fault {
        Fault::NoMemory => AnswerError::NoMemory,
        Fault::DiskFault => AnswerError::DiskFault,
        Fault::NoRoom => AnswerError::NoRoom,
        Fault::Damaged => AnswerError::Damaged,
    }
}

impl<D: Disk> Coverages<D> {
    ghost use Rattle.block_file.specs.Uses.{uses_of};
    ghost use Rattle.coverage_server.specs.Views.{IsClosable};

    /// The coverages that cells hold, with their catalogue.
    pub(crate) fn new(catalogue: Catalogue, cells: RasterStore<PagePool<D>>) -> Coverages<D>
        requires { IsClosable catalogue cells.coverages cells.indexes cells.snapshots (uses_of cells.blocks.marks) }
        ensures store { result.store ≡ cells.coverages }
        ensures indexes { result.indexes ≡ cells.indexes }
        ensures held { result.held ≡ cells.snapshots }
        ensures content { result.content ≡ cells.blocks.content }
        ensures honest { result.honest ≡ cells.blocks.honest }
        ensures failures { result.failures ≡ cells.blocks.failures }
        ensures overreads { result.overreads ≡ cells.blocks.overreads }
        ensures fetched { result.fetched ≡ cells.fetched }
    {
        Coverages { catalogue, cells }
    }

    /// How many tiles were fetched. The count stays at the last value of a `u64`.
    pub fn fetched(&self) -> u64
        ensures { result ≡ self.now.fetched }
    {
        self.cells.fetched()
    }

    /// How many coverages there are: at most 1,024, each with a name of its own, and an index for each of its fields,
    /// which lists tiles of its domain, in blocks that are whole on an honest disk.
    pub fn len(&self) -> usize
        ensures len { result ≡ length self.now.store }
        ensures catalogue { IsCatalogue (signatures_of self.now.store) }
        ensures whole { AreWhole self.now.store self.now.indexes }
        ensures in_use { IsTrue self.now.honest → AreListedWhole self.now.content self.now.indexes }
    {
        let _listed = self.cells.len();
        self.catalogue.len()
    }

    /// The signature of the coverage at a place, in the order of insertion.
    pub fn at(&self, place: usize) -> &Signature
        requires { place < length self.now.store }
        ensures { slice_get (signatures_of self.now.store) place ≡ Some result.now }
    {
        self.catalogue.at(place)
    }

    /// The signature of the coverage with a name.
    pub fn signature(&self, name: &Name) -> Option<&Signature>
        ensures { FindsCoverage name.now self.now.store result }
    {
        self.catalogue.describe(name)
    }

    /// The signature of the coverage whose name a text is.
    pub fn find(&self, text: &str) -> Option<&Signature>
        ensures { option_copied result ≡ listed text.now (signatures_of self.now.store) }
    {
        self.catalogue.find(text)
    }

    /// Adds a coverage that is 0 or false everywhere. Refused as the catalogue refuses its signature, then for memory,
    /// and for room where fewer blocks are free than the metadata takes with it. A refusal changes nothing.
    pub fn insert(&mut self, alloc: Global, signature: &Signature) -> Result<(), AnswerError>
        ensures inserted { OnOk result (InsertsCoverage signature.now self.old self.new) }
        ensures refused { IfErr result (λ e. InsertRefused self.old signature.now e) }
        ensures unchanged { OnErr result (IsUnchanged self.old self.new) }
        ensures keeps { KeepsDisk self.old self.new }
    {
        if let Err(error) = self.catalogue.check(signature) {
            return Err(insert_refusal(error));
        }
        let bytes = self.catalogue.bytes_len_with(signature);
        let listed = signature.copy(alloc)?;
        if let Err(error) = self.catalogue.insert(listed) {
            return Err(insert_refusal(error));
        }
        match self.cells.create(signature, bytes) {
            Ok(()) => Ok(()),
            Err(fault) => {
                let _removed = self.catalogue.remove(&signature.name);
                Err(device_refusal(fault))
            }
        }
    }

    /// Takes the coverage with a name out, where there is one. Takes no memory.
    pub fn remove(&mut self, name: &Name)
        ensures removed { self.new.store ≡ deleted name.now self.old.store }
        ensures indexes { self.new.indexes ≡ indexes_without name.now self.old.store self.old.indexes }
        ensures keeps { KeepsDisk self.old self.new }
    {
        let _removed = self.catalogue.remove(name);
        self.cells.remove(name);
    }

    /// Writes cells into a box of a field, by its place. Refused for a box that is none of the coverage, then for
    /// another number of cells than it has points, then for a cell that is none of the field's type; or for memory, the
    /// disk, room, and damage of a tile that the box meets and does not cover. A refusal changes nothing.
    pub fn write(
        &mut self,
        name: &Name,
        field: usize,
        area: &Domain,
        content: &Content,
    ) -> Result<(), AnswerError>
        requires field { HasField name.now field self.old.store }
        ensures done { OnOk result (WritesCells name.now field area.now (content_view content.now) self.old self.new) }
        ensures refused { IfErr result (WriteRefused name.now field area.now (content_view content.now) self.old) }
        ensures told { Tells (IsErrOf result AnswerError.DiskFault) self.old.failures self.new.failures }
        ensures unchanged { OnErr result (IsUnchanged self.old self.new) }
        ensures continues { Continues self.old self.new }
        ensures spelled { IsTrue self.old.honest → KeepsSpelled self.old self.new }
        ensures held { KeepsHeld self.old self.new }
        ensures grows { GrowsToWrite name.now field area.now (content_view content.now) self.old self.new }
        ensures fetched { self.new.fetched ≡ self.old.fetched }
    {
        match content {
            Content::Fill(cell) => self.fill(name, field, area, *cell),
            Content::Values(cells) => self.put(name, field, area, cells),
        }
    }

    /// Writes one cell at each point of a box.
    fn fill(
        &mut self,
        name: &Name,
        field: usize,
        area: &Domain,
        cell: Cell,
    ) -> Result<(), AnswerError>
        requires field { HasField name.now field self.old.store }
        ensures done { OnOk result (WritesCells name.now field area.now (contents.fill cell) self.old self.new) }
        ensures refused { IfErr result (WriteRefused name.now field area.now (contents.fill cell) self.old) }
        ensures told { Tells (IsErrOf result AnswerError.DiskFault) self.old.failures self.new.failures }
        ensures unchanged { OnErr result (IsUnchanged self.old self.new) }
        ensures continues { Continues self.old self.new }
        ensures spelled { IsTrue self.old.honest → KeepsSpelled self.old self.new }
        ensures held { KeepsHeld self.old self.new }
        ensures grows { GrowsToWrite name.now field area.now (contents.fill cell) self.old self.new }
        ensures fetched { self.new.fetched ≡ self.old.fetched }
    {
        let bytes = self.catalogue.bytes_len();
        let _catalogue = self.catalogue.len();
        let _listed = self.cells.len();
        match self.cells.fill_box(name, field, area, cell, bytes) {
            Ok(()) => Ok(()),
            Err(fault) => Err(write_refusal(fault)),
        }
    }

    /// Writes the cells of a box.
    fn put(
        &mut self,
        name: &Name,
        field: usize,
        area: &Domain,
        cells: &[Cell],
    ) -> Result<(), AnswerError>
        requires field { HasField name.now field self.old.store }
        ensures done { OnOk result (WritesCells name.now field area.now (contents.values cells.now) self.old self.new) }
        ensures refused { IfErr result (WriteRefused name.now field area.now (contents.values cells.now) self.old) }
        ensures told { Tells (IsErrOf result AnswerError.DiskFault) self.old.failures self.new.failures }
        ensures unchanged { OnErr result (IsUnchanged self.old self.new) }
        ensures continues { Continues self.old self.new }
        ensures spelled { IsTrue self.old.honest → KeepsSpelled self.old self.new }
        ensures held { KeepsHeld self.old self.new }
        ensures grows { GrowsToWrite name.now field area.now (contents.values cells.now) self.old self.new }
        ensures fetched { self.new.fetched ≡ self.old.fetched }
    {
        let bytes = self.catalogue.bytes_len();
        let _catalogue = self.catalogue.len();
        let _listed = self.cells.len();
        match self.cells.write_box(name, field, area, cells, bytes) {
            Ok(()) => Ok(()),
            Err(fault) => Err(write_refusal(fault)),
        }
    }

    /// Holds the coverages with names for a number, as they are, whatever is written afterwards. Nothing is held for it
    /// yet. Refused for memory alone; nothing is held then.
    pub fn hold(&mut self, number: u64, names: &[Name]) -> Result<(), AllocError>
        requires { MayHold number names.now self.old }
        ensures held { OnOk result (HoldsFor number names.now self.old self.new) }
        ensures refused { OnErr result (self.new ≡ self.old) }
    {
        self.cells.hold(number, names)
    }

    /// Ends what is held for a number. Takes no memory. Where nothing is held for it nothing changes.
    pub fn release(&mut self, number: u64)
        ensures { ReleasesFor number self.old self.new }
    {
        self.cells.release(number)
    }

    /// The first number that something is held for. Takes no memory.
    fn first_held(&self) -> Option<u64>
        ensures { result ≡ option_map (λ (x : SnapshotView). x.job) (slice_get self.now.held 0) }
    {
        self.cells.first_held()
    }

    /// Ends what is held for all numbers, and lets go the tiles and the pages that are kept. Takes no memory.
    pub fn let_go(&mut self)
        ensures { self.new ≡ without_held self.old }
    {
        while let Some(number) = self.first_held() {
            self.release(number);
        }
        self.cells.let_go();
    }

    /// The place of the coverage with a name among those that a number reads: those that are held for it, or, for
    /// number 0 where nothing is, those of the store.
    pub fn place(&self, number: u64, name: &Name) -> Option<usize>
        requires { held_for number self.now.held ≡ None → number ≡ 0 }
        ensures some { IfSome result (IsPlaceOf name.now (store_for number self.now)) }
        ensures none { IfNone result (found name.now (store_for number self.now) ≡ None) }
    {
        self.cells.place_at(number, name)
    }

    /// Makes `numbers` those of a tile of the coverages that a number reads, by its place there.
    pub fn fetch(&mut self, number: u64, at: TileAt, numbers: &mut Vec<i64>) -> Result<(), Fault>
        requires tile { HasTile at (store_for number self.old) }
        ensures value { OnOk result (IsTrue self.old.honest
            → AreTileCells at (store_for number self.old) numbers.new.items) }
        ensures counted { OnOk result (HasTileCount at (store_for number self.old) numbers.new.items) }
        ensures why { Refuses result (IsTrue self.old.honest → IsSpelledFor number at self.old → ⊥) ⊥ }
        ensures still { still_of self.new ≡ still_of self.old }
        ensures fetched { OnOk result (Fetched 1 self.old.fetched self.new.fetched) }
        ensures rises { self.old.fetched ≤ self.new.fetched }
        ensures told { Tells (IsErrOf result Fault.DiskFault) self.old.failures self.new.failures }
    {
        let _fetched = self.cells.fetched();
        self.cells.fetch_at(number, at, numbers)
    }

    /// Makes `runs` the numbers of a tile of the coverages that a number reads, by its place there, as runs or one by
    /// one. It has a value for each of the tile's points, and keeps as many.
    pub fn fetch_runs(&mut self, number: u64, at: TileAt, runs: &mut RunList) -> Result<(), Fault>
        requires tile { HasTile at (store_for number self.old) }
        requires room { HasTileCount at (store_for number self.old) runs.old.values.items }
        ensures value { OnOk result (IsTrue self.old.honest
            → AreTileCells at (store_for number self.old) (cells_of runs.new)) }
        ensures counted { OnOk result (HasTileCount at (store_for number self.old) (cells_of runs.new)) }
        ensures why { Refuses result (IsTrue self.old.honest → IsSpelledFor number at self.old → ⊥) ⊥ }
        ensures still { still_of self.new ≡ still_of self.old }
        ensures fetched { OnOk result (Fetched 1 self.old.fetched self.new.fetched) }
        ensures rises { self.old.fetched ≤ self.new.fetched }
        ensures told { Tells (IsErrOf result Fault.DiskFault) self.old.failures self.new.failures }
        ensures room { length runs.new.values.items ≡ length runs.old.values.items }
    {
        let _fetched = self.cells.fetched();
        self.cells.fetch_runs_at(number, at, runs)
    }

    /// Makes `numbers` those at ranks of a tile's points, one for each rank, of the coverages that a number reads, by
    /// its place there.
    pub fn pick(
        &mut self,
        number: u64,
        at: TileAt,
        ranks: &[u64],
        numbers: &mut Vec<i64>,
    ) -> Result<(), Fault>
        requires tile { HasTile at (store_for number self.old) }
        requires ranks { HasRanks at ranks.now (store_for number self.old) }
        ensures value { OnOk result (ArePickedFor number at ranks.now self.old numbers.new.items) }
        ensures counted { OnOk result (length numbers.new.items ≡ length ranks.now) }
        ensures why { Refuses result (IsTrue self.old.honest → IsSpelledFor number at self.old → ⊥) ⊥ }
        ensures still { still_of self.new ≡ still_of self.old }
        ensures fetched { OnOk result (Fetched 1 self.old.fetched self.new.fetched) }
        ensures rises { self.old.fetched ≤ self.new.fetched }
        ensures told { Tells (IsErrOf result Fault.DiskFault) self.old.failures self.new.failures }
    {
        let _fetched = self.cells.fetched();
        self.cells.pick_at(number, at, ranks, numbers)
    }

    /// The first part of the metadata: the catalogue behind its length.
    pub fn catalogue_part(&self, alloc: Global) -> Result<Vec<u8>, AllocError>
        ensures { IfOk result (λ bytes. bytes.items ≡ part_bytes (catalogue_bytes (signatures_of self.now.store))) }
    {
        let part = catalogue_part(alloc, &self.catalogue)?;
        Ok(part)
    }

    /// The indexes of the fields of the coverage at a place.
    pub fn indexes(&self, place: usize) -> &[FieldIndex]
        requires { place < length self.now.store }
        ensures { slice_get self.now.indexes place ≡ Some result.now }
    {
        self.cells.indexes(place)
    }

    /// Writes the metadata into blocks that are free, and then the header of a closed file. Refused for memory, or
    /// where the disk has counted a failure.
    pub fn write_metadata(&mut self, metadata: &[u8]) -> Result<(), CloseFault>
        requires { metadata.now ≡ metadata_held self.old }
        ensures written { OnOk result (WritesHeld self.old self.new) }
        ensures unchanged { IsUnchanged self.old self.new }
        ensures sound { IsSound self.old → IsSound self.new }
        ensures spelled { IsTrue self.old.honest → KeepsSpelled self.old self.new }
        ensures honest { self.new.honest ≡ self.old.honest }
        ensures told { Tells (IsErrOf result CloseFault.DiskFault) self.old.failures self.new.failures }
        ensures overreads { self.new.overreads ≡ self.old.overreads }
        ensures grows { GrowsToClose self.old self.new.content }
        ensures header { IsErrOf result CloseFault.NoMemory → KeepsHeader self.old.content self.new.content }
    {
        let _catalogue = self.catalogue.len();
        let _whole = self.cells.len();
        let first = self.cells.write_metadata(metadata)?;
        self.write_header(first, metadata.len() as u64)?;
        Ok(())
    }

    /// Writes the header of a closed file. Refused where the disk has counted a failure.
    fn write_header(&mut self, first: u32, length: u64) -> Result<(), DiskFault>
        ensures closes { OnOk result
            (IsTrue self.old.honest → ClosesFile first length self.old.content self.new.content) }
        ensures torn { IsTrue self.old.honest → HeaderTorn self.old.content self.new.content }
        ensures unchanged { IsUnchanged self.old self.new }
        ensures sound { IsSound self.old → IsSound self.new }
        ensures spelled { IsTrue self.old.honest → KeepsSpelled self.old self.new }
        ensures honest { self.new.honest ≡ self.old.honest }
        ensures told { Tells (IsErr result) self.old.failures self.new.failures }
        ensures overreads { self.new.overreads ≡ self.old.overreads }
    {
        let _held = self.cells.len();
        self.cells.write_header(State::Closed, first, length)
    }

    /// Writes the header of an open file of version 2. Refused where the disk has counted a failure.
    pub(crate) fn write_open(&mut self) -> Result<(), DiskFault>
        ensures header { OnOk result (IsTrue self.old.honest → IsOpenFile self.new.content) }
        ensures torn { IsTrue self.old.honest → HeaderTorn self.old.content self.new.content }
        ensures unchanged { IsUnchanged self.old self.new }
        ensures sound { IsSound self.old → IsSound self.new }
        ensures spelled { IsTrue self.old.honest → KeepsSpelled self.old self.new }
        ensures fetched { self.new.fetched ≡ self.old.fetched }
        ensures honest { self.new.honest ≡ self.old.honest }
        ensures told { Tells (IsErr result) self.old.failures self.new.failures }
        ensures overreads { self.new.overreads ≡ self.old.overreads }
    {
        let _held = self.cells.len();
        self.cells.write_header(State::Open, 0, 0)
    }

    /// The disk below. Once a closing has been written it lists the store, and holds it where its tiles are intact.
    pub fn into_disk(self) -> D
        ensures closed { HoldsClosed self (D.content result) }
        ensures content { D.content result ≡ self.content }
        ensures honest { D.honest result ≡ self.honest }
        ensures failures { D.failures result ≡ self.failures }
        ensures overreads { overreads_of (D.honest result) (D.overreads result) ≡ self.overreads }
    {
        let Coverages { catalogue, cells } = self;
        let _catalogue = catalogue.len();
        cells.into_blocks().into_file().into_disk()
    }
}
