//! Cells written into boxes of coverages, by their names.

ghost use Rattle.std.specs.Prelude.{◌≡◌, IsErrOf, IfErr, OnOk, OnErr, map};
ghost use Rattle.arr_core.specs.Cells.{stored};
ghost use Rattle.tile_store.specs.Numbers.{numbers_in};
ghost use Rattle.raster_store.specs.Calls.{HasField};
ghost use Rattle.raster_store.specs.Fields.{HasPatch, Puts, RefusesPut, PutsCells, RefusesPutCells, GrowsToPut};
ghost use Rattle.raster_store.specs.Words.{TellsFault, Stays, Keeps};
ghost use Rattle.raster_store.specs.Snapshots.{KeepsSnapshots};
ghost use Rattle.raster_store.specs.Words.{WritesBox, FillsBox, RefusesBox, RefusesFill, GrowsToWrite, GrowsToFill};

use super::RasterStore;
use crate::fault::WriteFault;
use crate::held::{named, place_held, renewed};
use crate::sizes::rest_size;
use crate::writing::{Cells, kind_of, numbers_for};
use arr_core::{Cell, Domain, Name};
use block_file::Blocks;
use tile_store::{Fault, Numbers, Patch, write_area};

impl<B: Blocks> RasterStore<B> {
    /// Writes numbers into a box of a field, by its place, of the coverage with a name.
    #[tactic(auto, using(crate::proofs::Readings::has_name_of, crate::proofs::Readings::patch_field))]
    fn write_numbers<'a>(
        &mut self,
        name: &Name,
        field: usize,
        area: &'a Domain,
        numbers: &'a Numbers,
        catalogue: u64,
    ) -> Result<(), Fault>
        requires patch { HasPatch name.now field area.now numbers.now self.old.coverages }
        ensures done { OnOk result (Puts B.state name.now field area.now numbers.now catalogue self.old self.new) }
        ensures same { OnErr result (Stays B.state self.old self.new) }
        ensures why { RefusesPut result B.state name.now field area.now numbers.now catalogue self.old }
        ensures intact { Keeps B.state self.old self.new }
        ensures snapshots { KeepsSnapshots B.state self.old self.new }
        ensures grows { GrowsToWrite B.state name.now field area.now (numbers_in area.now numbers.now) self.old self.new }
        ensures fetched { self.new.fetched ≡ self.old.fetched }
        ensures told { TellsFault (IsErrOf result Fault.DiskFault) B.state self.old self.new }
    {
        let place = place_held(&self.coverages, name);
        let rest = rest_size(&self.coverages, place, field, catalogue);
        let renewed = renewed(self.next);
        let coverage = &mut self.coverages[place];
        coverage.version = renewed.0;
        self.next = renewed.1;
        let patch = Patch {
            kind: kind_of(&coverage.signature, field),
            domain: &coverage.signature.domain,
            area,
            numbers,
        };
        let index = &mut coverage.fields[field];
        let written = write_area(self.alloc, &mut self.blocks, index, &patch, rest);
        let _listed = index.index();
        let _free = self.blocks.free();
        written
    }

    /// Writes cells into a box of a field, by its place, of the coverage with a name.
    #[tactic(auto, using(crate::proofs::Readings::has_name_of))]
    fn write_cells(
        &mut self,
        name: &Name,
        field: usize,
        area: &Domain,
        cells: Cells<'_>,
        catalogue: u64,
    ) -> Result<(), WriteFault>
        requires field { HasField name.now field self.old.coverages }
        ensures done { OnOk result (PutsCells B.state name.now field area.now cells.entry catalogue self.old self.new) }
        ensures same { OnErr result (Stays B.state self.old self.new) }
        ensures why { IfErr result (RefusesPutCells B.state name.now field area.now cells.entry catalogue self.old) }
        ensures intact { Keeps B.state self.old self.new }
        ensures snapshots { KeepsSnapshots B.state self.old self.new }
        ensures grows { GrowsToPut B.state name.now field area.now cells.entry self.old self.new }
        ensures fetched { self.new.fetched ≡ self.old.fetched }
        ensures told { TellsFault (IsErrOf result (WriteFault.Device Fault.DiskFault)) B.state self.old self.new }
    {
        let coverage = named(&self.coverages, name);
        let numbers = numbers_for(self.alloc, &coverage.signature, field, area, cells)?;
        self.write_numbers(name, field, area, &numbers, catalogue)?;
        Ok(())
    }

    /// Writes cells into a box of a field, by its place, of the coverage with a name, in row-major order of the box's
    /// points. The catalogue has `catalogue` bytes. A refusal changes nothing.
    pub fn write_box(
        &mut self,
        name: &Name,
        field: usize,
        area: &Domain,
        cells: &[Cell],
        catalogue: u64,
    ) -> Result<(), WriteFault>
        requires field { HasField name.now field self.old.coverages }
        ensures done { OnOk result (WritesBox B.state name.now field area.now cells.now catalogue self.old self.new) }
        ensures same { OnErr result (Stays B.state self.old self.new) }
        ensures why { IfErr result (RefusesBox B.state name.now field area.now cells.now catalogue self.old) }
        ensures intact { Keeps B.state self.old self.new }
        ensures snapshots { KeepsSnapshots B.state self.old self.new }
        ensures grows { GrowsToWrite B.state name.now field area.now (map stored cells.now) self.old self.new }
        ensures fetched { self.new.fetched ≡ self.old.fetched }
        ensures told { TellsFault (IsErrOf result (WriteFault.Device Fault.DiskFault)) B.state self.old self.new }
    {
        self.write_cells(name, field, area, Cells::Each(cells), catalogue)
    }

    /// Writes one cell at every point of a box of a field. Otherwise as `write_box`.
    #[tactic(auto, using(crate::proofs::Cells::stored_same))]
    pub fn fill_box(
        &mut self,
        name: &Name,
        field: usize,
        area: &Domain,
        cell: Cell,
        catalogue: u64,
    ) -> Result<(), WriteFault>
        requires field { HasField name.now field self.old.coverages }
        ensures done { OnOk result (FillsBox B.state name.now field area.now cell catalogue self.old self.new) }
        ensures same { OnErr result (Stays B.state self.old self.new) }
        ensures why { IfErr result (RefusesFill B.state name.now field area.now cell catalogue self.old) }
        ensures intact { Keeps B.state self.old self.new }
        ensures snapshots { KeepsSnapshots B.state self.old self.new }
        ensures grows { GrowsToFill B.state name.now field area.now cell self.old self.new }
        ensures fetched { self.new.fetched ≡ self.old.fetched }
        ensures told { TellsFault (IsErrOf result (WriteFault.Device Fault.DiskFault)) B.state self.old self.new }
    {
        self.write_cells(name, field, area, Cells::Same(cell), catalogue)
    }
}
