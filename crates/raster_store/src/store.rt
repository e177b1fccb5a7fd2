//! Coverages by their names: functions on boxes.

ghost use Rattle.std.specs.Prelude.{◌≡◌, ◌<◌, [], length, None, Some, IsErrOf, IfOk, IfSome};
ghost use Rattle.std.specs.Prelude.{IfNone, OnOk, OnErr, option_copied, slice_get};
ghost use Rattle.arr_core.specs.Stores.{found};
ghost use Rattle.tile_store.specs.Faults.{Refuses};
ghost use Rattle.raster_store.specs.Views.{AreBelow};
ghost use Rattle.raster_store.specs.Calls.{signature_in, AreWhole, AreListed, HasField, MayAttach, IsIndexOf};
ghost use Rattle.raster_store.specs.Fetches.{IsPlaceOf};
ghost use Rattle.raster_store.specs.Words.{Attaches, Creates, LacksRoomToCreate, Removes};

mod cells;
mod closing;
mod jobs;
mod runs;

use crate::decoded::DecodedTiles;
use crate::held::{Held, give_back_fields, named, place_of, renewed};
use crate::sizes::{created_size, has_room};
use crate::snapshot::Snapshot;
use arr_core::{Name, Signature};
use block_file::Blocks;
use std::alloc::{AllocError, Global};
use std::marker::Model;
use tile_index::TileIndex;
use tile_store::{Fault, FieldIndex};

/// The coverages in the order of their insertion, over blocks; the version that the next one to come or to be written
/// gets; the tiles that are kept decoded, by the versions of their coverages; the buffer that the bytes of a tile are
/// read into; and what is held for jobs.
#[derive(Drop)]
pub struct RasterStore<B: Blocks> {
    alloc: Global,
    blocks: B,
    coverages: Vec<Held>,
    next: u64,
    fetched: u64,
    decoded: DecodedTiles,
    bytes: Vec<u8>,
    snapshots: Vec<Snapshot>,
}

impl<B: Blocks> Model for RasterStore<B> {
    ghost use Rattle.raster_store.specs.Views.{RasterView};

    ghost Value = { RasterView B };

    ghost use Rattle.raster_store.specs.Holding.{coverages_of, indexes_of, snapshots_of, IsStore};

    ghost view = { λ s. record {
      coverages = coverages_of (B.state s.blocks).content s.coverages.items;
      indexes = indexes_of s.coverages.items;
      snapshots = snapshots_of (B.state s.blocks).content s.snapshots.items;
      fetched = s.fetched;
      blocks = s.blocks;
    } };

    ghost invariant = { λ s. IsStore (B.state s.blocks) s.coverages.items s.snapshots.items s.next s.decoded };
}

impl<B: Blocks> RasterStore<B> {
    /// A store without coverages over blocks.
    pub fn new(alloc: Global, blocks: B) -> RasterStore<B>
        ensures coverages { result.coverages ≡ [] }
        ensures indexes { result.indexes ≡ [] }
        ensures snapshots { result.snapshots ≡ [] }
        ensures fetched { result.fetched ≡ 0 }
        ensures blocks { result.blocks ≡ blocks }
    {
        let decoded = DecodedTiles::new(alloc);
        RasterStore {
            alloc,
            blocks,
            coverages: Vec::new(alloc),
            next: 0,
            fetched: 0,
            decoded,
            bytes: Vec::new(alloc),
            snapshots: Vec::new(alloc),
        }
    }

    /// Adds a coverage whose tiles lie in blocks already, as the indexes of its fields list them. Its name is new, and
    /// the blocks are whole, and in use as often as all indexes list them. Refused for memory, and as damaged where an
    /// index lists a tile that the domain does not have.
    pub fn attach(&mut self, signature: &Signature, indexes: Vec<TileIndex>) -> Result<(), Fault>
        requires name { found signature.now.name self.old.coverages ≡ None }
        requires fields { length indexes.items ≡ length signature.now.fields }
        requires blocks { MayAttach (B.state self.old.blocks) self.old.indexes indexes.items }
        requires unheld { self.old.snapshots ≡ [] }
        ensures attached { OnOk result (Attaches B.state signature.now indexes.items self.old self.new) }
        ensures same { OnErr result (self.new ≡ self.old) }
        ensures why { Refuses result (AreBelow signature.now.domain indexes.items → ⊥) ⊥ }
        ensures no_disk { IsErrOf result Fault.DiskFault → ⊥ }
        ensures snapshots { self.new.snapshots ≡ self.old.snapshots }
        ensures blocks { self.new.blocks ≡ self.old.blocks }
    {
        let renewed = renewed(self.next);
        let held = Held::listed(self.alloc, renewed.0, signature, indexes)?;
        self.coverages.push(held)?;
        self.next = renewed.1;
        Ok(())
    }

    /// Adds a coverage that is 0 or false everywhere, whose name is new. The catalogue has `catalogue` bytes with it.
    /// Refused for memory, and for room where fewer blocks are free than the metadata takes.
    pub fn create(&mut self, signature: &Signature, catalogue: u64) -> Result<(), Fault>
        requires name { found signature.now.name self.old.coverages ≡ None }
        ensures created { OnOk result (Creates B.state signature.now catalogue self.old self.new) }
        ensures same { OnErr result (self.new ≡ self.old) }
        ensures why { Refuses result ⊥ (LacksRoomToCreate B.state signature.now catalogue self.old) }
        ensures no_disk { IsErrOf result Fault.DiskFault → ⊥ }
        ensures fetched { self.new.fetched ≡ self.old.fetched }
        ensures snapshots { self.new.snapshots ≡ self.old.snapshots }
        ensures blocks { self.new.blocks ≡ self.old.blocks }
    {
        let renewed = renewed(self.next);
        let held = Held::empty(self.alloc, renewed.0, signature)?;
        let size = created_size(&self.coverages, &held, catalogue);
        if !has_room(size, self.blocks.free()) {
            return Err(Fault::NoRoom);
        }
        self.coverages.push(held)?;
        self.next = renewed.1;
        Ok(())
    }

    /// The place of the coverage with a name, in the order of their insertion, which holds until one is removed. Takes
    /// no memory.
    #[tactic(auto, using(crate::proofs::Contents::found_none))]
    pub fn place(&self, name: &Name) -> Option<usize>
        ensures some { IfSome result (IsPlaceOf name.now self.now.coverages) }
        ensures none { IfNone result (found name.now self.now.coverages ≡ None) }
    {
        match place_of(&self.coverages, name) {
            Some(place) => Some(place),
            None => None,
        }
    }

    /// Takes the coverage with a name out, and gives its blocks back. Takes no memory. A name that is not held changes
    /// nothing.
    pub fn remove(&mut self, name: &Name)
        ensures { Removes B.state name.now self.old self.new }
    {
        match place_of(&self.coverages, name) {
            Some(place) => {
                let held = self.coverages.remove(place);
                give_back_fields(&mut self.blocks, &held.fields);
            }
            None => {}
        }
    }

    /// Lets go the tiles that are kept decoded, the marks of those that were tested, the buffer of bytes and what the
    /// blocks keep; from now on no tile is kept. Callers see no difference. Takes no memory.
    pub fn let_go(&mut self)
        ensures { self.new ≡ self.old }
    {
        self.decoded.let_go(self.alloc);
        self.bytes = Vec::new(self.alloc);
        self.blocks.let_go();
    }

    /// The blocks below.
    #[tactic(auto, using(crate::proofs::Writes::listed_held))]
    pub fn into_blocks(self) -> B
        ensures blocks { result ≡ self.blocks }
        ensures listed { AreListed (B.state result) self.coverages self.indexes }
    {
        let RasterStore {
            alloc: _,
            blocks,
            coverages: _,
            next: _,
            fetched: _,
            decoded: _,
            bytes: _,
            snapshots: _,
        } = self;
        blocks
    }

    /// The name, domain and fields of the coverage with a name. Takes no memory.
    #[tactic(auto, using(crate::proofs::Contents::found_none))]
    pub fn signature(&self, name: &Name) -> Option<&Signature>
        ensures { option_copied result ≡ signature_in name.now self.now.coverages }
    {
        match place_of(&self.coverages, name) {
            Some(place) => Some(&self.coverages[place].signature),
            None => None,
        }
    }

    /// How many tiles read calls have handed out. The count stays at the last value of a `u64`.
    pub fn fetched(&self) -> u64
        ensures { result ≡ self.now.fetched }
    {
        self.fetched
    }

    /// How many coverages there are. Each has an index for each of its fields, which lists tiles of its domain.
    #[tactic(auto, using(crate::proofs::Writes::listed_held))]
    pub fn len(&self) -> usize
        ensures len { result ≡ length self.now.coverages }
        ensures whole { AreWhole self.now.coverages self.now.indexes }
        ensures held { AreListed (B.state self.now.blocks) self.now.coverages self.now.indexes }
    {
        self.coverages.len()
    }

    /// The indexes of the fields of the coverage at a place. Takes no memory.
    pub fn indexes(&self, place: usize) -> &[FieldIndex]
        requires { place < length self.now.coverages }
        ensures { slice_get self.now.indexes place ≡ Some result.now }
    {
        &self.coverages[place].fields
    }

    /// The bytes of the index of a field, by its place, of the coverage with a name.
    #[tactic(auto, using(crate::proofs::Readings::has_name_of))]
    pub fn index_bytes(
        &self,
        alloc: Global,
        name: &Name,
        field: usize,
    ) -> Result<Vec<u8>, AllocError>
        requires field { HasField name.now field self.now.coverages }
        ensures bytes { IfOk result (λ list. IsIndexOf name.now field self.now.coverages self.now.indexes list.items) }
    {
        let coverage = named(&self.coverages, name);
        let index = &coverage.fields[field];
        index.index().to_bytes(alloc)
    }
}
