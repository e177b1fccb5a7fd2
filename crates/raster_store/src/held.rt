//! A coverage as it is held.

ghost use Rattle.std.specs.Prelude.{◌≡◌, ◌<◌, ◌↔◌, [], length, replicate, position, All};
ghost use Rattle.std.specs.Prelude.{IfOk, IfSome, IfNone, IsTrue, IsErrOf};
ghost use Rattle.arr_core.specs.Tiles.{tile_boxes};
ghost use Rattle.block_file.specs.State.{none};
ghost use Rattle.block_file.specs.Words.{Recounts, Covers};
ghost use Rattle.tile_index.specs.Index.{IsIndex};
ghost use Rattle.tile_store.specs.Faults.{Refuses};
ghost use Rattle.tile_store.specs.Listing.{IsBelow};
ghost use Rattle.raster_store.specs.Views.{AreBelow, listed_fields};
ghost use Rattle.raster_store.specs.Holding.{has_name, IsWhole, AreApart, NoneNamed, IsNamedAt, Renews};
ghost use Rattle.raster_store.specs.Fields.{IsNamed};

use arr_core::{Domain, Name, Signature};
use block_file::Blocks;
use std::alloc::{AllocError, Global};
use tile_index::TileIndex;
use tile_store::{Fault, FieldIndex, give_back};

/// A coverage: its version, which no coverage has that was another, its signature, and the index of each field. No tile
/// is kept decoded of a coverage without a version.
#[derive(Drop)]
pub(crate) struct Held {
    pub(crate) version: Option<u64>,
    pub(crate) signature: Signature,
    pub(crate) fields: Vec<FieldIndex>,
}

/// The version of a coverage that comes or is written, where `next` is the next one, and the one behind it. At the last
/// number there is none any more.
pub(crate) fn renewed(next: u64) -> (Option<u64>, u64)
    ensures { Renews next result.0 result.1 }
{
    match next.checked_add(1) {
        Some(following) => (Some(next), following),
        None => (None, next),
    }
}

/// The place of the first coverage with a name.
fn position_of(held: &[Held], name: &Name) -> Option<usize>
    ensures { result ≡ position (has_name name.now) held.now }
{
    held.iter()
        .position(|coverage| coverage.signature.name == *name)
}

/// The place of the coverage with a name.
#[tactic(auto, using(crate::proofs::Contents::named_places))]
pub(crate) fn place_of(held: &[Held], name: &Name) -> Option<usize>
    requires { AreApart held.now }
    ensures some { IfSome result (λ place. IsNamedAt name.now held.now place) }
    ensures within { IfSome result (λ place. place < length held.now) }
    ensures none { IfNone result (NoneNamed name.now held.now) }
{
    match position_of(held, name) {
        Some(place) => Some(place),
        None => None,
    }
}

/// The place of the coverage with a name that is held.
pub(crate) fn place_held(held: &[Held], name: &Name) -> usize
    requires apart { AreApart held.now }
    requires some { NoneNamed name.now held.now → ⊥ }
    ensures named { IsNamedAt name.now held.now result }
    ensures within { result < length held.now }
{
    match place_of(held, name) {
        Some(place) => place,
        None => unreachable!(),
    }
}

/// The coverage with a name that is held.
pub(crate) fn named<'a>(held: &'a [Held], name: &Name) -> &'a Held
    requires apart { AreApart held.now }
    requires some { NoneNamed name.now held.now → ⊥ }
    ensures { IsNamed name.now held.now result.now }
{
    &held[place_held(held, name)]
}

/// Whether an index lists only tiles below a number.
fn is_below(index: &TileIndex, tiles: u64) -> bool
    ensures { IsTrue result ↔ IsBelow tiles index.now }
{
    index.as_slice().iter().all(|pair| pair.0 < tiles)
}

/// Whether each index lists only tiles of a domain, which has so many.
fn are_below(fields: &[FieldIndex], domain: &Domain, tiles: u64) -> bool
    requires { tiles ≡ length (tile_boxes domain.now) }
    ensures below { IsTrue result ↔ AreBelow domain.now fields.now }
    ensures indexes { IsTrue result → All IsIndex fields.now }
{
    match fields {
        [] => true,
        [first, rest @ ..] => is_below(first.index(), tiles) && are_below(rest, domain, tiles),
    }
}

/// The indexes, each with its size.
fn sized(alloc: Global, indexes: Vec<TileIndex>) -> Result<Vec<FieldIndex>, AllocError>
    ensures { IfOk result (λ fields. fields.items ≡ indexes.items) }
{
    let mut fields = Vec::new(alloc);
    for index in indexes {
        fields.push(FieldIndex::new(index))?;
    }
    Ok(fields)
}

/// The indexes of so many fields that are 0 everywhere.
fn empty_fields(alloc: Global, count: usize) -> Result<Vec<FieldIndex>, AllocError>
    ensures { IfOk result (λ fields. fields.items ≡ replicate count []) }
{
    let mut fields = Vec::new(alloc);
    for _ in 0..count {
        fields.push(FieldIndex::empty(alloc))?;
    }
    Ok(fields)
}

/// Gives back the blocks of all tiles of fields.
#[tactic(auto, unfolding(crate::specs::Views::listed_fields), using(std::proofs::lemmas::List::Sums::sum_by_more))]
pub(crate) fn give_back_fields<B: Blocks>(blocks: &mut B, fields: &[FieldIndex])
    requires { Covers (B.state blocks.old) (listed_fields fields.now) }
    ensures { Recounts (listed_fields fields.now) none (B.state blocks.old) (B.state blocks.new) }
{
    for field in fields {
        give_back(blocks, field);
    }
}

/// The same indexes again.
fn indexes_again(alloc: Global, indexes: &[FieldIndex]) -> Result<Vec<FieldIndex>, AllocError>
    ensures { IfOk result (λ fields. fields.items ≡ indexes.now) }
{
    let mut fields = Vec::with_capacity(alloc, indexes.len())?;
    for index in indexes {
        fields.push(index.copy()?)?;
    }
    Ok(fields)
}

impl Held {
    /// The same coverage again, with its version.
    pub(crate) fn copy(&self, alloc: Global) -> Result<Held, AllocError>
        ensures version { IfOk result (λ h. h.version ≡ self.now.version) }
        ensures signature { IfOk result (λ h. h.signature ≡ self.now.signature) }
        ensures fields { IfOk result (λ h. h.fields.items ≡ self.now.fields.items) }
    {
        let signature = self.signature.copy(alloc)?;
        let fields = indexes_again(alloc, &self.fields)?;
        Ok(Held {
            version: self.version,
            signature,
            fields,
        })
    }

    /// A coverage whose tiles are listed already: `Damaged` where one is past the domain's.
    pub(crate) fn listed(
        alloc: Global,
        version: Option<u64>,
        signature: &Signature,
        indexes: Vec<TileIndex>,
    ) -> Result<Held, Fault>
        requires { length indexes.items ≡ length signature.now.fields }
        ensures version { IfOk result (λ h. h.version ≡ version) }
        ensures signature { IfOk result (λ h. h.signature ≡ signature.now) }
        ensures fields { IfOk result (λ h. h.fields.items ≡ indexes.items) }
        ensures whole { IfOk result (λ h. IsWhole h) }
        ensures why { Refuses result (AreBelow signature.now.domain indexes.items → ⊥) ⊥ }
        ensures no_disk { IsErrOf result Fault.DiskFault → ⊥ }
    {
        let signature = signature.copy(alloc)?;
        let fields = sized(alloc, indexes)?;
        if !are_below(&fields, &signature.domain, signature.domain.tiles()) {
            return Err(Fault::Damaged);
        }
        Ok(Held {
            version,
            signature,
            fields,
        })
    }

    /// A coverage that is 0 or false everywhere.
    pub(crate) fn empty(
        alloc: Global,
        version: Option<u64>,
        signature: &Signature,
    ) -> Result<Held, AllocError>
        ensures version { IfOk result (λ h. h.version ≡ version) }
        ensures signature { IfOk result (λ h. h.signature ≡ signature.now) }
        ensures fields { IfOk result (λ h. h.fields.items ≡ replicate (length signature.now.fields) []) }
        ensures whole { IfOk result (λ h. IsWhole h) }
    {
        let signature = signature.copy(alloc)?;
        let fields = empty_fields(alloc, signature.fields.len())?;
        Ok(Held {
            version,
            signature,
            fields,
        })
    }
}
