//! Coverages that are held for a job.

ghost use Rattle.std.specs.Prelude.{◌≡◌, ◌+◌, ◌<◌, ℕ, length, position, nat_eq, All, IfOk, IfSome, IfNone, OnOk};
ghost use Rattle.block_file.specs.State.{times, none};
ghost use Rattle.block_file.specs.Words.{Recounts, Covers};
ghost use Rattle.raster_store.specs.declared.snapshot.Snapshot.{Snapshot};
ghost use Rattle.raster_store.specs.Views.{listed_fields, listed_all};
ghost use Rattle.raster_store.specs.Holding.{indexes_of, coverages_for, AreApart, NoneNamed, NoneHeld, IsHeldAt};
ghost use Rattle.raster_store.specs.Copying.{AreCopiesOf, AddsCopy};

use crate::held::{Held, give_back_fields, named, place_of};
use arr_core::Name;
use block_file::Blocks;
use std::alloc::{AllocError, Global};
use tile_store::FieldIndex;

/// The coverages that are held for a job, as they were when it began to hold them.
#[derive(Drop)]
pub(crate) struct Snapshot {
    pub(crate) job: u64,
    pub(crate) coverages: Vec<Held>,
}

/// The first place of a job.
fn position_of(snapshots: &[Snapshot], job: u64) -> Option<usize>
    ensures { result ≡ position (λ (x : Snapshot). nat_eq x.job job) snapshots.now }
{
    snapshots.iter().position(|snapshot| snapshot.job == job)
}

/// The place of what is held for a job.
#[tactic(auto, using(crate::proofs::Snapshots::held_places))]
pub(crate) fn place_for(snapshots: &[Snapshot], job: u64) -> Option<usize>
    ensures some { IfSome result (IsHeldAt job snapshots.now) }
    ensures within { IfSome result (λ place. place < length snapshots.now) }
    ensures none { IfNone result (NoneHeld job snapshots.now) }
{
    match position_of(snapshots, job) {
        Some(place) => Some(place),
        None => None,
    }
}

/// The coverages that a number reads: those that are held for it, or, where nothing is, those of the store.
pub(crate) fn coverages_for<'a>(own: &'a [Held], snapshots: &'a [Snapshot], job: u64) -> &'a [Held]
    ensures { result.now ≡ coverages_for job own.now snapshots.now }
{
    match place_for(snapshots, job) {
        Some(place) => &snapshots[place].coverages,
        None => own,
    }
}

/// Puts the coverage with a name, as it is, behind others, unless it is among them.
fn add_copy(
    alloc: Global,
    held: &[Held],
    name: &Name,
    copies: &mut Vec<Held>,
) -> Result<(), AllocError>
    requires apart { AreApart held.now }
    requires name { NoneNamed name.now held.now → ⊥ }
    requires copies { AreApart copies.old.items }
    ensures { OnOk result (AddsCopy held.now name.now copies.old.items copies.new.items) }
{
    match place_of(copies.as_slice(), name) {
        Some(_) => Ok(()),
        None => {
            let copy = named(held, name).copy(alloc)?;
            copies.push(copy)?;
            Ok(())
        }
    }
}

/// The coverages with names, each as it is, and once.
pub(crate) fn copies_of(
    alloc: Global,
    held: &[Held],
    names: &[Name],
) -> Result<Vec<Held>, AllocError>
    requires apart { AreApart held.now }
    requires names { All (λ n. NoneNamed n held.now → ⊥) names.now }
    ensures { IfOk result (λ copies. AreCopiesOf held.now names.now copies.items) }
{
    let mut copies = Vec::new(alloc);
    for name in names {
        add_copy(alloc, held, name, &mut copies)?;
    }
    Ok(copies)
}

/// Puts the blocks of all tiles of fields behind others.
fn push_blocks(fields: &[FieldIndex], blocks: &mut Vec<u32>) -> Result<(), AllocError>
    ensures { OnOk result ((k : ℕ) → times blocks.new.items k ≡ times blocks.old.items k + listed_fields fields.now k) }
{
    for field in fields {
        field.index().push_blocks(blocks)?;
    }
    Ok(())
}

/// The blocks of all tiles of coverages.
pub(crate) fn blocks_of(alloc: Global, held: &[Held]) -> Result<Vec<u32>, AllocError>
    ensures { IfOk result (λ blocks. (k : ℕ) → times blocks.items k ≡ listed_all (indexes_of held.now) k) }
{
    let mut blocks = Vec::new(alloc);
    for coverage in held {
        push_blocks(&coverage.fields, &mut blocks)?;
    }
    Ok(blocks)
}

/// Gives back the blocks of all tiles of coverages.
pub(crate) fn release_all<B: Blocks>(blocks: &mut B, held: &[Held])
    requires { Covers (B.state blocks.old) (listed_all (indexes_of held.now)) }
    ensures { Recounts (listed_all (indexes_of held.now)) none (B.state blocks.old) (B.state blocks.new) }
{
    for coverage in held {
        give_back_fields(blocks, &coverage.fields);
    }
}
