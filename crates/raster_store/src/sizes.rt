//! How many bytes the metadata takes. A sum past 64 bits stays at the last value of a `u64`: no file has room for it.

ghost use Rattle.std.specs.Prelude.{◌≡◌, ◌↔◌, ◌-◌, ◌<◌, ◌≤◌, ◌^◌, min, [], ◌∷◌, ◌++◌, length};
ghost use Rattle.std.specs.Prelude.{slice_index_or, sum_by, IsTrue};
ghost use Rattle.block_file.specs.Format.{chain_blocks};
ghost use Rattle.raster_store.specs.declared.held.Held.{Held};
ghost use Rattle.raster_store.specs.Views.{fields_size, metadata_size};
ghost use Rattle.raster_store.specs.Holding.{indexes_of};
ghost use Rattle.raster_store.specs.Fields.{IsRestSize};

use crate::held::Held;
use block_file::CHAIN_BYTES;
use tile_store::FieldIndex;

/// How many bytes the indexes of fields take, each behind its length.
#[tactic(auto, unfolding(crate::specs::Views::fields_size), using(std::proofs::lemmas::List::Sums::sum_by_more))]
pub(crate) fn fields_size(fields: &[FieldIndex]) -> u64
    ensures { result ≡ min (2 ^ 64 - 1) (fields_size fields.now) }
{
    let mut size = 0u64;
    for field in fields {
        size = size.saturating_add(8).saturating_add(field.size());
    }
    size
}

/// How many bytes the indexes of coverages take.
#[tactic(auto, using(std::proofs::lemmas::List::Sums::sum_by_more, crate::proofs::Totals::sums))]
pub(crate) fn held_size(held: &[Held]) -> u64
    ensures { result ≡ min (2 ^ 64 - 1) (sum_by fields_size (indexes_of held.now)) }
{
    let mut size = 0u64;
    for coverage in held {
        size = size.saturating_add(fields_size(&coverage.fields));
    }
    size
}

/// How many bytes the metadata takes without the index of a field of the coverage at a place, where the catalogue has
/// `catalogue` bytes.
pub(crate) fn rest_size(held: &[Held], place: usize, field: usize, catalogue: u64) -> u64
    requires place { place < length held.now }
    requires field { (d : Held) → field < length (slice_index_or held.now place d).fields.items }
    ensures { IsRestSize held.now place field catalogue result }
{
    let fields: &[FieldIndex] = &held[place].fields;
    let beside = fields_size(&fields[..field]).saturating_add(fields_size(&fields[field + 1..]));
    let others = held_size(&held[..place]).saturating_add(held_size(&held[place + 1..]));
    others
        .saturating_add(beside)
        .saturating_add(16)
        .saturating_add(catalogue)
}

/// How many bytes the metadata takes with one more coverage, where the catalogue has `catalogue` bytes.
#[tactic(auto, unfolding(crate::specs::Views::metadata_size), using(std::proofs::lemmas::List::Sums::sum_by_push))]
pub(crate) fn created_size(held: &[Held], new: &Held, catalogue: u64) -> u64
    ensures { result ≡ min (2 ^ 64 - 1) (metadata_size catalogue (indexes_of held.now ++ new.now.fields.items ∷ [])) }
{
    let sizes = held_size(held).saturating_add(fields_size(&new.fields));
    sizes.saturating_add(8).saturating_add(catalogue)
}

/// Whether so many free blocks hold metadata of these bytes.
pub(crate) fn has_room(size: u64, free: u32) -> bool
    ensures { IsTrue result ↔ (chain_blocks size ≤ free) }
{
    size <= CHAIN_BYTES as u64 * free as u64
}
