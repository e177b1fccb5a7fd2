//! What is read: the field of a coverage, and a tile by its place in a store.

ghost use Rattle.std.specs.Prelude.{◌<◌, length};
ghost use Rattle.raster_store.specs.Holding.{IsWhole};
ghost use Rattle.raster_store.specs.Fields.{IsFieldOf};

use crate::held::Held;
use tile_store::FieldTiles;

/// Which tile: of which coverage of a store, by its place, of which of its fields, by its place, and which one of its
/// domain's tiles, by its number.
#[derive(Clone, Copy, PartialEq, Eq, Hash)]
pub struct TileAt {
    pub coverage: usize,
    pub field: usize,
    pub tile: u64,
}

/// Which tile: of a coverage as it was while it had a version, of which of its fields, by its place, and which one of
/// its domain's tiles, by its number.
#[derive(Clone, Copy, PartialEq, Eq, Hash)]
pub(crate) struct TileKey {
    pub(crate) version: u64,
    pub(crate) field: usize,
    pub(crate) tile: u64,
}

impl Held {
    /// A field, by its place, as it is read.
    #[tactic(auto, using(std::proofs::lemmas::List::get_or_read, std::proofs::lemmas::Option::slice_get_read))]
    pub(crate) fn tiles(&self, field: usize) -> FieldTiles<'_>
        requires whole { IsWhole self.now }
        requires field { field < length self.now.signature.fields }
        ensures { IsFieldOf self.now field result }
    {
        let _axes = self.signature.domain.axes();
        let fields = self.signature.fields.as_slice();
        FieldTiles {
            kind: fields[field].kind,
            domain: &self.signature.domain,
            index: &self.fields[field],
        }
    }
}
