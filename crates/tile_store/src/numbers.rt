//! The stored numbers that are written into a box.

ghost use Rattle.std.specs.Prelude.{◌≡◌, ◌+◌};
ghost use Rattle.tile_store.specs.Numbers.{HasNumbers, number_of};

use arr_core::{Domain, FieldType};

/// One number for each point of a box, or one for each in row-major order.
#[derive(Drop)]
pub enum Numbers {
    Same(i64),
    Each(Vec<i64>),
}

impl Numbers {
    /// The number at a place.
    pub(crate) fn at(&self, place: usize) -> i64
        requires { HasNumbers self.now (place + 1) }
        ensures { result ≡ number_of self.now place }
    {
        match self {
            Numbers::Same(number) => *number,
            Numbers::Each(list) => list[place],
        }
    }
}

/// What is written where: numbers, into a box of a field with this type and domain.
#[derive(Clone, Copy)]
pub struct Patch<'a, 'b> {
    pub kind: FieldType,
    pub domain: &'a Domain,
    pub area: &'b Domain,
    pub numbers: &'b Numbers,
}
