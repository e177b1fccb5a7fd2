//! Cell operations on values of 32 bits.

ghost use Rattle.tile_kernel.specs.Narrow.{IsNarrowOf};

use crate::trial::Trial;

/// An operation that is also done in 32 bits, where its value fits them.
pub(crate) trait NarrowTrial: Trial {
    /// The operation's value, if it fits 32 bits.
    fn narrow(x: i32, y: i32) -> i32
        ensures { IsNarrowOf (Self.exact x y) result };
}
