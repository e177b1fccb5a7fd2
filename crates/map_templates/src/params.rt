//! What a template is expanded for.

use arr_core::Name;

/// A field of a coverage, or the only field of one.
#[derive(Drop)]
pub struct Layer {
    pub coverage: Name,
    pub field: Option<Name>,
}

/// The parameters of a template. Each template uses some of them, and the others are not looked at.
#[derive(Drop)]
pub struct Params {
    /// The layer whose values are taken.
    pub layer: Layer,
    /// The other layer of a local operation, and the zones of a zonal one.
    pub second: Option<Layer>,
    /// How many locations away a focal operation looks along each axis, 1 to 8.
    pub radius: Option<i64>,
}
