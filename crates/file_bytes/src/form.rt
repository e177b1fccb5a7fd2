//! The two forms of a tile, and the versions of the file.

/// How the bytes of a tile spell its cells.
#[derive(Clone, Copy, PartialEq, Eq)]
pub enum Form {
    /// Runs of equal cells, each a count and a value.
    Runs,
    /// The cells one after the other, which takes fewer bytes.
    Raw,
}

/// A version of the file's format.
#[derive(Clone, Copy, PartialEq, Eq)]
pub enum Version {
    /// Tiles are runs, and domains have at most four axes.
    One,
    /// Tiles have two forms, and domains have at most six axes.
    Two,
}
