//! What an expression is evaluated under.

ghost use Rattle.std.specs.Prelude.{◌≡◌, []};

use std::alloc::Global;

/// What an expression is evaluated under. The lists grow and shrink as the evaluation goes down and up.
#[derive(Drop)]
pub(crate) struct Scope<'a> {
    /// The coverage that each variable stands for.
    pub coverages: &'a [usize],
    /// The numbers that the iterators are bound to, the outermost first.
    pub iterators: Vec<i32>,
    /// The coordinates of the points that are gone over, the innermost point last.
    pub points: Vec<i32>,
    /// Where the innermost point begins.
    pub base: usize,
}

impl<'a> Scope<'a> {
    /// No iterator, and the empty point.
    pub fn new(alloc: Global, coverages: &'a [usize]) -> Scope<'a>
        ensures coverages { result.coverages.now ≡ coverages.now }
        ensures iterators { result.iterators.items ≡ [] }
        ensures points { result.points.items ≡ [] }
        ensures base { result.base ≡ 0 }
    {
        Scope {
            coverages,
            iterators: Vec::new(alloc),
            points: Vec::new(alloc),
            base: 0,
        }
    }
}
