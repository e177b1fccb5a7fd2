//! The iterators in scope.

ghost use Rattle.std.specs.Prelude.{◌≡◌, [], ◌++◌, IfOk, length};
ghost use Rattle.wcps_types.specs.Names.{name_place};
ghost use Rattle.wcps_types.specs.Frames.{names_in};

use crate::frames::{Frames, place_in};
use std::alloc::AllocError;
use wcps_text::QueryName;

/// The variables of the iterators in scope, outermost first, and how many there are.
#[derive(Drop)]
pub struct Scope<'a> {
    frames: Frames<'a>,
    count: usize,
    ghost counted: { count ≡ length (names_in frames) },
}

impl<'a> Scope<'a> {
    /// Without iterators.
    pub fn outermost() -> Scope<'a>
        ensures { names_in result.frames ≡ [] }
    {
        Scope {
            frames: Frames::Outermost,
            count: 0,
        }
    }

    /// The scope of further iterators in another one. An `AllocError` where their number is beyond a `usize`.
    pub fn within(outer: &'a Scope<'a>, names: &'a [QueryName]) -> Result<Scope<'a>, AllocError>
        ensures { IfOk result (λ s. names_in s.frames ≡ names_in outer.now.frames ++ names.now) }
    {
        match outer.count.checked_add(names.len()) {
            None => Err(AllocError),
            Some(count) => Ok(Scope {
                frames: Frames::Within {
                    outer: &outer.frames,
                    names,
                },
                count,
            }),
        }
    }

    /// The place of a variable, if it is in scope.
    pub fn place(&self, name: &QueryName) -> Option<usize>
        ensures { result ≡ name_place name.now (names_in self.now.frames) }
    {
        place_in(&self.frames, self.count, name)
    }
}
