//! Lists of names, linked from the innermost one outwards.

ghost use Rattle.std.specs.Prelude.{◌≡◌, ◌+◌, ◌<◌, ◌^◌, length, option_map};
ghost use Rattle.wcps_types.specs.Names.{name_place};
ghost use Rattle.wcps_types.specs.Frames.{names_in};

use crate::names::name_place;
use wcps_text::QueryName;

/// The variables of the iterators in scope, as one list for each box: the innermost list, and those around it.
#[derive(Drop)]
pub enum Frames<'a> {
    Outermost,
    Within {
        outer: &'a Frames<'a>,
        names: &'a [QueryName],
    },
}

/// The place of a name behind so many others.
fn place_behind(before: usize, names: &[QueryName], name: &QueryName) -> Option<usize>
    requires { before + length names.now < 2 ^ 64 }
    ensures { result ≡ option_map (λ k. before + k) (name_place name.now names.now) }
{
    match name_place(names, name) {
        None => None,
        Some(place) => Some(before + place),
    }
}

/// The place of a name among all of them, outermost first. `count` tells how many there are.
pub fn place_in(frames: &Frames, count: usize, name: &QueryName) -> Option<usize>
    requires { count ≡ length (names_in frames.now) }
    ensures { result ≡ name_place name.now (names_in frames.now) }
{
    match frames {
        Frames::Outermost => None,
        Frames::Within { outer, names } => {
            let before = count - names.len();
            match place_in(outer, before, name) {
                Some(place) => Some(place),
                None => place_behind(before, names, name),
            }
        }
    }
}
