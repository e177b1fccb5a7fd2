//! The numbers of a variable at all places.

ghost use Rattle.std.specs.Prelude.{◌≡◌, ℕ, ◌+◌, ◌<◌, ◌≤◌, ◌≤ℤ◌, length, replicate, OnOk};
ghost use Rattle.tile_columns.specs.Frames.{turn, number_of, by_place, HasPlaces, IsTurnAt};

use crate::frame::Variable;
use arr_core::{coordinate, distance, widen};
use std::alloc::AllocError;

impl Variable {
    /// Makes a list the numbers at so many places.
    pub(crate) fn list(&self, places: usize, numbers: &mut Vec<i64>) -> Result<(), AllocError>
        requires { HasPlaces places self.now }
        ensures { OnOk result (numbers.new.items ≡ by_place places (λ k. number_of k self.now)) }
    {
        match self {
            Variable::Const(z) => {
                fill_list(places, *z as i64, numbers)?;
                Ok(())
            }
            Variable::Axis(lo, hi, every) => {
                fill_list(places, 0, numbers)?;
                write_turns(*lo, *hi, *every, numbers);
                Ok(())
            }
            Variable::Column(zs) => {
                fill_list(places, 0, numbers)?;
                widen(numbers.as_mut_slice(), zs);
                Ok(())
            }
        }
    }
}

/// Makes a list one number, so many times.
pub(crate) fn fill_list(len: usize, z: i64, numbers: &mut Vec<i64>) -> Result<(), AllocError>
    ensures { OnOk result (numbers.new.items ≡ replicate len z) }
{
    numbers.clear();
    numbers.resize(len, z)?;
    Ok(())
}

/// Where the coordinates of an axis stand: how far above the first one, and how many times this one has come.
#[derive(Clone, Copy)]
struct Turn {
    step: u64,
    times: u64,
}

/// Where they stand at the next place.
fn turned(now: Turn, last: u64, every: u64) -> Turn
    requires step { now.step ≤ last }
    requires times { now.times < every }
    ensures step { result.step ≤ last }
    ensures times { result.times < every }
    ensures next { (place : ℕ) → IsTurnAt every last place now → IsTurnAt every last (place + 1) result }
{
    let times = now.times + 1;
    if times < every {
        return Turn {
            step: now.step,
            times,
        };
    }
    if now.step < last {
        return Turn {
            step: now.step + 1,
            times: 0,
        };
    }
    Turn { step: 0, times: 0 }
}

/// Writes the coordinates of an axis, each so many times, over and over.
fn write_turns(lo: i32, hi: i32, every: u64, numbers: &mut Vec<i64>)
    requires ordered { lo ≤ℤ hi }
    requires some { 0 < every }
    ensures { numbers.new.items ≡ by_place (length numbers.old.items) (turn lo hi every) }
{
    let last = distance(lo, hi);
    let all = numbers.as_mut_slice();
    let mut now = Turn { step: 0, times: 0 };
    for place in 0..all.len() {
        all[place] = coordinate(lo, hi, now.step) as i64;
        now = turned(now, last, every);
    }
}
