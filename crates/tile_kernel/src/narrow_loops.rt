//! The loop of a kernel in 32 bits.

ghost use Rattle.std.specs.Prelude.{◌≡◌, ◌-◌, ◌≤◌, ◌^◌, length, IfSome, IsTrue};
ghost use Rattle.tile_kernel.specs.Columns.{exact_at, AreValues};
ghost use Rattle.tile_kernel.specs.Narrow.{AreNarrow, AreNarrowOf, IsBound, IsWritten};
ghost use Rattle.tile_kernel.specs.Tried.{IsTried};

use crate::narrow_operand::NarrowOperand;
use crate::narrow_trial::NarrowTrial;

/// Makes a list at least so long, if there is memory for it; tells whether it did.
fn make_room(list: &mut Vec<i32>, len: usize) -> bool
    ensures kept { length list.old.items ≤ length list.new.items }
    ensures room { IsTrue result → len ≤ length list.new.items }
{
    list.len() >= len || list.resize(len, 0).is_ok()
}

/// Writes the values of an operation at the first `len` places, all of which fit 32 bits.
fn write_places<O: NarrowTrial, L: NarrowOperand, R: NarrowOperand>(
    len: usize,
    left: &L,
    right: &R,
    out: &mut [i32],
)
    requires left { len ≤ L.places left.now }
    requires right { len ≤ R.places right.now }
    requires out { len ≤ length out.old }
    requires narrow { AreNarrow len O.exact (L.value left.now) (R.value right.now) }
    ensures length { length out.new ≡ length out.old }
    ensures values { AreValues len (exact_at O.exact (L.value left.now) (R.value right.now)) out.new }
{
    for place in 0..len {
        out[place] = O::narrow(left.value(place), right.value(place));
    }
}

/// Writes the values of an operation at the first `len` places, all of which fit 32 bits, if there is memory for them;
/// tells whether it did.
pub(crate) fn write_narrow<O: NarrowTrial, L: NarrowOperand, R: NarrowOperand>(
    len: usize,
    left: &L,
    right: &R,
    out: &mut Vec<i32>,
) -> bool
    requires left { len ≤ L.places left.now }
    requires right { len ≤ R.places right.now }
    requires narrow { AreNarrow len O.exact (L.value left.now) (R.value right.now) }
    ensures { IsWritten result len (exact_at O.exact (L.value left.now) (R.value right.now)) out.old.items out.new.items }
{
    if !make_room(out, len) {
        return false;
    }
    write_places::<O, L, R>(len, left, right, out.as_mut_slice());
    true
}

/// Numbers that no magnitude of the operands' values is above.
#[derive(Clone, Copy)]
pub(crate) struct Bounds {
    pub left: u64,
    pub right: u64,
}

/// Writes at the first `len` places the values of an operation that fit 32 bits, anything where one does not, and gives
/// bounds of the operands.
fn write_bounded<O: NarrowTrial, L: NarrowOperand, R: NarrowOperand>(
    len: usize,
    left: &L,
    right: &R,
    out: &mut [i32],
) -> Bounds
    requires left { len ≤ L.places left.now }
    requires right { len ≤ R.places right.now }
    requires out { len ≤ length out.old }
    ensures length { length out.new ≡ length out.old }
    ensures values { AreNarrowOf len (exact_at O.exact (L.value left.now) (R.value right.now)) out.new }
    ensures left { IsBound len (L.value left.now) result.left }
    ensures right { IsBound len (R.value right.now) result.right }
    ensures small { (result.left ≤ 2 ^ 31) × (result.right ≤ 2 ^ 31) }
{
    let mut most_left: u32 = 0;
    let mut most_right: u32 = 0;
    for place in 0..len {
        let x = left.value(place);
        let y = right.value(place);
        most_left = most_left.max(x.unsigned_abs());
        most_right = most_right.max(y.unsigned_abs());
        out[place] = O::narrow(x, y);
    }
    Bounds {
        left: most_left as u64,
        right: most_right as u64,
    }
}

/// Writes at the first `len` places the values of an operation that fit 32 bits, anything where one does not, if there
/// is memory for them, and gives bounds of the operands.
pub(crate) fn try_bounded<O: NarrowTrial, L: NarrowOperand, R: NarrowOperand>(
    len: usize,
    left: &L,
    right: &R,
    out: &mut Vec<i32>,
) -> Option<Bounds>
    requires left { len ≤ L.places left.now }
    requires right { len ≤ R.places right.now }
    ensures kept { length out.old.items ≤ length out.new.items }
    ensures tried { IfSome result (IsTried len O.exact (L.value left.now) (R.value right.now) out.new.items) }
{
    if !make_room(out, len) {
        return None;
    }
    Some(write_bounded::<O, L, R>(len, left, right, out.as_mut_slice()))
}

/// Whether all values fit 32 bits of which no magnitude is above a bound.
pub(crate) fn fit_within(bound: u64) -> bool
    ensures { IsTrue result → bound ≤ 2 ^ 31 - 1 }
{
    bound <= 2_147_483_647
}
