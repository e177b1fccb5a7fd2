//! The loop of a kernel.

ghost use Rattle.std.specs.Prelude.{◌≤◌, length, IsTrue};
ghost use Rattle.tile_kernel.specs.Columns.{exact_at, AreValues, AreValuesBy};

use crate::operand::Operand;
use crate::trial::Trial;

/// Tries an operation at the first `len` places; tells whether each result is the operation's value.
pub(crate) fn try_places<O: Trial, L: Operand, R: Operand>(
    len: usize,
    left: &L,
    right: &R,
    out: &mut [i64],
) -> bool
    requires left { len ≤ L.places left.now }
    requires right { len ≤ R.places right.now }
    requires out { len ≤ length out.old }
    ensures { IsTrue result → AreValues len (exact_at O.exact (L.value left.now) (R.value right.now)) out.new }
{
    try_from::<O, L, R>(0, len, left, right, out, 0)
}

/// Tries an operation at the places from one on, where a mark tells of those before; tells whether each result is the
/// operation's value.
pub(crate) fn try_from<O: Trial, L: Operand, R: Operand>(
    from: usize,
    len: usize,
    left: &L,
    right: &R,
    out: &mut [i64],
    mark: i64,
) -> bool
    requires from { from ≤ len }
    requires left { len ≤ L.places left.now }
    requires right { len ≤ R.places right.now }
    requires out { len ≤ length out.old }
    requires before { AreValuesBy mark from (exact_at O.exact (L.value left.now) (R.value right.now)) out.old }
    ensures { IsTrue result → AreValues len (exact_at O.exact (L.value left.now) (R.value right.now)) out.new }
{
    let mut marks = mark;
    for place in from..len {
        let tried = O::tried(left.value(place), right.value(place));
        out[place] = tried.value;
        marks |= tried.mark;
    }
    marks >= 0
}
