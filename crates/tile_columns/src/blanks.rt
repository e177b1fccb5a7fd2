//! Points whose value is 0: what many condensers keep of them is their number.

ghost use Rattle.std.specs.Prelude.{◌≡◌, ◌≤◌, length, IsTrue};
ghost use Rattle.arr_core.specs.Limits.{max_points};
ghost use Rattle.wcps_text.specs.declared.operator.Aggregate.{Aggregate};
ghost use Rattle.tile_kernel.specs.Standing.{AreOf, HaveAtMost};
ghost use Rattle.tile_columns.specs.Blanks.{skips_zeros, SkipZeros, CountsZeros, EachCountsZeros};

use tile_kernel::Accumulator;
use wcps_text::Aggregate;

/// Whether a condenser keeps of values what it keeps of those that are not 0.
pub(crate) fn skips_zeros(op: Aggregate) -> bool
    ensures { result ≡ skips_zeros op }
{
    match op {
        Aggregate::Sum => true,
        Aggregate::Product => false,
        Aggregate::Greatest => false,
        Aggregate::Least => false,
        Aggregate::Every => false,
        Aggregate::Any => true,
        Aggregate::Count => true,
        Aggregate::Average => true,
    }
}

/// Makes an accumulator one of so many points: those that it has been told of, and further ones whose value is 0.
fn count_zeros(a: &mut Accumulator, count: u32)
    requires op { IsTrue (skips_zeros a.old.running.op) }
    requires room { a.old.running.count ≤ count }
    requires few { count ≤ max_points }
    ensures stands { CountsZeros count a.old a.new }
    ensures op { a.new.running.op ≡ a.old.running.op }
    ensures count { a.new.running.count ≡ count }
{
    a.running.count = count;
}

/// Makes each accumulator one of so many points: those that it has been told of, and further ones whose value is 0.
pub(crate) fn count_all_zeros(folds: &mut [Accumulator], count: u32)
    requires op { SkipZeros folds.old }
    requires room { HaveAtMost count folds.old }
    requires few { count ≤ max_points }
    ensures stands { EachCountsZeros count folds.old folds.new }
    ensures room { HaveAtMost count folds.new }
    ensures op { (op : Aggregate) → AreOf op folds.old → AreOf op folds.new }
    ensures length { length folds.new ≡ length folds.old }
{
    for k in 0..folds.len() {
        count_zeros(&mut folds[k], count);
    }
}
