//! What is kept of two lists of values at once.

ghost use Rattle.std.specs.Prelude.{◌≡◌, ◌+◌, ◌≤◌, ◌&&◌, ◌||◌};
ghost use Rattle.arr_core.specs.Limits.{max_points};
ghost use Rattle.wcps_mean.specs.Condensers.{larger, smaller};
ghost use Rattle.wcps_mean.specs.Feeding.{Keeps};
ghost use Rattle.tile_kernel.specs.Joins.{HoldsOfBoth, better, best_both};

use wcps_mean::{PointFault, Running};
use wcps_text::Aggregate;

/// What two condensers of one kind keep together, and the fault that stands for both.
pub(crate) fn joined(a: &Running, b: &Running, fault: Option<PointFault>) -> Running
    requires op { a.now.op ≡ b.now.op }
    requires room { a.now.count + b.now.count ≤ max_points }
    ensures kept { HoldsOfBoth (Keeps a.now.op a.now) (Keeps a.now.op b.now) (Keeps a.now.op result) }
    ensures op { result.op ≡ a.now.op }
    ensures count { result.count ≡ a.now.count + b.now.count }
    ensures fault { result.fault ≡ fault }
{
    Running {
        op: a.op,
        count: a.count + b.count,
        trues: a.trues + b.trues,
        fault,
        sum: a.sum + b.sum,
        product: a.product.with(b.product),
        best: best_of(a.op, a.best, b.best),
        all: both(a.all, b.all),
        some: either(a.some, b.some),
    }
}

/// The better of two values, where there are such.
pub(crate) fn best_of(op: Aggregate, a: Option<i64>, b: Option<i64>) -> Option<i64>
    ensures { result ≡ best_both op a b }
{
    match a {
        None => b,
        Some(x) => match b {
            None => Some(x),
            Some(y) => Some(better(op, x, y)),
        },
    }
}

/// The larger one for a greatest, else the smaller one.
fn better(op: Aggregate, x: i64, y: i64) -> i64
    ensures { result ≡ better op x y }
{
    match op {
        Aggregate::Greatest => larger(x, y),
        _ => smaller(x, y),
    }
}

/// The larger of two values.
pub(crate) fn larger(x: i64, y: i64) -> i64
    ensures { result ≡ larger x y }
{
    if x <= y { y } else { x }
}

/// The smaller of two values.
pub(crate) fn smaller(x: i64, y: i64) -> i64
    ensures { result ≡ smaller x y }
{
    if x <= y { x } else { y }
}

/// Whether both are true.
pub(crate) fn both(a: bool, b: bool) -> bool
    ensures { result ≡ (a && b) }
{
    if a { b } else { false }
}

/// Whether one is true.
pub(crate) fn either(a: bool, b: bool) -> bool
    ensures { result ≡ (a || b) }
{
    if a { true } else { b }
}
