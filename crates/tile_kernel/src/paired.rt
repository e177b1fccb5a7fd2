//! Two columns over the same runs.

ghost use Rattle.std.specs.Prelude.{◌≡◌, length, IfSome};
ghost use Rattle.tile_kernel.specs.Repeated.{shown, StandsOver, ArePaired};

use crate::form::Form;
use crate::pair::Pair;
use crate::seen::{Runs, Seen};
use crate::view::View;

/// One outcome for each run, if it is the same at every place.
fn same_over<'a>(view: &View<'a>, runs: &Runs<'a>) -> Option<View<'a>>
    requires { length view.now ≡ runs.now.len }
    ensures { IfSome result (StandsOver runs.now.counts.now view.now) }
{
    match view.form {
        Form::Same(o) => Some(View {
            len: runs.counts.len(),
            form: Form::Same(o),
            values: runs.values,
            faults: runs.faults,
            narrow: view.narrow,
        }),
        _ => None,
    }
}

/// An outcome for each of the runs, if the column goes over the same ones or is the same at every place.
fn heads_over<'a>(seen: &Seen<'a>, runs: &Runs<'a>) -> Option<View<'a>>
    requires { length (shown seen.now) ≡ runs.now.len }
    ensures { IfSome result (StandsOver runs.now.counts.now (shown seen.now)) }
{
    match seen {
        Seen::Each(view) => return same_over(view, runs),
        Seen::Runs(own) => {
            if own.counts == runs.counts {
                return Some(own.heads());
            }
            return None;
        }
    }
}

/// What both have for each of the runs, if both go over them.
fn paired_over<'a>(left: &Seen<'a>, right: &Seen<'a>, runs: &Runs<'a>) -> Option<Pair<'a>>
    requires left { length (shown left.now) ≡ runs.now.len }
    requires right { length (shown right.now) ≡ runs.now.len }
    ensures { IfSome result (ArePaired (shown left.now) (shown right.now)) }
{
    match heads_over(left, runs) {
        None => return None,
        Some(l) => match heads_over(right, runs) {
            None => return None,
            Some(r) => {
                return Some(Pair {
                    left: l,
                    right: r,
                    counts: runs.counts,
                    len: runs.len,
                });
            }
        },
    }
}

/// What two columns have for each run, if one is kept as runs, and the other one as the same runs or as one outcome.
pub(crate) fn paired<'a>(left: &Seen<'a>, right: &Seen<'a>) -> Option<Pair<'a>>
    requires { length (shown left.now) ≡ length (shown right.now) }
    ensures { IfSome result (ArePaired (shown left.now) (shown right.now)) }
{
    match left {
        Seen::Runs(runs) => return paired_over(left, right, runs),
        Seen::Each(_) => match right {
            Seen::Runs(runs) => return paired_over(left, right, runs),
            Seen::Each(_) => return None,
        },
    }
}
