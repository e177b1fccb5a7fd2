//! What a column keeps, lent: an outcome for each place, or runs.

ghost use Rattle.std.specs.Prelude.{◌≡◌, ◌≤◌, length, sum};
ghost use Rattle.arr_core.specs.Limits.{max_tile};

use crate::form::Form;
use crate::view::View;
use wcps_mean::PointFault;

/// Values that stand for runs: the k-th as often as the k-th count says, over `len` places in all.
#[derive(Drop)]
pub(crate) struct Runs<'a> {
    pub len: usize,
    pub values: &'a [i64],
    pub faults: &'a [Option<PointFault>],
    pub counts: &'a [u32],
    ghost total: { sum counts.now ≡ len },
    ghost few: { len ≤ max_tile },
    ghost values_room: { length values.now ≡ max_tile },
    ghost faults_room: { max_tile ≤ length faults.now },
    ghost counted: { length counts.now ≤ max_tile },
}

/// What a column keeps.
#[derive(Drop)]
pub(crate) enum Seen<'a> {
    /// Each place has its own outcome, or all have one.
    Each(View<'a>),
    /// The places are runs of one value.
    Runs(Runs<'a>),
}

impl<'a> Seen<'a> {
    /// Whether its values may be written in 32 bits.
    pub fn may_be_narrow(&self) -> bool {
        match self {
            Seen::Each(view) => matches!(view.form, Form::Narrow | Form::Same(_)),
            Seen::Runs(_) => true,
        }
    }
}
