//! The outcomes of a column, lent.

ghost use Rattle.std.specs.Prelude.{◌≡◌, ◌<◌, ◌≤◌, length, slice_get, Some};
ghost use Rattle.arr_core.specs.Limits.{max_tile};
ghost use Rattle.wcps_mean.specs.declared.cell.Outcome.TheVariants.{Value};
ghost use Rattle.tile_kernel.specs.Columns.{outcome_of};

use crate::form::Form;
use std::marker::Model;
use wcps_mean::{Outcome, PointFault};

/// So many outcomes, and the lists that they are read from.
#[derive(Drop)]
pub(crate) struct View<'a> {
    pub len: usize,
    pub form: Form,
    pub values: &'a [i64],
    pub faults: &'a [Option<PointFault>],
    pub narrow: &'a [i32],
}

impl<'a> Model for View<'a> {
    ghost use Rattle.std.specs.Prelude.{List};
    ghost use Rattle.wcps_mean.specs.declared.cell.Outcome.{Outcome};

    ghost Value = { List Outcome };

    ghost use Rattle.tile_kernel.specs.Columns.{seen, IsRoomy};

    ghost view = { λ v. seen v.form v.len v.values.now v.faults.now v.narrow.now };

    ghost invariant = { λ v. IsRoomy v.form v.len v.values.now v.faults.now v.narrow.now };
}

/// An outcome by its value and its fault.
fn outcome(value: i64, fault: Option<PointFault>) -> Outcome
    ensures { result ≡ outcome_of value fault }
{
    match fault {
        None => Outcome::Value(value),
        Some(f) => Outcome::Fault(f),
    }
}

/// The value and the fault that stand for an outcome.
pub(crate) fn parts(o: Outcome) -> (i64, Option<PointFault>)
    ensures { outcome_of result.0 result.1 ≡ o }
{
    match o {
        Outcome::Value(x) => (x, None),
        Outcome::Fault(f) => (0, Some(f)),
    }
}

impl<'a> View<'a> {
    /// How many there are.
    pub fn len(&self) -> usize
        ensures places { result ≡ length self.now }
        ensures few { result ≤ max_tile }
    {
        self.len
    }

    /// The outcome at a place.
    pub fn at(&self, place: usize) -> Outcome
        requires { place < length self.now }
        ensures { slice_get self.now place ≡ Some result }
    {
        match self.form {
            Form::Same(o) => return o,
            Form::Values => return Outcome::Value(self.values[place]),
            Form::Narrow => return Outcome::Value(self.narrow[place] as i64),
            Form::Mixed => return outcome(self.values[place], self.faults[place]),
        }
    }

    /// The same outcomes, lent once more.
    pub fn again<'b>(&'b self) -> View<'b>
        ensures { result ≡ self.now }
    {
        View {
            len: self.len,
            form: self.form,
            values: self.values,
            faults: self.faults,
            narrow: self.narrow,
        }
    }
}
