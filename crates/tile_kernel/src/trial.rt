//! Cell operations tried on values: a result, and a mark that tells where it may be wrong.

ghost use Rattle.std.specs.Prelude.{◌≡◌, ℤ, pos, ◌≤ℤ◌};
ghost use Rattle.wcps_mean.specs.declared.cell.Outcome.{Outcome};
ghost use Rattle.wcps_mean.specs.declared.cell.Outcome.TheVariants.{Value};

/// The result of a trial. It is the operation's value where the mark is not negative; else nothing is said of it.
#[derive(Clone, Copy)]
pub(crate) struct Tried {
    pub value: i64,
    pub mark: i64,
}

/// An operation on two values that is tried on many places before any result is tested.
pub(crate) trait Trial {
    ghost exact: { ℤ → ℤ → Outcome };

    /// Tries the operation.
    fn tried(x: i64, y: i64) -> Tried
        ensures { pos 0 ≤ℤ result.mark → exact x y ≡ Value result.value };
}
