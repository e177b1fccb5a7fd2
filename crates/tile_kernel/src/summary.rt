//! What a condenser keeps of values.

ghost use Rattle.std.specs.Prelude.{◌≡◌, ◌+◌, ◌<◌, ◌≤◌, ℕ, ℤ, List, [], ◌∷◌};
ghost use Rattle.arr_core.specs.Limits.{max_points};
ghost use Rattle.wcps_text.specs.declared.operator.Aggregate.{Aggregate};
ghost use Rattle.wcps_mean.specs.Feeding.{Keeps};
ghost use Rattle.tile_kernel.specs.Joins.{HoldsOfBoth, HoldsWith};
ghost use Rattle.tile_kernel.specs.Condensing.{CombinesTo};

use wcps_mean::{Outcome, PointFault, Running};

/// What a condenser keeps of values, told in any order: no more than its combination needs.
pub trait Summary: Copy {
    /// The condenser's kind.
    ghost op: { Aggregate };

    /// What is kept of the values.
    ghost keeps: { Self → List ℤ → Type 0 };

    /// How many values it has counted, if it counts them.
    ghost counted: { Self → ℕ };

    /// Of no value.
    fn none() -> Self
        ensures keeps { keeps result [] }
        ensures counted { counted result ≡ 0 };

    /// Of one value.
    fn of(x: i64) -> Self
        ensures keeps { keeps result (x ∷ []) }
        ensures counted { counted result ≤ 1 };

    /// Of the values of both.
    fn with(self, other: Self) -> Self
        requires { counted self + counted other ≤ max_points }
        ensures keeps { HoldsOfBoth (keeps self) (keeps other) (keeps result) }
        ensures counted { counted result ≡ counted self + counted other };

    /// Adds one value.
    fn add(&mut self, x: i64)
        requires { counted self.old < max_points }
        ensures keeps { HoldsWith x (keeps self.old) (keeps self.new) }
        ensures counted { counted self.new ≤ counted self.old + 1 }
    {
        *self = self.with(Self::of(x));
    }

    /// A running condenser that keeps them, of so many points and with the first fault, if there is one.
    fn running(self, count: u32, fault: Option<PointFault>) -> Running
        requires counted { counted self ≤ count }
        requires few { count ≤ max_points }
        ensures kept { (zs : List ℤ) → keeps self zs → Keeps op result zs }
        ensures op { result.op ≡ op }
        ensures count { result.count ≡ count }
        ensures fault { result.fault ≡ fault };

    /// The combination of the values, in whatever order they were told.
    fn outcome(self) -> Outcome
        ensures { CombinesTo op (keeps self) result };
}
