//! What is kept of the points that a condenser has been told of, in whatever order.

ghost use Rattle.std.specs.Prelude.{◌≡◌, ◌+◌, ◌<◌, ◌≤◌, List, [], ◌∷◌};
ghost use Rattle.arr_core.specs.Limits.{max_points};
ghost use Rattle.tile_kernel.specs.Told.{Told};

use crate::first_fault::FirstFault;
use crate::joined::joined;
use wcps_mean::{Outcome, Running, is_set};
use wcps_text::Aggregate;

/// What is kept of the points of a box, at most 2^24 of them, that a condenser has been told of. The order of telling
/// does not matter: sums are exact in 128 bits, products keep sign, magnitude and whether there is a zero, and of the
/// faults that at the least place stands.
#[derive(Drop)]
pub struct Accumulator {
    /// How many points, what is kept of their values, and the fault at the least place.
    pub running: Running,
    /// The place of that fault in the row-major list of the box; where there is none it means nothing.
    pub place: u64,
}

impl Accumulator {
    ghost use Rattle.tile_kernel.specs.Told.{demanded_of, ComesTo};
    ghost use Rattle.tile_kernel.specs.Standing.{Stands, TakesIn};

    /// Of no point.
    pub fn empty(op: Aggregate) -> Accumulator
        ensures stands { Stands result [] }
        ensures op { result.running.op ≡ op }
    {
        Accumulator {
            running: Running::new(op),
            place: 0,
        }
    }

    /// Of one point, by its place in the row-major list of the box.
    pub fn one(op: Aggregate, place: u64, o: Outcome) -> Accumulator
        ensures stands { Stands result ((place, o) ∷ []) }
        ensures op { result.running.op ≡ op }
    {
        let mut running = Running::new(op);
        running.add(o);
        Accumulator { running, place }
    }

    /// The fault at the least place.
    fn first_fault(&self) -> FirstFault
        ensures fault { result.fault ≡ self.now.running.fault }
        ensures place { result.place ≡ self.now.place }
    {
        FirstFault {
            fault: self.running.fault,
            place: self.place,
        }
    }

    /// Takes in the points of another accumulator of the same kind.
    pub fn merge(&mut self, other: Accumulator)
        requires op { self.old.running.op ≡ other.running.op }
        requires room { self.old.running.count + other.running.count ≤ max_points }
        ensures stands { (more : List Told) → Stands other more → TakesIn self.old self.new more }
        ensures op { self.new.running.op ≡ self.old.running.op }
        ensures count { self.new.running.count ≡ self.old.running.count + other.running.count }
    {
        self.take_over(&other);
    }

    /// Takes in the points that another accumulator of the same kind was told, which keeps them.
    pub fn take_over(&mut self, other: &Accumulator)
        requires op { self.old.running.op ≡ other.now.running.op }
        requires room { self.old.running.count + other.now.running.count ≤ max_points }
        ensures stands { (more : List Told) → Stands other.now more → TakesIn self.old self.new more }
        ensures op { self.new.running.op ≡ self.old.running.op }
        ensures count { self.new.running.count ≡ self.old.running.count + other.now.running.count }
    {
        let first = self.first_fault().least(other.first_fault());
        self.running = joined(&self.running, &other.running, first.fault);
        self.place = first.place;
    }

    /// Takes in one point.
    pub fn add(&mut self, place: u64, o: Outcome)
        requires { self.old.running.count < max_points }
        ensures stands { TakesIn self.old self.new ((place, o) ∷ []) }
        ensures op { self.new.running.op ≡ self.old.running.op }
        ensures count { self.new.running.count ≡ self.old.running.count + 1 }
    {
        match o {
            Outcome::Value(x) => self.running.add(Outcome::Value(x)),
            Outcome::Fault(_) => self.merge(Accumulator::one(self.running.op, place, o)),
        }
    }

    /// Takes in one point under a condition: the condition's fault, or nothing where it is false, else the point.
    pub fn add_where(&mut self, place: u64, condition: Outcome, o: Outcome)
        requires { self.old.running.count < max_points }
        ensures stands { TakesIn self.old self.new (demanded_of place condition o) }
        ensures op { self.new.running.op ≡ self.old.running.op }
        ensures count { self.new.running.count ≤ self.old.running.count + 1 }
    {
        match condition {
            Outcome::Fault(f) => {
                self.add(place, Outcome::Fault(f));
                return;
            }
            Outcome::Value(x) => {
                if is_set(x) {
                    self.add(place, o);
                    return;
                }
                return;
            }
        }
    }

    /// The condenser's outcome. Put in the order of their places, the points that it was told of have the outcomes that
    /// it condenses.
    pub fn finish(self) -> Outcome
        ensures { (told : List Told) → Stands self told → ComesTo self.running.op told result }
    {
        self.running.finish()
    }
}
