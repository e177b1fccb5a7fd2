//! Condensers of points of one box, told in parts and in any order.

ghost use Rattle.std.specs.Prelude.{◌≡◌, ◌+◌, ◌<◌, ◌≤◌, ℕ, List, [], ◌∷◌, length};
ghost use Rattle.std.specs.List.{All};
ghost use Rattle.arr_core.specs.Limits.{max_points};
ghost use Rattle.wcps_text.specs.declared.operator.Aggregate.{Aggregate};
ghost use Rattle.tile_kernel.specs.Columns.{outcome_at};
ghost use Rattle.tile_kernel.specs.Repeated.{runs_shown};
ghost use Rattle.tile_kernel.specs.Told.{Told, told_at, told_from, ComesTo};
ghost use Rattle.tile_kernel.specs.Joins.{HoldsWith};
ghost use Rattle.tile_kernel.specs.Condensing.{IsUnordered, StandsForBoth, ComesToBoth, EachIsTold};

use crate::accumulator::Accumulator;
use crate::column::{Column, MAX_PLACES};
use crate::first_fault::FirstFault;
use crate::seen::{Runs, Seen};
use crate::summary::Summary;
use crate::view::View;
use wcps_mean::Outcome;

/// What a condenser keeps of points of one box, at most 2^24 of them, each told by its place in the row-major list of
/// the box. Its laws: no point more changes nothing, parts are put together in whatever order and grouping, and the end
/// is the condenser of all points in row-major order.
pub trait Condenser: Copy {
    /// The condenser's kind.
    ghost op: { Aggregate };

    /// The points that it stands for.
    ghost stands: { Self → List Told → Type 0 };

    /// How many values it has counted, if it counts them.
    ghost counted: { Self → ℕ };

    /// Of no point.
    fn empty() -> Self
        ensures stands { stands result [] }
        ensures counted { counted result ≡ 0 };

    /// Of one point.
    fn one(place: u64, o: Outcome) -> Self
        ensures stands { stands result ((place, o) ∷ []) }
        ensures counted { counted result ≤ 1 };

    /// Of the points of both.
    fn merge(self, other: Self) -> Self
        requires { counted self + counted other ≤ max_points }
        ensures stands { StandsForBoth stands self other result }
        ensures turned { StandsForBoth stands other self result }
        ensures counted { counted result ≡ counted self + counted other };

    /// Adds one point.
    fn add(&mut self, place: u64, o: Outcome)
        requires { counted self.old < max_points }
        ensures stands { HoldsWith (place, o) (stands self.old) (stands self.new) }
        ensures counted { counted self.new ≤ counted self.old + 1 }
    {
        *self = self.merge(Self::one(place, o));
    }

    /// The condenser's outcome.
    fn finish(self) -> Outcome
        ensures { (told : List Told) → stands self told → ComesTo op told result };

    /// The order in which its points were told does not matter.
    ghost unordered: { IsUnordered stands };
}

/// A condenser by a summary of the values and the fault at the least place.
#[derive(Clone, Copy)]
pub struct Condensed<S> {
    summary: S,
    first: FirstFault,
}

impl<S: Summary> Condenser for Condensed<S> {
    ghost use Rattle.tile_kernel.specs.Condensing.{IsKeptOf};
    ghost use Rattle.std.proofs.lemmas.List.Sorted.{IsPermutation-trans};

    ghost op = { S.op };

    ghost stands = { λ c told. IsKeptOf S.keeps c.summary c.first.fault c.first.place told };

    ghost counted = { λ c. S.counted c.summary };

    ghost unordered = { λ c told other p h. (h.0, IsPermutation-trans h.0 told other h.1 p, h.2) };

    fn empty() -> Condensed<S> {
        Condensed {
            summary: S::none(),
            first: FirstFault::none(),
        }
    }

    fn one(place: u64, o: Outcome) -> Condensed<S> {
        match o {
            Outcome::Value(x) => {
                let first = FirstFault { fault: None, place };
                return Condensed {
                    summary: S::of(x),
                    first,
                };
            }
            Outcome::Fault(f) => {
                let first = FirstFault {
                    fault: Some(f),
                    place,
                };
                return Condensed {
                    summary: S::none(),
                    first,
                };
            }
        }
    }

    fn merge(self, other: Condensed<S>) -> Condensed<S> {
        Condensed {
            summary: self.summary.with(other.summary),
            first: self.first.least(other.first),
        }
    }

    fn add(&mut self, place: u64, o: Outcome) {
        match o {
            Outcome::Value(x) => self.summary.add(x),
            Outcome::Fault(f) => {
                let fault = Some(f);
                self.first = self.first.least(FirstFault { fault, place });
            }
        }
    }

    fn finish(self) -> Outcome {
        match self.first.fault {
            Some(f) => return Outcome::Fault(f),
            None => return self.summary.outcome(),
        }
    }
}

impl<S: Summary> Condensed<S> {
    ghost use Rattle.tile_kernel.specs.Condensing.{IsKeptOf, StandsForAll};

    /// An accumulator of the same points, as many as are named.
    pub(crate) fn accumulator(self, count: u32) -> Accumulator
        requires counted { S.counted self.summary ≤ count }
        requires few { count ≤ max_points }
        ensures stands { StandsForAll count (IsKeptOf S.keeps self.summary self.first.fault self.first.place) result }
        ensures op { result.running.op ≡ S.op }
        ensures count { result.running.count ≡ count }
    {
        Accumulator {
            running: self.summary.running(count, self.first.fault),
            place: self.first.place,
        }
    }
}

/// The condenser of a column, whose cells have these places in the row-major list of the condenser's box.
pub fn condense<C: Condenser>(column: &Column, places: &[u64]) -> C
    requires { length places.now ≡ length column.now }
    ensures stands { C.stands result (told_at places.now column.now) }
    ensures counted { C.counted result ≤ length column.now }
{
    match column.seen() {
        Seen::Each(view) => return condense_view::<C>(&view, places),
        Seen::Runs(runs) => return condense_runs::<C>(&runs, places),
    }
}

/// The condenser of outcomes that are kept as runs.
#[inline(never)]
fn condense_runs<C: Condenser>(column: &Runs<'_>, places: &[u64]) -> C
    requires { length places.now ≡ length (runs_shown column.now) }
    ensures stands { C.stands result (told_at places.now (runs_shown column.now)) }
    ensures counted { C.counted result ≤ length (runs_shown column.now) }
{
    let mut room = [0i64; MAX_PLACES];
    condense_view::<C>(&column.spread(&mut room), places)
}

/// The condenser of outcomes at each place.
fn condense_view<C: Condenser>(column: &View<'_>, places: &[u64]) -> C
    requires { length places.now ≡ length column.now }
    ensures stands { C.stands result (told_at places.now column.now) }
    ensures counted { C.counted result ≤ length column.now }
{
    let mut all = C::empty();
    for k in 0..column.len() {
        all = all.merge(C::one(places[k], column.at(k)));
    }
    all
}

/// Each condenser is told of one more point, that with this place in the box of all of them: the k-th of the outcome at
/// the k-th place of the column.
pub fn tell_each<C: Condenser>(condensers: &mut [C], place: u64, column: &Column)
    requires length { length condensers.old ≡ length column.now }
    requires room { All (λ c. C.counted c ≤ place) condensers.old }
    requires few { place < max_points }
    ensures stands { EachIsTold C.stands condensers.old condensers.new (λ k. (place, outcome_at column.now k) ∷ []) }
    ensures room { All (λ c. C.counted c ≤ place + 1) condensers.new }
    ensures length { length condensers.new ≡ length condensers.old }
{
    match column.seen() {
        Seen::Each(view) => tell_view::<C>(condensers, place, &view),
        Seen::Runs(runs) => tell_runs::<C>(condensers, place, &runs),
    }
}

/// The same of outcomes that are kept as runs.
#[inline(never)]
fn tell_runs<C: Condenser>(condensers: &mut [C], place: u64, column: &Runs<'_>)
    requires length { length condensers.old ≡ length (runs_shown column.now) }
    requires room { All (λ c. C.counted c ≤ place) condensers.old }
    requires few { place < max_points }
    ensures stands { EachIsTold C.stands condensers.old condensers.new (told_from place (runs_shown column.now)) }
    ensures room { All (λ c. C.counted c ≤ place + 1) condensers.new }
    ensures length { length condensers.new ≡ length condensers.old }
{
    let mut room = [0i64; MAX_PLACES];
    tell_view::<C>(condensers, place, &column.spread(&mut room));
}

/// The same of outcomes at each place.
fn tell_view<C: Condenser>(condensers: &mut [C], place: u64, column: &View<'_>)
    requires length { length condensers.old ≡ length column.now }
    requires room { All (λ c. C.counted c ≤ place) condensers.old }
    requires few { place < max_points }
    ensures stands { EachIsTold C.stands condensers.old condensers.new (λ k. (place, outcome_at column.now k) ∷ []) }
    ensures room { All (λ c. C.counted c ≤ place + 1) condensers.new }
    ensures length { length condensers.new ≡ length condensers.old }
{
    for k in 0..condensers.len() {
        let before = condensers[k];
        condensers[k] = before.merge(C::one(place, column.at(k)));
    }
}

/// The outcome of two parts of a box, in whatever order their points were told: the condenser of all points in
/// row-major order.
pub fn finish_both<C: Condenser>(a: C, b: C) -> Outcome
    requires { C.counted a + C.counted b ≤ max_points }
    ensures { ComesToBoth C.op C.stands a b result }
{
    a.merge(b).finish()
}
