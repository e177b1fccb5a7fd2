//! A condenser that is fed the outcomes of its points in row-major order.

ghost use Rattle.std.specs.Prelude.{◌≡◌, ◌+◌, ◌*◌, ◌<◌, ◌≤◌, ◌^◌, ℤ, pos, neg_ℤ, ◌+ℤ◌, ◌≤ℤ◌, List, [], ◌∷◌, length, IsTrue, IsFalse};
ghost use Rattle.arr_core.specs.Limits.{max_points};
ghost use Rattle.wcps_mean.specs.Condensers.{combined, total, floor_of};
ghost use Rattle.wcps_mean.specs.Best.{greatest_of, least_of, top_of, bottom_of};

use crate::cell::{Outcome, PointFault, is_set, range_test, truth_value, weight};
use crate::product::Product;
use wcps_text::Aggregate;

/// What is kept of the outcomes so far: at most 2^24 of them, the points of a box.
#[derive(Drop)]
pub struct Running {
    pub op: Aggregate,
    /// How many outcomes.
    pub count: u32,
    /// How many values are true.
    pub trues: u32,
    /// The first fault.
    pub fault: Option<PointFault>,
    /// The exact sum, which may leave 64 bits.
    pub sum: i128,
    pub product: Product,
    /// The greatest or least value.
    pub best: Option<i64>,
    /// All values are true.
    pub all: bool,
    /// Some value is true.
    pub some: bool,
    ghost few: { count ≤ max_points },
    ghost few_trues: { trues ≤ count },
    ghost from_below: { neg_ℤ (pos (count * 2 ^ 63)) ≤ℤ sum },
    ghost from_above: { (sum +ℤ pos count) ≤ℤ pos (count * 2 ^ 63) },
}

impl Running {
    ghost use Rattle.wcps_mean.specs.Condensers.{condensed, demanded};
    ghost use Rattle.wcps_mean.specs.Feeding.{Fed, Feeds};
    ghost use Rattle.wcps_mean.specs.declared.cell.Outcome.{Outcome};

    /// Of no outcome.
    pub fn new(op: Aggregate) -> Running
        ensures fed { Fed result [] }
        ensures op { result.op ≡ op }
    {
        Running {
            op,
            count: 0,
            trues: 0,
            fault: None,
            sum: 0,
            product: Product::new(),
            best: None,
            all: true,
            some: false,
        }
    }

    /// The next outcome.
    pub fn add(&mut self, o: Outcome)
        requires { self.old.count < max_points }
        ensures fed { Feeds self.old self.new (o ∷ []) }
        ensures count { self.new.count ≡ self.old.count + 1 }
        ensures op { self.new.op ≡ self.old.op }
    {
        match o {
            Outcome::Fault(f) => {
                self.count += 1;
                if let None = self.fault {
                    self.fault = Some(f);
                }
            }
            Outcome::Value(x) => {
                self.add_value(x);
            }
        }
    }

    /// Whether a point with a condition demands its value, which is then to be added next. Else what the point gives
    /// without it has been added: the condition's fault, or nothing.
    pub fn demands(&mut self, condition: Outcome) -> bool
        requires { self.old.count < max_points }
        ensures demanded { IsTrue result → (value : Outcome) → demanded condition value ≡ value ∷ [] }
        ensures unchanged { IsTrue result → self.new ≡ self.old }
        ensures otherwise { IsFalse result → (value : Outcome) → Feeds self.old self.new (demanded condition value) }
        ensures count { self.new.count ≤ self.old.count + 1 }
        ensures op { self.new.op ≡ self.old.op }
    {
        match condition {
            Outcome::Fault(f) => {
                self.add(Outcome::Fault(f));
                false
            }
            Outcome::Value(x) => is_set(x),
        }
    }

    /// The next value.
    fn add_value(&mut self, x: i64)
        requires { self.old.count < max_points }
        ensures fed { Feeds self.old self.new (Outcome.Value x ∷ []) }
        ensures count { self.new.count ≡ self.old.count + 1 }
        ensures op { self.new.op ≡ self.old.op }
    {
        self.count += 1;
        match self.op {
            Aggregate::Sum => {
                self.sum += x as i128;
                return;
            }
            Aggregate::Average => {
                self.sum += x as i128;
                return;
            }
            Aggregate::Product => {
                self.product = self.product.times(x);
                return;
            }
            Aggregate::Greatest => {
                self.best = Some(greater(self.best, x));
                return;
            }
            Aggregate::Least => {
                self.best = Some(lesser(self.best, x));
                return;
            }
            Aggregate::Every => {
                self.all = self.all && is_set(x);
                return;
            }
            Aggregate::Any => {
                self.some = self.some || is_set(x);
                return;
            }
            Aggregate::Count => {
                self.trues += weight(x);
                return;
            }
        }
    }

    /// The outcome of all.
    pub fn finish(self) -> Outcome
        ensures { (outs : List Outcome) → Fed self outs → result ≡ condensed self.op outs }
    {
        if let Some(f) = self.fault {
            return Outcome::Fault(f);
        }
        match self.op {
            Aggregate::Sum => return range_test(self.sum),
            Aggregate::Product => return self.product.finish(),
            Aggregate::Greatest => return value_or_empty(self.best),
            Aggregate::Least => return value_or_empty(self.best),
            Aggregate::Every => return truth_value(self.all),
            Aggregate::Any => return truth_value(self.some),
            Aggregate::Count => return Outcome::Value(self.trues as i64),
            Aggregate::Average => return average(self.sum, self.count),
        }
    }
}

/// The greater of two values, where there is one before.
fn greater(before: Option<i64>, x: i64) -> i64
    ensures { result ≡ top_of before x }
{
    match before {
        None => x,
        Some(m) => { if m <= x { x } else { m } }
    }
}

/// The smaller of two values, where there is one before.
fn lesser(before: Option<i64>, x: i64) -> i64
    ensures { result ≡ bottom_of before x }
{
    match before {
        None => x,
        Some(m) => { if m <= x { m } else { x } }
    }
}

/// The value, or the fault of a greatest or least of nothing.
pub fn value_or_empty(best: Option<i64>) -> Outcome
    ensures greatest { (zs : List ℤ) → best ≡ greatest_of zs → result ≡ combined Aggregate.Greatest zs }
    ensures least { (zs : List ℤ) → best ≡ least_of zs → result ≡ combined Aggregate.Least zs }
{
    match best {
        Some(m) => Outcome::Value(m),
        None => Outcome::Fault(PointFault::EmptyCondense),
    }
}

/// The floor of a sum over a count.
fn average(sum: i128, count: u32) -> Outcome
    requires few { count ≤ max_points }
    requires from_below { neg_ℤ (pos (count * 2 ^ 63)) ≤ℤ sum }
    requires from_above { (sum +ℤ pos count) ≤ℤ pos (count * 2 ^ 63) }
    ensures { (zs : List ℤ) → length zs ≡ count → sum ≡ total zs → result ≡ combined Aggregate.Average zs }
{
    if count == 0 {
        return Outcome::Fault(PointFault::EmptyCondense);
    }
    range_test(floor(sum, count))
}

/// The quotient rounded down.
fn floor(sum: i128, count: u32) -> i128
    requires positive { 0 < count }
    requires from_below { neg_ℤ (pos (count * 2 ^ 63)) ≤ℤ sum }
    requires from_above { (sum +ℤ pos count) ≤ℤ pos (count * 2 ^ 63) }
    ensures { result ≡ floor_of sum count }
{
    sum.div_euclid(count as i128)
}
