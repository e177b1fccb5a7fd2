//! Condensers that are told of the cells of a column by the keys of these: one pass over the column for all keys.

ghost use Rattle.std.specs.Prelude.{◌≡◌, ◌+◌, ◌<◌, ◌≤◌, ℤ, List, [], ◌∷◌, length, IfSome};
ghost use Rattle.std.specs.List.{All};
ghost use Rattle.arr_core.specs.Limits.{max_points};
ghost use Rattle.wcps_mean.specs.declared.cell.Outcome.TheVariants.{Value};
ghost use Rattle.tile_kernel.specs.Columns.{HasValues};
ghost use Rattle.tile_kernel.specs.Condensing.{EachIsTold, EachCountsMore};
ghost use Rattle.tile_kernel.specs.Keyed.{told_by_key, TakeCells, TakeIn, IsPlaceOf};

use crate::column::{Column, MAX_PLACES};
use crate::condenser::Condenser;
use crate::form::Form;
use crate::operand::{Each, EachNarrow, Operand, Same};
use crate::seen::Seen;
use crate::view::View;
use wcps_mean::Outcome;

/// Different numbers, each at a place of its own.
pub trait Numbers {
    ghost numbers: { Self → List ℤ };

    /// How many numbers there are.
    fn len(&self) -> usize
        ensures { result ≡ length (numbers self.now) };

    /// The place of a number, if it is one of them.
    fn place_of(&self, z: i64) -> Option<usize>
        ensures within { IfSome result (λ k. k < length (numbers self.now)) }
        ensures place { IsPlaceOf z (numbers self.now) result };
}

/// Each condenser is told of one more point.
fn tell_all<C: Condenser>(folds: &mut [C], place: u64, o: Outcome)
    requires room { All (λ c. C.counted c < max_points) folds.old }
    ensures stands { EachIsTold C.stands folds.old folds.new (λ _. (place, o) ∷ []) }
    ensures room { EachCountsMore C.counted 1 folds.old folds.new }
    ensures length { length folds.new ≡ length folds.old }
{
    for k in 0..folds.len() {
        folds[k] = folds[k].merge(C::one(place, o));
    }
}

/// The condenser of a number, if it is one of them, is told of a cell that has it for its key.
fn tell_number<C: Condenser, N: Numbers>(
    folds: &mut [C],
    numbers: &N,
    place: u64,
    key: i64,
    o: Outcome,
)
    requires folds { length folds.old ≡ length (N.numbers numbers.now) }
    requires room { All (λ c. C.counted c < max_points) folds.old }
    ensures stands { EachIsTold C.stands folds.old folds.new (told_by_key (N.numbers numbers.now) place (Value key) o) }
    ensures room { EachCountsMore C.counted 1 folds.old folds.new }
    ensures length { length folds.new ≡ length folds.old }
{
    match numbers.place_of(key) {
        Some(k) => folds[k].add(place, o),
        None => (),
    }
}

/// The condenser of a key's number is told of a cell; of a key's fault all are told.
fn tell_keyed<C: Condenser, N: Numbers>(
    folds: &mut [C],
    numbers: &N,
    place: u64,
    key: Outcome,
    o: Outcome,
)
    requires folds { length folds.old ≡ length (N.numbers numbers.now) }
    requires room { All (λ c. C.counted c < max_points) folds.old }
    ensures stands { EachIsTold C.stands folds.old folds.new (told_by_key (N.numbers numbers.now) place key o) }
    ensures room { EachCountsMore C.counted 1 folds.old folds.new }
    ensures length { length folds.new ≡ length folds.old }
{
    match key {
        Outcome::Fault(f) => tell_all(folds, place, Outcome::Fault(f)),
        Outcome::Value(z) => tell_number(folds, numbers, place, z, o),
    }
}

/// Each condenser is told of those cells of a column whose key is its number, cell by cell.
fn tell_cells<C: Condenser, N: Numbers>(
    folds: &mut [C],
    numbers: &N,
    keys: &View<'_>,
    column: &View<'_>,
    places: &[u64],
)
    requires folds { length folds.old ≡ length (N.numbers numbers.now) }
    requires keys { length keys.now ≡ length column.now }
    requires places { length places.now ≡ length column.now }
    requires room { All (λ c. C.counted c + length column.now ≤ max_points) folds.old }
    ensures stands { TakeCells C.stands folds.old folds.new (N.numbers numbers.now) places.now keys.now column.now }
    ensures room { EachCountsMore C.counted (length column.now) folds.old folds.new }
    ensures length { length folds.new ≡ length folds.old }
{
    for j in 0..column.len() {
        tell_keyed(folds, numbers, places[j], keys.at(j), column.at(j));
    }
}

/// Each condenser is told of those values whose key is its number, as many as there are places.
fn tell_values<C: Condenser, N: Numbers, K: Operand + Drop, V: Operand + Drop>(
    folds: &mut [C],
    numbers: &N,
    keys: K,
    cells: V,
    places: &[u64],
)
    requires folds { length folds.old ≡ length (N.numbers numbers.now) }
    requires keys { length places.now ≤ K.places keys }
    requires cells { length places.now ≤ V.places cells }
    requires room { All (λ c. C.counted c + length places.now ≤ max_points) folds.old }
    ensures stands { TakeIn C.stands folds.old folds.new (N.numbers numbers.now) places.now (K.value keys) (V.value cells) }
    ensures room { EachCountsMore C.counted (length places.now) folds.old folds.new }
    ensures length { length folds.new ≡ length folds.old }
{
    for j in 0..places.len() {
        let value = Outcome::Value(cells.value(j));
        tell_number(folds, numbers, places[j], keys.value(j), value);
    }
}

/// Each condenser is told of those cells of a column whose key is its number, at their places in the box: in one pass
/// what a fold under the condition that the key is the number tells each of them. Keys and cells without faults are
/// taken in one loop over their values.
pub fn add_keyed<C: Condenser, N: Numbers>(
    folds: &mut [C],
    numbers: &N,
    keys: &Column,
    column: &Column,
    places: &[u64],
)
    requires folds { length folds.old ≡ length (N.numbers numbers.now) }
    requires keys { length keys.now ≡ length column.now }
    requires places { length places.now ≡ length column.now }
    requires room { All (λ c. C.counted c + length column.now ≤ max_points) folds.old }
    ensures stands { TakeCells C.stands folds.old folds.new (N.numbers numbers.now) places.now keys.now column.now }
    ensures room { EachCountsMore C.counted (length column.now) folds.old folds.new }
    ensures length { length folds.new ≡ length folds.old }
{
    if let Seen::Each(own) = keys.seen() {
        if let Seen::Each(cells) = column.seen() {
            add_views(folds, numbers, &own, &cells, places);
            return;
        }
    }
    add_spread(folds, numbers, keys, column, places);
}

/// The same place by place, where one of them is kept as runs.
#[inline(never)]
fn add_spread<C: Condenser, N: Numbers>(
    folds: &mut [C],
    numbers: &N,
    keys: &Column,
    column: &Column,
    places: &[u64],
)
    requires folds { length folds.old ≡ length (N.numbers numbers.now) }
    requires keys { length keys.now ≡ length column.now }
    requires places { length places.now ≡ length column.now }
    requires room { All (λ c. C.counted c + length column.now ≤ max_points) folds.old }
    ensures stands { TakeCells C.stands folds.old folds.new (N.numbers numbers.now) places.now keys.now column.now }
    ensures room { EachCountsMore C.counted (length column.now) folds.old folds.new }
    ensures length { length folds.new ≡ length folds.old }
{
    let mut first = [0i64; MAX_PLACES];
    let mut second = [0i64; MAX_PLACES];
    let keys_seen = keys.seen();
    let column_seen = column.seen();
    let own = keys_seen.spread(&mut first);
    let cells = column_seen.spread(&mut second);
    add_views(folds, numbers, &own, &cells, places);
}

/// The same of outcomes at each place.
fn add_views<C: Condenser, N: Numbers>(
    folds: &mut [C],
    numbers: &N,
    keys: &View<'_>,
    column: &View<'_>,
    places: &[u64],
)
    requires folds { length folds.old ≡ length (N.numbers numbers.now) }
    requires keys { length keys.now ≡ length column.now }
    requires places { length places.now ≡ length column.now }
    requires room { All (λ c. C.counted c + length column.now ≤ max_points) folds.old }
    ensures stands { TakeCells C.stands folds.old folds.new (N.numbers numbers.now) places.now keys.now column.now }
    ensures room { EachCountsMore C.counted (length column.now) folds.old folds.new }
    ensures length { length folds.new ≡ length folds.old }
{
    match keys.form {
        Form::Values => {
            let values = keys.values;
            add_by_values(folds, numbers, keys, Each { values }, column, places);
        }
        Form::Narrow => {
            let values = keys.narrow;
            add_by_values(folds, numbers, keys, EachNarrow { values }, column, places);
        }
        _ => tell_cells(folds, numbers, keys, column, places),
    }
}

/// The same where the keys are these values.
fn add_by_values<C: Condenser, N: Numbers, K: Operand + Drop>(
    folds: &mut [C],
    numbers: &N,
    keys: &View<'_>,
    key_values: K,
    column: &View<'_>,
    places: &[u64],
)
    requires folds { length folds.old ≡ length (N.numbers numbers.now) }
    requires keys { HasValues (length column.now) (K.value key_values) keys.now }
    requires key_places { length column.now ≤ K.places key_values }
    requires places { length places.now ≡ length column.now }
    requires room { All (λ c. C.counted c + length column.now ≤ max_points) folds.old }
    ensures stands { TakeCells C.stands folds.old folds.new (N.numbers numbers.now) places.now keys.now column.now }
    ensures room { EachCountsMore C.counted (length column.now) folds.old folds.new }
    ensures length { length folds.new ≡ length folds.old }
{
    match column.form {
        Form::Values => {
            let values = column.values;
            tell_values(folds, numbers, key_values, Each { values }, places);
        }
        Form::Narrow => {
            let values = column.narrow;
            tell_values(folds, numbers, key_values, EachNarrow { values }, places);
        }
        Form::Same(o) => match o {
            Outcome::Value(value) => {
                tell_values(folds, numbers, key_values, Same { value }, places);
            }
            Outcome::Fault(_) => tell_cells(folds, numbers, keys, column, places),
        },
        Form::Mixed => tell_cells(folds, numbers, keys, column, places),
    }
}
