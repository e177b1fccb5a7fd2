//! Folds of zones, told part by part: one pass over the box tells the accumulators of all places.

ghost use Rattle.std.specs.Prelude.{◌≡◌, ℕ, ◌+◌, ◌-◌, ◌<◌, ◌≤◌, [], length, map, IfSome, IfOk, OnOk, IsTrue};
ghost use Rattle.arr_core.specs.Domains.{count};
ghost use Rattle.arr_core.specs.Limits.{max_points, max_tile};
ghost use Rattle.wcps_mean.specs.declared.cell.Outcome.TheVariants.{Value};
ghost use Rattle.tile_kernel.specs.Columns.{outcome_at};
ghost use Rattle.tile_kernel.specs.Keyed.{number_at};
ghost use Rattle.tile_kernel.specs.Standing.{Stands, AreOf, HaveAtMost, EachTakesIn};
ghost use Rattle.tile_columns.specs.Blanks.{skips_zeros};
ghost use Rattle.tile_columns.specs.Condensing.{HasRoomAt};
ghost use Rattle.tile_columns.specs.Zones.{compared, IsWhole, HasBlanks, IsSharable, AreKeyed, AreCounted, AreShared, TakesInKey, added_with, added_for};

use crate::blanks::{count_all_zeros, skips_zeros};
use crate::folds::merge_at;
use crate::scratch::Scratch;
use crate::shapes::{Shape, are_zeros, join, join_same};
use crate::zones::Role;
use std::alloc::{AllocError, Global};
use tile_kernel::{
    Accumulator, Column, Numbers, Slots, condense_keyed, fold_column, fold_column_where,
    operate_columns,
};
use wcps_mean::Outcome;
use wcps_text::{Aggregate, BinaryOperator};

/// The keys of places, and different numbers among them.
#[derive(Drop)]
pub(crate) struct Keys {
    pub column: Column,
    pub slots: Slots,
}

/// The keys of places.
pub(crate) fn keys_of(alloc: Global, column: Column) -> Result<Keys, AllocError>
    ensures { IfOk result (λ keys. keys.column ≡ column) }
{
    let slots = Slots::of(alloc, &column)?;
    Ok(Keys { column, slots })
}

/// What the points of a part of a fold's box have: the outcomes that are compared with a key, those of the fold's other
/// body, and their places in the box.
#[derive(Clone, Copy)]
pub(crate) struct Seen<'a> {
    pub own: &'a Column,
    pub column: &'a Column,
    pub ranks: &'a [u64],
    /// The key is the left operand of the equation.
    pub key_first: bool,
    pub role: Role,
}

/// Columns that comparisons and operations write to.
#[derive(Drop)]
struct Work {
    same: Column,
    chosen: Column,
}

/// Whether each point of a part gives 0 where the equation is false, and the condenser skips zeros.
fn has_blanks(op: Aggregate, shape: Shape, seen: &Seen<'_>, work: &mut Work) -> bool
    ensures { IsTrue result → HasBlanks op shape seen.now }
{
    if !skips_zeros(op) {
        return false;
    }
    join_same(
        shape,
        Outcome::Value(0),
        seen.column,
        &mut work.same,
        &mut work.chosen,
    );
    are_zeros(&work.chosen)
}

/// Whether one pass over a part tells what its points add for each number.
fn is_sharable(op: Aggregate, seen: &Seen<'_>, work: &mut Work) -> bool
    ensures { IsTrue result → IsSharable op seen.now }
{
    match seen.role {
        Role::Condition => true,
        Role::Within(shape) => has_blanks(op, shape, seen, work),
    }
}

/// The numbers for which one pass over a part is made: all of these, or none of them.
fn shared_numbers<'a>(
    op: Aggregate,
    all: &'a Slots,
    none: &'a Slots,
    seen: &Seen<'_>,
    work: &mut Work,
) -> &'a Slots
    requires { none.now ≡ [] }
    ensures { 0 < length result.now → IsSharable op seen.now }
{
    if is_sharable(op, seen, work) {
        return all;
    }
    none
}

/// The accumulators of different numbers, each told of the cells of a column whose own key is its number.
fn keyed_folds(
    alloc: Global,
    op: Aggregate,
    slots: &Slots,
    own: &Column,
    column: &Column,
    ranks: &[u64],
) -> Result<Vec<Accumulator>, AllocError>
    requires own { length own.now ≡ length column.now }
    requires ranks { length ranks.now ≡ length column.now }
    ensures { IfOk result (λ v. AreKeyed op slots.now ranks.now own.now column.now v.items) }
{
    condense_keyed(alloc, op, slots, own, column, ranks)
}

/// The accumulators of different numbers, each told of the points of a part that have its number, and of those that
/// have another one where these add 0.
fn blank_folds(
    alloc: Global,
    op: Aggregate,
    slots: &Slots,
    seen: &Seen<'_>,
    hits: &Column,
) -> Result<Vec<Accumulator>, AllocError>
    requires whole { IsWhole seen.now }
    requires hits { length hits.now ≡ length seen.now.column.now }
    requires op { 0 < length slots.now → IsTrue (skips_zeros op) }
    ensures { IfOk result (λ v. AreCounted op slots.now seen.now hits.now v.items) }
{
    let mut folds = keyed_folds(alloc, op, slots, seen.own, hits, seen.ranks)?;
    count_all_zeros(&mut folds, seen.column.len() as u32);
    Ok(folds)
}

/// The accumulators of different numbers, each told what the points of a part add for its number.
fn shared_folds(
    alloc: Global,
    op: Aggregate,
    slots: &Slots,
    seen: &Seen<'_>,
    work: &mut Work,
) -> Result<Vec<Accumulator>, AllocError>
    requires whole { IsWhole seen.now }
    requires sharable { 0 < length slots.now → IsSharable op seen.now }
    ensures { IfOk result (λ v. AreShared op slots.now seen.now v.items) }
{
    match seen.role {
        Role::Condition => keyed_folds(alloc, op, slots, seen.own, seen.column, seen.ranks),
        Role::Within(shape) => {
            join_same(
                shape,
                Outcome::Value(1),
                seen.column,
                &mut work.same,
                &mut work.chosen,
            );
            blank_folds(alloc, op, slots, seen, &work.chosen)
        }
    }
}

/// The place of a key among different numbers.
fn place_of(slots: &Slots, key: Outcome) -> Option<usize>
    ensures within { IfSome result (λ j. j < length slots.now) }
    ensures key { IfSome result (λ j. key ≡ Value (number_at slots.now j)) }
{
    match key {
        Outcome::Value(z) => slots.place_of(z),
        Outcome::Fault(_) => None,
    }
}

/// Makes `chosen` what each outcome of a column is compared with a key.
fn compare(own: &Column, key: Outcome, key_first: bool, same: &mut Column, chosen: &mut Column)
    ensures { chosen.new ≡ map (compared key_first key) own.now }
{
    same.fill(own.len(), key);
    if key_first {
        operate_columns(BinaryOperator::Equal, same, own, chosen);
        return;
    }
    operate_columns(BinaryOperator::Equal, own, same, chosen);
}

/// The accumulator of what the points of a part add for a key, each compared with it by itself; faults count.
fn fold_equal(op: Aggregate, key: Outcome, seen: &Seen<'_>, work: &mut Work) -> Accumulator
    requires { IsWhole seen.now }
    ensures stands { Stands result (added_with seen.now key) }
    ensures op { result.running.op ≡ op }
    ensures count { result.running.count ≤ length seen.now.column.now }
{
    compare(
        seen.own,
        key,
        seen.key_first,
        &mut work.same,
        &mut work.chosen,
    );
    match seen.role {
        Role::Condition => fold_column_where(op, &work.chosen, seen.column, seen.ranks),
        Role::Within(shape) => {
            join(shape, &work.chosen, seen.column, &mut work.same);
            fold_column(op, &work.same, seen.ranks)
        }
    }
}

/// Accumulators of different numbers, each told what the points of a part add for its number.
#[derive(Clone, Copy)]
pub(crate) struct Pooled<'a> {
    pub op: Aggregate,
    pub keys: &'a Keys,
    pub slots: &'a Slots,
    pub seen: &'a Seen<'a>,
    pub shared: &'a [Accumulator],
}

/// Tells the accumulator at a place what the points of a part add for its key: what that of its number was told, or by
/// itself where there is none.
fn tell_place(folds: &mut [Accumulator], place: usize, pool: &Pooled<'_>, work: &mut Work)
    requires seen { IsWhole pool.now.seen.now }
    requires place { place < length folds.old }
    requires keys { length folds.old ≡ length pool.now.keys.now.column }
    requires shared { AreShared pool.now.op pool.now.slots.now pool.now.seen.now pool.now.shared.now }
    requires op { AreOf pool.now.op folds.old }
    requires room { HasRoomAt place (length pool.now.seen.now.column.now) folds.old }
    ensures { TakesInKey place pool.now folds.old folds.new }
{
    let shared = pool.shared;
    let key = pool.keys.column.at(place);
    match place_of(pool.slots, key) {
        Some(j) => merge_at(folds, place, &shared[j]),
        None => {
            let found = fold_equal(pool.op, key, pool.seen, work);
            merge_at(folds, place, &found);
        }
    }
}

/// Tells the accumulators of all places what the points of a part add for their keys.
fn tell_places(folds: &mut [Accumulator], pool: &Pooled<'_>, work: &mut Work)
    requires seen { IsWhole pool.now.seen.now }
    requires keys { length folds.old ≡ length pool.now.keys.now.column }
    requires shared { AreShared pool.now.op pool.now.slots.now pool.now.seen.now pool.now.shared.now }
    requires op { AreOf pool.now.op folds.old }
    requires few { length pool.now.seen.now.column.now ≤ max_tile }
    requires room { HaveAtMost (max_points - length pool.now.seen.now.column.now) folds.old }
    ensures told { EachTakesIn folds.old folds.new (added_for pool.now) }
    ensures room { (n : ℕ) → HaveAtMost n folds.old → HaveAtMost (n + length pool.now.seen.now.column.now) folds.new }
    ensures op { AreOf pool.now.op folds.new }
{
    for place in 0..folds.len() {
        tell_place(folds, place, pool, work);
    }
}

/// Tells accumulators, one for each key, what the points of a part add for their keys.
pub(crate) fn tell_seen(
    op: Aggregate,
    folds: &mut [Accumulator],
    keys: &Keys,
    seen: &Seen<'_>,
    scratch: &mut Scratch,
) -> Result<(), AllocError>
    requires seen { IsWhole seen.now }
    requires keys { length folds.old ≡ length keys.now.column }
    requires op { AreOf op folds.old }
    requires room { HaveAtMost (max_points - length seen.now.column.now) folds.old }
    ensures told { OnOk result (EachTakesIn folds.old folds.new (λ k. added_with seen.now (outcome_at keys.now.column k))) }
    ensures room { OnOk result ((n : ℕ) → HaveAtMost n folds.old → HaveAtMost (n + length seen.now.column.now) folds.new) }
    ensures op { OnOk result (AreOf op folds.new) }
{
    let _few = seen.column.len();
    let mut work = Work {
        same: scratch.take_column()?,
        chosen: scratch.take_column()?,
    };
    let none = Slots::new(scratch.alloc(), 0, 0)?;
    let slots = shared_numbers(op, &keys.slots, &none, seen, &mut work);
    let shared = shared_folds(scratch.alloc(), op, slots, seen, &mut work)?;
    let pool = Pooled {
        op,
        keys,
        slots,
        seen,
        shared: &shared,
    };
    tell_places(folds, &pool, &mut work);
    scratch.give_back(work.same);
    scratch.give_back(work.chosen);
    Ok(())
}
