//! Folds of zones. An equation says whether a point lies in the zone of a place: that a body of the fold's own points
//! equals a key of the places around it. It is the fold's condition, or stands in its body, as a factor does.

ghost use Rattle.std.specs.Prelude.{◌≡◌, ◌*◌, ◌≤◌, IfSome, IsTrue, nat_le};
ghost use Rattle.arr_core.specs.Domains.{count};
ghost use Rattle.arr_core.specs.Limits.{max_tile};
ghost use Rattle.wcps_text.specs.declared.operator.BinaryOperator.TheVariants.{Equal};
ghost use Rattle.plan_ir.specs.Bodies.{body_view, condition_view, fold_view, always, op2};
ghost use Rattle.plan_ir.specs.Variables.{is_from, is_below};
ghost use Rattle.tile_columns.specs.Keys.{IsFoundKey};
ghost use Rattle.tile_columns.specs.Zones.{HasKey, HasZones, AreZonesOf};

use crate::frame::Frame;
use crate::shapes::Shape;
use crate::sides::side_of;
use arr_core::Domain;
use plan_ir::{Body, Fold, is_below, is_from};
use wcps_text::BinaryOperator;

/// Where the equation of a fold of zones stands.
#[derive(Clone, Copy)]
pub(crate) enum Role {
    /// It is the condition: a point of another zone adds nothing.
    Condition,
    /// It stands in the body, and there is no condition: a point of another zone adds what the body gives there.
    Within(Shape),
}

/// What is found of the condition and the body of a fold of zones.
#[derive(Clone, Copy)]
pub struct Zones {
    /// The key of the places is the left operand of the equation, and the body of the fold's own points the right one.
    pub(crate) key_first: bool,
    pub(crate) role: Role,
}

/// How many pairs of a place and a point of a box take longer than to list the numbers among the keys.
const MANY: u64 = 4096;

/// Whether there are so many pairs of a place and a point of a box.
fn are_many(places: usize, area: &Domain) -> bool
    requires { places ≤ max_tile }
    ensures { result ≡ nat_le MANY (places * count area.now) }
{
    places as u64 * area.points() >= MANY
}

/// What is found of a fold of zones, where there are several places and many pairs of a place and a point of its box.
pub(crate) fn zones_of(fold: &Fold, frame: &Frame) -> Option<Zones>
    ensures { IfSome result (AreZonesOf fold.now frame.now) }
{
    let places = frame.places();
    if places < 2 {
        return None;
    }
    if !are_many(places, &fold.domain) {
        return None;
    }
    zones_in(fold, frame.depth())
}

/// What is found of a fold, under so many variables of the places around it.
fn zones_in(fold: &Fold, depth: usize) -> Option<Zones>
    ensures { IfSome result (HasZones depth (condition_view fold.now.condition) (body_view fold.now.body)) }
{
    match &fold.condition {
        None => in_body(&fold.body, depth),
        Some(condition) => in_condition(condition, &fold.body, depth),
    }
}

/// What is found where the equation is the condition, under so many variables of the places around the fold.
fn in_condition(condition: &Body, body: &Body, depth: usize) -> Option<Zones>
    ensures { IfSome result (HasZones depth (body_view condition.now) (body_view body.now)) }
{
    if !is_from(depth, body) {
        return None;
    }
    match sides(condition, depth) {
        None => None,
        Some(key_first) => Some(Zones {
            key_first,
            role: Role::Condition,
        }),
    }
}

/// What is found where the equation stands in the body.
fn in_body(body: &Body, depth: usize) -> Option<Zones>
    ensures { IfSome result (HasZones depth always (body_view body.now)) }
{
    match sides(body, depth) {
        None => in_operands(body, depth),
        Some(key_first) => Some(Zones {
            key_first,
            role: Role::Within(Shape::Alone),
        }),
    }
}

/// What is found where the equation is an operand of the body.
fn in_operands(body: &Body, depth: usize) -> Option<Zones>
    ensures { IfSome result (HasZones depth always (body_view body.now)) }
{
    match body {
        Body::Op2(op, l, r) => either_operand(*op, l, r, depth),
        _ => None,
    }
}

/// What is found where the equation is one of the two operands of an operation.
fn either_operand(op: BinaryOperator, l: &Body, r: &Body, depth: usize) -> Option<Zones>
    ensures { IfSome result (HasZones depth always (op2 op (body_view l.now) (body_view r.now))) }
{
    match sides_beside(l, r, depth) {
        Some(key_first) => Some(Zones {
            key_first,
            role: Role::Within(Shape::First(op)),
        }),
        None => match sides_beside(r, l, depth) {
            Some(key_first) => Some(Zones {
                key_first,
                role: Role::Within(Shape::Second(op)),
            }),
            None => None,
        },
    }
}

/// Which side of an equation is the key, where another body uses none of so many variables.
fn sides_beside(equation: &Body, other: &Body, depth: usize) -> Option<bool>
    ensures sides { IfSome result (HasKey depth (body_view equation.now)) }
    ensures other { IfSome result (λ _. IsTrue (is_from depth (body_view other.now))) }
{
    if !is_from(depth, other) {
        return None;
    }
    sides(equation, depth)
}

/// Which side of an equation is the key, under so many variables of the places around the fold.
fn sides(equation: &Body, depth: usize) -> Option<bool>
    ensures { IfSome result (HasKey depth (body_view equation.now)) }
{
    match equation {
        Body::Op2(op, l, r) => match op {
            BinaryOperator::Equal => either_side(l, r, depth),
            _ => None,
        },
        _ => None,
    }
}

/// Which of the two operands of an equality is the key.
fn either_side(l: &Body, r: &Body, depth: usize) -> Option<bool>
    ensures { IfSome result (HasKey depth (op2 Equal (body_view l.now) (body_view r.now))) }
{
    if are_sides(l, r, depth) {
        return Some(false);
    }
    if are_sides(r, l, depth) {
        return Some(true);
    }
    None
}

/// Whether the first of two bodies uses none of so many variables, and the second one uses these alone.
fn are_sides(own: &Body, key: &Body, depth: usize) -> bool
    ensures own { IsTrue result → IsTrue (is_from depth (body_view own.now)) }
    ensures key { IsTrue result → IsTrue (is_below depth (body_view key.now)) }
{
    if !is_from(depth, own) {
        return false;
    }
    is_below(depth, key)
}

/// The body on which a fold of zones depends alone, how often its evaluation fetches no more than that of the fold
/// once, and where it was found.
#[derive(Clone, Copy)]
pub struct Key<'a> {
    pub body: &'a Body,
    pub times: u64,
    pub zones: Zones,
    pub(crate) fold: &'a Fold,
}

/// The key of a body that is a fold of zones, under so many variables of the places around it.
pub fn key_of(body: &Body, depth: usize) -> Option<Key<'_>>
    ensures { IfSome result (IsFoundKey depth (body_view body.now)) }
{
    match body {
        Body::Fold(fold) => key_in(fold, depth),
        _ => None,
    }
}

/// The key of a fold of zones.
fn key_in(fold: &Fold, depth: usize) -> Option<Key<'_>>
    ensures { IfSome result (IsFoundKey depth (fold_view fold.now)) }
{
    let zones = zones_in(fold, depth)?;
    Some(Key {
        body: side_of(fold, zones, zones.key_first),
        times: fold.domain.points(),
        zones,
        fold,
    })
}
