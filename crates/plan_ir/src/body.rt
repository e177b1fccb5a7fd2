//! Bodies: what a plan evaluates at each point of a box.

use arr_core::Domain;
use wcps_text::{Aggregate, BinaryOperator, UnaryOperator};

/// What stands for a coordinate: a constant, or the variable of that level.
#[derive(Clone, Copy, PartialEq, Eq)]
pub enum Index {
    Const(i32),
    Var(usize),
}

/// The coordinates from `lo` to `hi`, both inclusive.
#[derive(Clone, Copy, PartialEq, Eq)]
pub struct Interval {
    pub lo: i32,
    pub hi: i32,
}

/// What gives a value at a point. Its variables are the coordinates of the boxes and binds around it, outermost first:
/// a variable is its level among them, from 0. A Boolean is 0 or 1.
#[cycle(body)]
#[derive(Drop)]
pub enum Body {
    /// A number.
    Lit(i64),
    /// The variable of that level.
    Var(usize),
    /// The outcome of the pass at that place, a fault too.
    Reg(usize),
    /// An operation on the operand.
    Op1(UnaryOperator, Box<Body>),
    /// An operation on both operands, the left one first.
    Op2(BinaryOperator, Box<Body>, Box<Body>),
    /// The cell of a field, by its place in its coverage, at the point of the indexes: one for each axis. The coverage
    /// is its place among those that the combination chooses.
    Read {
        coverage: usize,
        field: usize,
        indexes: Vec<Index>,
    },
    /// The item of a list, which has one for each point of the domain in row-major order, at the point of the indexes.
    Table {
        domain: Domain,
        items: Vec<i64>,
        indexes: Vec<Index>,
    },
    /// The body under one more variable, which is the position's value: it lies in the interval.
    Bind {
        position: Box<Body>,
        interval: Interval,
        body: Box<Body>,
    },
    /// What becomes of the values at all points of a domain.
    Fold(Box<Fold>),
}

/// What becomes of the values of the body at those points of a domain where the condition is true, or at all of them.
/// The coordinates of the domain are further variables in both.
#[cycle(body)]
#[derive(Drop)]
pub struct Fold {
    pub op: Aggregate,
    pub domain: Domain,
    pub condition: Option<Body>,
    pub body: Body,
}
