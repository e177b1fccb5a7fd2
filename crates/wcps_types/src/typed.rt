//! Typed trees. Names are resolved: a coverage is the place of its variable in the `for` list, a field its place in the
//! coverage, an iterator its level among those in scope (outermost first, from 0), an axis its place in the domain. A
//! Boolean is 0 or 1. Each expression has one node, however many fields its value has, so a tree is as large as its
//! text.

use arr_core::Domain;
use wcps_text::{Aggregate, BinaryOperator, UnaryOperator};

/// What gives the fields of a value at each point of its domain, under the iterators in scope. Which field is meant is
/// told where a node is asked for; all but `Coverage`, `Record`, `Bracket` and `Slice` have one, whose place is 0.
#[derive(Drop)]
pub enum Node {
    /// A number, or 1 for true and 0 for false.
    Number(i64),
    /// The number that the iterator of that level is bound to.
    Iterator(usize),
    /// The cell at the point, of each field of the coverage that the variable at that place stands for.
    Coverage(usize),
    /// An operation on the operand at the point.
    Unary(UnaryOperator, Box<Node>),
    /// An operation on both operands at the point, the left one first.
    Binary(BinaryOperator, Box<Node>, Box<Node>),
    /// A scalar beside a value with axes: taken at the empty point.
    Scalar(Box<Node>),
    /// `{a: e; ..}`: a field for each part, which is the only field of that part at the point.
    Record(Vec<Node>),
    /// The field at that place alone: the same at the point.
    Select(Box<Node>, usize),
    /// A bracket: the same at the point, which lies in a domain with narrower intervals. The slices of the bracket
    /// stand directly below it.
    Bracket(Box<Node>),
    /// Each field at a coordinate of one axis, which lies from `lo` to `hi` and is taken out of the domain. `axis` is
    /// its place among the axes of `value`. The position is a scalar. Of several positions in a bracket the first one
    /// stands outermost.
    Slice {
        value: Box<Node>,
        axis: usize,
        lo: i32,
        hi: i32,
        position: Box<Node>,
    },
    /// `values e`: a scalar, in whose scope the coordinates of the point are further iterators.
    Array(Box<Node>),
    /// `value list`: the item at the place of the point in row-major order.
    List {
        domain: Box<Domain>,
        items: Vec<i64>,
    },
    /// `condense .. using body`: of a scalar over the points of a box, whose coordinates are further iterators in it.
    Condense {
        op: Aggregate,
        domain: Box<Domain>,
        body: Box<Node>,
    },
    /// `condense .. where condition using body`: the same of the points where the condition is true, a scalar too.
    CondenseWhere {
        op: Aggregate,
        domain: Box<Domain>,
        condition: Box<Node>,
        body: Box<Node>,
    },
    /// `add` and its kin: of the values of `body` at all points of its domain.
    Reduce {
        op: Aggregate,
        domain: Box<Domain>,
        body: Box<Node>,
    },
}

/// What a query returns: a value on a domain, which has no axis where the item is a scalar. For each field in order
/// `booleans` tells whether it is Boolean (else it is an integer); the node gives all of them.
#[derive(Drop)]
pub struct TypedItem {
    pub domain: Domain,
    pub booleans: Vec<bool>,
    pub node: Box<Node>,
}

/// A query over its variables, each of which stands for a coverage with a given domain and given fields. The condition
/// is the query's `where`, a scalar.
#[derive(Drop)]
pub struct Tree {
    pub condition: Option<Box<Node>>,
    pub item: TypedItem,
}
