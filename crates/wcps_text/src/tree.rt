//! Syntax trees. Parentheses leave no node.

use crate::name::QueryName;
use crate::operator::{Aggregate, BinaryOperator, UnaryOperator};
use crate::token::Literal;

/// A whole query: `for` its bindings, `where` its condition, `return` its item.
#[derive(Debug, Drop)]
pub struct Query {
    pub bindings: Vec<Binding>,
    pub condition: Option<Box<Expr>>,
    pub item: Item,
}

/// A variable, and the coverages that it stands for in turn.
#[derive(Debug, Drop)]
pub struct Binding {
    pub variable: QueryName,
    pub coverages: Vec<QueryName>,
}

/// What a query returns: `encode(e, csv)` or `e`.
#[derive(Debug, Drop)]
pub enum Item {
    Encode(Box<Expr>),
    Plain(Box<Expr>),
}

/// An expression.
#[cycle(tree)]
#[derive(Debug, Drop)]
pub enum Expr {
    Number(Literal),
    Truth(bool),
    /// A name with or without `$`.
    Variable(QueryName),
    Unary(UnaryOperator, Box<Expr>),
    /// `l op r`, or `bit(l, r)`
    Binary(BinaryOperator, Box<Expr>, Box<Expr>),
    /// `add(e)` and its kin: all aggregates but `Product` are spelled.
    Reduce(Aggregate, Box<Expr>),
    /// `{a: e; b: e}`
    Record(Vec<Part>),
    /// `coverage name over iterators value list <items>`. The name has no effect and leaves no node.
    ValueList {
        iterators: Vec<Iter>,
        items: Vec<ListItem>,
    },
    /// `e.f`
    Field(Box<Expr>, QueryName),
    /// `e[x(1:2), y(3)]`
    Brackets(Box<Expr>, Vec<Sub>),
    /// `coverage name over iterators values body`. The name has no effect and leaves no node.
    Coverage {
        iterators: Vec<Iter>,
        body: Box<Expr>,
    },
    /// `condense op over iterators where condition using body`: all aggregates but `Count` and `Average` are spelled.
    Condense {
        op: Aggregate,
        iterators: Vec<Iter>,
        condition: Option<Box<Expr>>,
        body: Box<Expr>,
    },
}

/// One part of `{..}`: the field's name and its value.
#[cycle(tree)]
#[derive(Debug, Drop)]
pub struct Part {
    pub name: QueryName,
    pub value: Expr,
}

/// One part of a bracket: an axis, and what of it.
#[cycle(tree)]
#[derive(Debug, Drop)]
pub struct Sub {
    pub axis: QueryName,
    pub place: Place,
}

/// An interval of an axis, or a position on it.
#[cycle(tree)]
#[derive(Debug, Drop)]
pub enum Place {
    Trim(Interval),
    At(Box<Expr>),
}

/// Both bounds, inclusive, or the interval of an axis of a coverage: `imageCrsDomain(e, axis)`.
#[cycle(tree)]
#[derive(Debug, Drop)]
pub enum Interval {
    Bounds(i64, i64),
    Domain(Box<Expr>, QueryName),
}

/// A variable that goes over an interval of an axis.
#[cycle(tree)]
#[derive(Debug, Drop)]
pub struct Iter {
    pub variable: QueryName,
    pub axis: QueryName,
    pub interval: Interval,
}

/// One value of a value list.
#[derive(Clone, Copy, Debug, PartialEq, Eq)]
pub enum ListItem {
    Int(i64),
    Truth(bool),
}
