//! Trees that grow while tokens are read, no higher than a query may be.
//!
//! A tree that would be higher is let go at once, and only that it is too high is kept: so no tree that lives is
//! ever higher than the limit, however long the chain of operators in the text is.

ghost use Rattle.std.specs.Prelude.{◌≡◌, ◌≤◌, ◌<◌, ◌+◌, ◌++◌, ◌∷◌, [], IfOk, IfSome, None};
ghost use Rattle.wcps_text.specs.Tree as tree;
ghost use Rattle.wcps_text.specs.Tree.{Tree, view};
ghost use Rattle.wcps_text.specs.Limits.{max_height, height};
ghost use Rattle.wcps_parse.specs.Reading.{parts_from, subs_from, iters_from};
ghost use Rattle.wcps_parse.specs.Kinds.{FitTree, FitPart, FitParts, FitSub, FitSubs, FitPlace, FitInterval, FitIter, FitIters, FitCondition, FitItem, FitQuery, FitCondense, Makes, Joins, query_of};
ghost use Rattle.wcps_parse.specs.Prefixes.{wrapped};

use std::alloc::{AllocError, Global};
use wcps_text::{
    Aggregate, BinaryOperator, Binding, Expr, Interval, Item, Iter, ListItem, Part, Place, Query,
    QueryName, Sub, UnaryOperator,
};

/// The greatest height of a query's tree: `max_height`.
const MAX_HEIGHT: u8 = 64;

/// What was read: a thing and how high it is, or only that it is too high.
#[derive(Drop)]
pub enum Grown<T> {
    Fits(T, u8),
    High,
}

/// The height of what stands on parts of that height, if it is not too high.
fn above(height: u8) -> Option<u8>
    ensures some { IfSome result (λ h. (h ≡ height + 1) × (h ≤ max_height)) }
    ensures none { result ≡ None → max_height ≤ height }
{
    if height < MAX_HEIGHT {
        Some(height + 1)
    } else {
        None
    }
}

/// Parts of `{..}` and one more.
pub fn push_part(list: Grown<Vec<Part>>, one: Grown<Part>) -> Result<Grown<Vec<Part>>, AllocError>
    ensures { IfOk result (Joins (λ xs x. xs ++ x ∷ []) (FitParts list) (FitPart one) FitParts) }
{
    let (Grown::Fits(mut list, height), Grown::Fits(one, other)) = (list, one) else {
        return Ok(Grown::High);
    };
    list.push(one)?;
    Ok(Grown::Fits(list, height.max(other)))
}

/// Parts of a bracket and one more.
pub fn push_sub(list: Grown<Vec<Sub>>, one: Grown<Sub>) -> Result<Grown<Vec<Sub>>, AllocError>
    ensures { IfOk result (Joins (λ xs x. xs ++ x ∷ []) (FitSubs list) (FitSub one) FitSubs) }
{
    let (Grown::Fits(mut list, height), Grown::Fits(one, other)) = (list, one) else {
        return Ok(Grown::High);
    };
    list.push(one)?;
    Ok(Grown::Fits(list, height.max(other)))
}

/// Iterators and one more.
pub fn push_iter(list: Grown<Vec<Iter>>, one: Grown<Iter>) -> Result<Grown<Vec<Iter>>, AllocError>
    ensures { IfOk result (Joins (λ xs x. xs ++ x ∷ []) (FitIters list) (FitIter one) FitIters) }
{
    let (Grown::Fits(mut list, height), Grown::Fits(one, other)) = (list, one) else {
        return Ok(Grown::High);
    };
    list.push(one)?;
    Ok(Grown::Fits(list, height.max(other)))
}

/// A number, a truth value or a variable.
pub fn leaf(alloc: Global, tree: Expr) -> Result<Grown<Box<Expr>>, AllocError>
    ensures { IfOk result (λ g. (e : Tree) → view tree ≡ e → height e ≡ 1 → FitTree g e) }
{
    let tree = Box::new(alloc, tree)?;
    Ok(Grown::Fits(tree, 1))
}

/// `op e`
pub fn unary(
    alloc: Global,
    op: UnaryOperator,
    operand: Grown<Box<Expr>>,
) -> Result<Grown<Box<Expr>>, AllocError>
    ensures { IfOk result (Makes (tree.unary op) (FitTree operand) FitTree) }
{
    let Grown::Fits(operand, height) = operand else {
        return Ok(Grown::High);
    };
    let Some(height) = above(height) else {
        return Ok(Grown::High);
    };
    let tree = Box::new(alloc, Expr::Unary(op, operand))?;
    Ok(Grown::Fits(tree, height))
}

/// The operators before the operand, the first one outermost.
pub fn prefixed(
    alloc: Global,
    mut ops: Vec<UnaryOperator>,
    operand: Grown<Box<Expr>>,
) -> Result<Grown<Box<Expr>>, AllocError>
    ensures { IfOk result (Makes (wrapped ops.items) (FitTree operand) FitTree) }
{
    let mut whole = operand;
    while let Some(op) = ops.pop() {
        whole = unary(alloc, op, whole)?;
    }
    Ok(whole)
}

/// `a op b`, or `bit(a, b)`
pub fn binary(
    alloc: Global,
    op: BinaryOperator,
    left: Grown<Box<Expr>>,
    right: Grown<Box<Expr>>,
) -> Result<Grown<Box<Expr>>, AllocError>
    ensures { IfOk result (Joins (tree.binary op) (FitTree left) (FitTree right) FitTree) }
{
    let (Grown::Fits(left, one), Grown::Fits(right, other)) = (left, right) else {
        return Ok(Grown::High);
    };
    let Some(height) = above(one.max(other)) else {
        return Ok(Grown::High);
    };
    let tree = Box::new(alloc, Expr::Binary(op, left, right))?;
    Ok(Grown::Fits(tree, height))
}

/// A reduction of a value.
pub fn reduce(
    alloc: Global,
    op: Aggregate,
    operand: Grown<Box<Expr>>,
) -> Result<Grown<Box<Expr>>, AllocError>
    ensures { IfOk result (Makes (tree.reduce op) (FitTree operand) FitTree) }
{
    let Grown::Fits(operand, height) = operand else {
        return Ok(Grown::High);
    };
    let Some(height) = above(height) else {
        return Ok(Grown::High);
    };
    let tree = Box::new(alloc, Expr::Reduce(op, operand))?;
    Ok(Grown::Fits(tree, height))
}

/// `e.name`
pub fn field(
    alloc: Global,
    value: Grown<Box<Expr>>,
    name: &str,
) -> Result<Grown<Box<Expr>>, AllocError>
    ensures { IfOk result (Makes (λ e. tree.field e name.now) (FitTree value) FitTree) }
{
    let Grown::Fits(value, height) = value else {
        return Ok(Grown::High);
    };
    let Some(height) = above(height) else {
        return Ok(Grown::High);
    };
    let name = QueryName::new(alloc, name)?;
    let tree = Box::new(alloc, Expr::Field(value, name))?;
    Ok(Grown::Fits(tree, height))
}

/// `e[..]`
#[tactic(auto, using(crate::proofs::Trees::brackets_shown, crate::proofs::Trees::subs_high))]
pub fn brackets(
    alloc: Global,
    value: Grown<Box<Expr>>,
    subs: Grown<Vec<Sub>>,
) -> Result<Grown<Box<Expr>>, AllocError>
    ensures { IfOk result (Joins (λ e ss. tree.brackets e (subs_from ss)) (FitTree value) (FitSubs subs) FitTree) }
{
    let (Grown::Fits(value, one), Grown::Fits(subs, other)) = (value, subs) else {
        return Ok(Grown::High);
    };
    let Some(height) = above(one.max(other)) else {
        return Ok(Grown::High);
    };
    let tree = Box::new(alloc, Expr::Brackets(value, subs))?;
    Ok(Grown::Fits(tree, height))
}

/// `{..}`
#[tactic(auto, using(crate::proofs::Trees::record_shown, crate::proofs::Trees::parts_high))]
pub fn record(alloc: Global, parts: Grown<Vec<Part>>) -> Result<Grown<Box<Expr>>, AllocError>
    ensures { IfOk result (Makes (λ ps. tree.parts (parts_from ps)) (FitParts parts) FitTree) }
{
    let Grown::Fits(parts, height) = parts else {
        return Ok(Grown::High);
    };
    let Some(height) = above(height) else {
        return Ok(Grown::High);
    };
    let tree = Box::new(alloc, Expr::Record(parts))?;
    Ok(Grown::Fits(tree, height))
}

/// A coverage whose values are listed.
#[tactic(auto, using(crate::proofs::Trees::iters_high))]
pub fn value_list(
    alloc: Global,
    iterators: Grown<Vec<Iter>>,
    items: Vec<ListItem>,
) -> Result<Grown<Box<Expr>>, AllocError>
    ensures { IfOk result (Makes (λ is. tree.value_list (iters_from is) items.items) (FitIters iterators) FitTree) }
{
    let Grown::Fits(iterators, height) = iterators else {
        return Ok(Grown::High);
    };
    let Some(height) = above(height) else {
        return Ok(Grown::High);
    };
    let tree = Box::new(alloc, Expr::ValueList { iterators, items })?;
    Ok(Grown::Fits(tree, height))
}

/// A coverage whose values are those of a body.
#[tactic(auto, using(crate::proofs::Trees::coverage_shown, crate::proofs::Trees::iters_high))]
pub fn coverage(
    alloc: Global,
    iterators: Grown<Vec<Iter>>,
    body: Grown<Box<Expr>>,
) -> Result<Grown<Box<Expr>>, AllocError>
    ensures { IfOk result (Joins (λ is. tree.coverage (iters_from is)) (FitIters iterators) (FitTree body) FitTree) }
{
    let (Grown::Fits(iterators, one), Grown::Fits(body, other)) = (iterators, body) else {
        return Ok(Grown::High);
    };
    let Some(height) = above(one.max(other)) else {
        return Ok(Grown::High);
    };
    let tree = Box::new(alloc, Expr::Coverage { iterators, body })?;
    Ok(Grown::Fits(tree, height))
}

/// A condenser.
#[tactic(auto, using(crate::proofs::Trees::iters_high))]
pub fn condense(
    alloc: Global,
    op: Aggregate,
    iterators: Grown<Vec<Iter>>,
    condition: Grown<Option<Box<Expr>>>,
    body: Grown<Box<Expr>>,
) -> Result<Grown<Box<Expr>>, AllocError>
    ensures { IfOk result (FitCondense op iterators condition body) }
{
    let (Grown::Fits(iterators, one), Grown::Fits(condition, other)) = (iterators, condition) else {
        return Ok(Grown::High);
    };
    let Grown::Fits(body, height) = body else {
        return Ok(Grown::High);
    };
    let Some(height) = above(one.max(other.max(height))) else {
        return Ok(Grown::High);
    };
    let tree = Expr::Condense {
        op,
        iterators,
        condition,
        body,
    };
    let tree = Box::new(alloc, tree)?;
    Ok(Grown::Fits(tree, height))
}

/// What follows `where`.
pub fn condition(test: Grown<Box<Expr>>) -> Grown<Option<Box<Expr>>>
    ensures { Makes tree.only (FitTree test) FitCondition result }
{
    match test {
        Grown::Fits(test, height) => Grown::Fits(Some(test), height),
        Grown::High => Grown::High,
    }
}

/// A position on an axis.
pub fn at(position: Grown<Box<Expr>>) -> Grown<Place>
    ensures { Makes tree.at (FitTree position) FitPlace result }
{
    match position {
        Grown::Fits(position, height) => Grown::Fits(Place::At(position), height),
        Grown::High => Grown::High,
    }
}

/// An interval of an axis, in a bracket.
pub fn trim(interval: Grown<Interval>) -> Grown<Place>
    ensures { Makes tree.trim (FitInterval interval) FitPlace result }
{
    let Grown::Fits(interval, height) = interval else {
        return Grown::High;
    };
    Grown::Fits(Place::Trim(interval), height)
}

/// `imageCrsDomain(e, axis)`
pub fn domain(
    alloc: Global,
    value: Grown<Box<Expr>>,
    axis: &str,
) -> Result<Grown<Interval>, AllocError>
    ensures { IfOk result (Makes (λ e. tree.domain e axis.now) (FitTree value) FitInterval) }
{
    let Grown::Fits(value, height) = value else {
        return Ok(Grown::High);
    };
    let axis = QueryName::new(alloc, axis)?;
    Ok(Grown::Fits(Interval::Domain(value, axis), height))
}

/// One part of `{..}`.
pub fn part(alloc: Global, name: &str, value: Grown<Box<Expr>>) -> Result<Grown<Part>, AllocError>
    ensures { IfOk result (Makes (λ e. (name.now, e)) (FitTree value) FitPart) }
{
    let Grown::Fits(value, height) = value else {
        return Ok(Grown::High);
    };
    let name = QueryName::new(alloc, name)?;
    let value = Box::into_inner(value);
    Ok(Grown::Fits(Part { name, value }, height))
}

/// One part of a bracket.
pub fn sub(alloc: Global, axis: &str, place: Grown<Place>) -> Result<Grown<Sub>, AllocError>
    ensures { IfOk result (Makes (λ p. (axis.now, p)) (FitPlace place) FitSub) }
{
    let Grown::Fits(place, height) = place else {
        return Ok(Grown::High);
    };
    let axis = QueryName::new(alloc, axis)?;
    Ok(Grown::Fits(Sub { axis, place }, height))
}

/// One iterator.
pub fn iter(
    alloc: Global,
    variable: &str,
    axis: &str,
    interval: Grown<Interval>,
) -> Result<Grown<Iter>, AllocError>
    ensures { IfOk result (Makes (λ i. (variable.now, axis.now, i)) (FitInterval interval) FitIter) }
{
    let Grown::Fits(interval, height) = interval else {
        return Ok(Grown::High);
    };
    let variable = QueryName::new(alloc, variable)?;
    let axis = QueryName::new(alloc, axis)?;
    let whole = Iter {
        variable,
        axis,
        interval,
    };
    Ok(Grown::Fits(whole, height))
}

/// An expression that a query returns as it is.
pub fn plain(value: Grown<Box<Expr>>) -> Grown<Item>
    ensures { Makes tree.plain (FitTree value) FitItem result }
{
    match value {
        Grown::Fits(value, height) => Grown::Fits(Item::Plain(value), height),
        Grown::High => Grown::High,
    }
}

/// An expression that a query returns encoded.
pub fn encode(value: Grown<Box<Expr>>) -> Grown<Item>
    ensures { Makes tree.encode (FitTree value) FitItem result }
{
    match value {
        Grown::Fits(value, height) => Grown::Fits(Item::Encode(value), height),
        Grown::High => Grown::High,
    }
}

/// A whole query.
pub fn query(
    bindings: Vec<Binding>,
    condition: Grown<Option<Box<Expr>>>,
    item: Grown<Item>,
) -> Grown<Query>
    ensures { Joins (query_of bindings.items) (FitCondition condition) (FitItem item) FitQuery result }
{
    let (Grown::Fits(condition, one), Grown::Fits(item, other)) = (condition, item) else {
        return Grown::High;
    };
    let whole = Query {
        bindings,
        condition,
        item,
    };
    Grown::Fits(whole, one.max(other))
}
