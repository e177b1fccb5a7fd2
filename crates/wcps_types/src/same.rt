//! Whether trees are the same.

ghost use Rattle.std.specs.Prelude.{◌≡◌, ◌↔◌, ℕ, IsTrue, map, option_map};
ghost use Rattle.wcps_types.specs.Typed.{field_tree, only_tree, boxed_tree, tree_view};

use crate::typed::{Node, Tree};

/// Whether two lists of numbers are the same.
fn are_same_numbers(items: &[i64], others: &[i64]) -> bool
    ensures { IsTrue result ↔ (items.now ≡ others.now) }
{
    items == others
}

/// Whether two nodes are the same, and so give the same fields.
#[cycle(is_same)]
fn is_same(a: &Node, b: &Node) -> bool
    ensures { IsTrue result → (f : ℕ) → field_tree a.now f ≡ field_tree b.now f }
{
    match a {
        Node::Number(z) => match b {
            Node::Number(y) => z == y,
            _ => false,
        },
        Node::Iterator(level) => match b {
            Node::Iterator(other) => level == other,
            _ => false,
        },
        Node::Coverage(variable) => match b {
            Node::Coverage(other) => variable == other,
            _ => false,
        },
        Node::Unary(op, e) => match b {
            Node::Unary(other, d) => op == other && is_same(e, d),
            _ => false,
        },
        Node::Binary(op, l, r) => match b {
            Node::Binary(other, left, right) => {
                op == other && is_same(l, left) && is_same(r, right)
            }
            _ => false,
        },
        Node::Scalar(e) => match b {
            Node::Scalar(d) => is_same(e, d),
            _ => false,
        },
        Node::Record(parts) => match b {
            Node::Record(others) => are_same(parts, others),
            _ => false,
        },
        Node::Select(_, _)
        | Node::Bracket(_)
        | Node::Slice { .. }
        | Node::Array(_)
        | Node::List { .. } => is_same_value(a, b),
        Node::Condense { .. } | Node::CondenseWhere { .. } | Node::Reduce { .. } => {
            is_same_fold(a, b)
        }
    }
}

/// The same, said only of selections, brackets, slices, arrays and lists: nodes that make or narrow a value.
#[cycle(is_same)]
fn is_same_value(a: &Node, b: &Node) -> bool
    ensures { IsTrue result → (f : ℕ) → field_tree a.now f ≡ field_tree b.now f }
{
    match a {
        Node::Select(e, own) => match b {
            Node::Select(d, other) => own == other && is_same(e, d),
            _ => false,
        },
        Node::Bracket(e) => match b {
            Node::Bracket(d) => is_same(e, d),
            _ => false,
        },
        Node::Slice {
            value,
            axis,
            lo,
            hi,
            position,
        } => match b {
            Node::Slice {
                value: other,
                axis: other_axis,
                lo: other_lo,
                hi: other_hi,
                position: other_position,
            } => {
                axis == other_axis
                    && lo == other_lo
                    && hi == other_hi
                    && is_same(value, other)
                    && is_same(position, other_position)
            }
            _ => false,
        },
        Node::Array(e) => match b {
            Node::Array(d) => is_same(e, d),
            _ => false,
        },
        Node::List { domain, items } => match b {
            Node::List {
                domain: other,
                items: others,
            } => domain.is_same(other) && are_same_numbers(items, others),
            _ => false,
        },
        _ => false,
    }
}

/// The same, said only of condensers and reductions.
#[cycle(is_same)]
fn is_same_fold(a: &Node, b: &Node) -> bool
    ensures { IsTrue result → (f : ℕ) → field_tree a.now f ≡ field_tree b.now f }
{
    match a {
        Node::Condense { op, domain, body } => match b {
            Node::Condense {
                op: other,
                domain: other_domain,
                body: other_body,
            } => op == other && domain.is_same(other_domain) && is_same(body, other_body),
            _ => false,
        },
        Node::CondenseWhere {
            op,
            domain,
            condition,
            body,
        } => match b {
            Node::CondenseWhere {
                op: other,
                domain: other_domain,
                condition: other_condition,
                body: other_body,
            } => {
                op == other
                    && domain.is_same(other_domain)
                    && is_same(condition, other_condition)
                    && is_same(body, other_body)
            }
            _ => false,
        },
        Node::Reduce { op, domain, body } => match b {
            Node::Reduce {
                op: other,
                domain: other_domain,
                body: other_body,
            } => op == other && domain.is_same(other_domain) && is_same(body, other_body),
            _ => false,
        },
        _ => false,
    }
}

/// Whether the parts of two records are the same.
#[cycle(is_same)]
fn are_same(parts: &[Node], others: &[Node]) -> bool
    ensures { IsTrue result → map only_tree parts.now ≡ map only_tree others.now }
{
    if parts.len() != others.len() {
        return false;
    }
    for k in 0..parts.len() {
        if !is_same(&parts[k], &others[k]) {
            return false;
        }
    }
    true
}

/// Whether two conditions are the same.
fn is_same_condition(a: &Option<Box<Node>>, b: &Option<Box<Node>>) -> bool
    ensures { IsTrue result → option_map boxed_tree a.now ≡ option_map boxed_tree b.now }
{
    match a {
        None => b.is_none(),
        Some(e) => match b {
            None => false,
            Some(d) => is_same(e, d),
        },
    }
}

/// Whether the same fields are Boolean.
fn are_same_kinds(booleans: &[bool], others: &[bool]) -> bool
    ensures { IsTrue result ↔ (booleans.now ≡ others.now) }
{
    booleans == others
}

/// Whether two trees are the same.
pub fn is_same_tree(a: &Tree, b: &Tree) -> bool
    ensures { IsTrue result → tree_view a.now ≡ tree_view b.now }
{
    is_same_condition(&a.condition, &b.condition)
        && a.item.domain.is_same(&b.item.domain)
        && are_same_kinds(&a.item.booleans, &b.item.booleans)
        && is_same(&a.item.node, &b.item.node)
}
