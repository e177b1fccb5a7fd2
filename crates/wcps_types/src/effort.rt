//! Work: how many steps an evaluation takes at most, from domains alone.

ghost use Rattle.std.specs.Prelude.{◌≡◌, ◌≤◌, ◌+◌, ◌*◌, List, [], ◌∷◌};
ghost use Rattle.arr_core.specs.Limits.{max_points};
ghost use Rattle.wcps_types.specs.Typed.{field_tree, fields_view, item_view, tree_view};
ghost use Rattle.wcps_types.specs.Sharing.{IsCounted};
ghost use Rattle.wcps_types.specs.TypedQueries.{query_view};
ghost use Rattle.wcps_types.specs.Work.{work_of, fields_work, item_work, query_work, max_work, capped};

use crate::typed::{Node, Tree, TypedItem};
use crate::typed_query::{Combination, Maker, TypedQuery};

/// How much work is allowed.
pub const MAX_WORK: u64 = 4_294_967_296;

/// One more than that, at which counting stops.
const TOO_MUCH: u64 = MAX_WORK + 1;

/// The sum, or `TOO_MUCH` where it is more.
fn plus(a: u64, b: u64) -> u64
    requires left { a ≤ max_work + 1 }
    requires right { b ≤ max_work + 1 }
    ensures { result ≡ capped (a + b) }
{
    (a + b).min(TOO_MUCH)
}

/// `points` times the work, or `TOO_MUCH` where it is more.
fn times(points: u64, work: u64) -> u64
    requires points { points ≤ max_points }
    requires work { work ≤ max_work + 1 }
    ensures { result ≡ capped (points * work) }
{
    (points * work).min(TOO_MUCH)
}

/// So often the work, or `TOO_MUCH` where it is more.
fn repeated(count: usize, work: u64) -> u64
    ensures { result ≡ capped (count * work) }
{
    (count as u64).saturating_mul(work).min(TOO_MUCH)
}

/// The work of one evaluation of one field at one point.
#[tactic(auto, using(crate::proofs::Caps::capped_times))]
pub fn node_work(node: &Node, field: usize) -> u64
    ensures { result ≡ capped (work_of (field_tree node.now field)) }
{
    match node {
        Node::Number(_) => 1,
        Node::Iterator(_) => 1,
        Node::Coverage(_) => 1,
        Node::Unary(_, e) => plus(1, node_work(e, 0)),
        Node::Binary(_, l, r) => plus(1, plus(node_work(l, 0), node_work(r, 0))),
        Node::Scalar(e) => node_work(e, field),
        Node::Record(parts) => match parts.get(field) {
            None => 1,
            Some(part) => node_work(part, 0),
        },
        Node::Select(e, own) => plus(1, node_work(e, *own)),
        Node::Bracket(e) => plus(1, node_work(e, field)),
        Node::Slice {
            value,
            axis: _,
            lo: _,
            hi: _,
            position,
        } => plus(node_work(value, field), node_work(position, 0)),
        Node::Array(e) => plus(1, node_work(e, 0)),
        Node::List {
            domain: _,
            items: _,
        } => 1,
        Node::Condense {
            op: _,
            domain,
            body,
        } => plus(1, times(domain.points(), node_work(body, 0))),
        Node::CondenseWhere {
            op: _,
            domain,
            condition,
            body,
        } => {
            plus(
                1,
                times(
                    domain.points(),
                    plus(node_work(condition, 0), node_work(body, 0)),
                ),
            )
        }
        Node::Reduce {
            op: _,
            domain,
            body,
        } => plus(1, times(domain.points(), node_work(body, 0))),
    }
}

/// The work of the fields of a node one by one.
fn each_field_work(node: &Node, booleans: &[bool]) -> u64
    ensures { result ≡ capped (fields_work (fields_view node.now 0 booleans.now)) }
{
    let mut total = 0;
    for field in 0..booleans.len() {
        total = plus(total, node_work(node, field));
    }
    total
}

/// The work of all fields of a node. A bracket and its positions are looked at once, however many fields there are.
#[tactic(auto, using(crate::proofs::Efforts::bracket_work, crate::proofs::Efforts::slice_work))]
fn fields_work(node: &Node, booleans: &[bool]) -> u64
    ensures { result ≡ capped (fields_work (fields_view node.now 0 booleans.now)) }
{
    match node {
        Node::Bracket(e) => plus(
            (booleans.len() as u64).min(TOO_MUCH),
            fields_work(e, booleans),
        ),
        Node::Slice {
            value,
            axis: _,
            lo: _,
            hi: _,
            position,
        } => {
            plus(
                fields_work(value, booleans),
                repeated(booleans.len(), node_work(position, 0)),
            )
        }
        _ => each_field_work(node, booleans),
    }
}

/// The work of an item, at all its points.
#[tactic(auto, using(crate::proofs::Caps::capped_times))]
fn item_work(item: &TypedItem) -> u64
    ensures { result ≡ capped (item_work (item_view item.now)) }
{
    times(
        item.domain.points(),
        fields_work(&item.node, &item.booleans),
    )
}

/// The work of a tree.
pub fn tree_work(tree: &Tree) -> u64
    ensures { result ≡ capped (query_work (tree_view tree.now ∷ [])) }
{
    let condition = match &tree.condition {
        None => 0,
        Some(c) => node_work(c, 0),
    };
    plus(condition, item_work(&tree.item))
}

/// The work of a combination.
fn combination_work(makers: &[Maker], combination: &Combination) -> u64
    ensures { IsCounted (λ all. capped (query_work all)) makers.now (combination.now ∷ []) result }
{
    match makers.get(combination.tree) {
        None => 1,
        Some(maker) => maker.work,
    }
}

/// The work of all combinations, or one more than `MAX_WORK` where it is more.
pub fn combinations_work(makers: &[Maker], combinations: &[Combination]) -> u64
    ensures { IsCounted (λ all. capped (query_work all)) makers.now combinations.now result }
{
    let mut total: u64 = 0;
    for combination in combinations {
        total = total
            .saturating_add(combination_work(makers, combination))
            .min(TOO_MUCH);
    }
    total
}

/// The work of a typed query.
pub fn work(query: &TypedQuery) -> u64
    ensures value { result ≡ query_work (query_view query.now).combinations }
    ensures little { result ≤ max_work }
{
    query.work
}
