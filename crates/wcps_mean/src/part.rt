//! Parts of a combination, and where they stand in its tree.

ghost use Rattle.std.specs.Prelude.{◌≡◌, Option, Some, None, option_map};
ghost use Rattle.wcps_types.specs.Typed.{field_tree, tree_view};
ghost use Rattle.wcps_mean.specs.Parts.{part_of, condition_part, body_part};
ghost use Rattle.wcps_mean.specs.Spots.{part_at};

use wcps_types::{Node, Tree};

/// Which part of a combination.
#[derive(Clone, Copy, PartialEq, Eq)]
pub enum Part {
    /// The condition of the query; its point is the empty one.
    Condition,
    /// A field of the item, at a point of its domain.
    Field(usize),
    /// The condition of the condenser that a field of the item is, at a point of its box.
    CondenserCondition(usize),
    /// What the condenser or the reduction that a field of the item is goes over, at a point of its box.
    CondenserValue(usize),
}

/// Where a part stands: the field of a node, and whether the coordinates of the part's point are the numbers of its
/// iterators.
#[derive(Clone, Copy)]
pub(crate) struct Spot<'a> {
    pub node: &'a Node,
    pub field: usize,
    pub iterates: bool,
}

/// Where a part of a tree stands.
pub(crate) fn spot_of(tree: &Tree, part: Part) -> Option<Spot<'_>>
    ensures { option_map part_at result ≡ part_of part (tree_view tree.now) }
{
    let node: &Node = &tree.item.node;
    let fields = tree.item.booleans.len();
    match part {
        Part::Condition => match &tree.condition {
            None => None,
            Some(node) => Some(Spot {
                node,
                field: 0,
                iterates: false,
            }),
        },
        Part::Field(field) => {
            if field >= fields {
                return None;
            }
            Some(Spot {
                node,
                field,
                iterates: false,
            })
        }
        Part::CondenserCondition(field) => {
            if field >= fields {
                return None;
            }
            condition_of(node, field)
        }
        Part::CondenserValue(field) => {
            if field >= fields {
                return None;
            }
            body_of(node, field)
        }
    }
}

/// Where the condition of the condenser stands that a field of a node is.
fn condition_of(node: &Node, field: usize) -> Option<Spot<'_>>
    ensures { option_map part_at result ≡ condition_part (field_tree node.now field) }
{
    match node {
        Node::CondenseWhere { condition, .. } => Some(Spot {
            node: condition,
            field: 0,
            iterates: true,
        }),
        Node::Record(parts) => match parts.get(field) {
            None => None,
            Some(part) => condition_of(part, 0),
        },
        _ => None,
    }
}

/// Where the body of the condenser or the reduction stands that a field of a node is.
fn body_of(node: &Node, field: usize) -> Option<Spot<'_>>
    ensures { option_map part_at result ≡ body_part (field_tree node.now field) }
{
    match node {
        Node::Condense { body, .. } => Some(Spot {
            node: body,
            field: 0,
            iterates: true,
        }),
        Node::CondenseWhere { body, .. } => Some(Spot {
            node: body,
            field: 0,
            iterates: true,
        }),
        Node::Reduce { body, .. } => Some(Spot {
            node: body,
            field: 0,
            iterates: false,
        }),
        Node::Record(parts) => match parts.get(field) {
            None => None,
            Some(part) => body_of(part, 0),
        },
        _ => None,
    }
}
