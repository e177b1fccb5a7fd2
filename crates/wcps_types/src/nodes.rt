//! Making nodes.

ghost use Rattle.std.specs.Prelude.{◌≡◌, IfOk};
ghost use Rattle.std.specs.Option.{option_map};
ghost use Rattle.wcps_types.specs.Typed.{boxed_tree, condense_of, reduce};

use crate::typed::Node;
use arr_core::Domain;
use std::alloc::{AllocError, Global};
use wcps_text::Aggregate;

/// A node on the heap.
pub fn boxed(alloc: Global, node: Node) -> Result<Box<Node>, AllocError>
    ensures { IfOk result (λ b. b.value ≡ node) }
{
    let b = Box::new(alloc, node)?;
    Ok(b)
}

/// A condenser, with or without a condition.
pub fn condense_node(
    alloc: Global,
    op: Aggregate,
    domain: Domain,
    condition: Option<Box<Node>>,
    body: Box<Node>,
) -> Result<Box<Node>, AllocError>
    ensures { IfOk result (λ n. boxed_tree n ≡ condense_of op domain (option_map boxed_tree condition) (boxed_tree body)) }
{
    let domain = Box::new(alloc, domain)?;
    match condition {
        None => boxed(alloc, Node::Condense { op, domain, body }),
        Some(condition) => {
            let condenser = Node::CondenseWhere {
                op,
                domain,
                condition,
                body,
            };
            boxed(alloc, condenser)
        }
    }
}

/// A reduction over a domain.
pub fn reduce_node(
    alloc: Global,
    op: Aggregate,
    domain: Domain,
    body: Box<Node>,
) -> Result<Box<Node>, AllocError>
    ensures { IfOk result (λ n. boxed_tree n ≡ reduce op domain (boxed_tree body)) }
{
    let domain = Box::new(alloc, domain)?;
    boxed(alloc, Node::Reduce { op, domain, body })
}
