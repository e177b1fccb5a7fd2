//! Parts that a query has.

ghost use Rattle.std.specs.Prelude.{◌≡◌, ℕ, List, IfOk, Option, Some, None, option_map, is_some, true};
ghost use Rattle.wcps_types.specs.Typed.{tree_view};
ghost use Rattle.wcps_types.specs.Renamed.{over};
ghost use Rattle.wcps_types.specs.TypedQueries.{query_view};
ghost use Rattle.wcps_mean.specs.Parts.{part_of, part_in};

use crate::part::{Part, spot_of};
use std::alloc::{AllocError, Global};
use wcps_types::{Tree, TypedQuery, tree_at};

/// A part that a combination of a query has. It owns all that it needs.
#[derive(Drop)]
pub struct QueryPart {
    pub(crate) coverages: Vec<usize>,
    pub(crate) tree: Option<Tree>,
    pub(crate) part: Part,
    pub ghost there: { is_some (part_of part (over coverages.items (option_map tree_view tree))) ≡ true },
}

impl QueryPart {
    ghost use Rattle.wcps_mean.specs.QueryParts.{part_view};

    /// A part of the combination at a place; none where there is no such combination, or it has no such part.
    pub fn find(
        alloc: Global,
        query: &TypedQuery,
        combination: usize,
        part: Part,
    ) -> Result<Option<QueryPart>, AllocError>
        ensures { IfOk result (λ p. option_map part_view p ≡ part_in (query_view query.now) combination part) }
    {
        let combinations = query.combinations();
        if combination >= combinations.len() {
            return Ok(None);
        }
        let one = &combinations[combination];
        let coverages = one.coverages.to_vec(alloc)?;
        let tree = tree_at(alloc, query, one.tree)?;
        Ok(QueryPart::new(coverages, tree, part))
    }

    /// A part of a tree over coverages, where it has that part.
    fn new(coverages: Vec<usize>, tree: Option<Tree>, part: Part) -> Option<QueryPart>
        ensures { option_map part_view result ≡ part_of part (over coverages.items (option_map tree_view tree)) }
    {
        if !has_part(&tree, part) {
            return None;
        }
        Some(QueryPart {
            coverages,
            tree,
            part,
        })
    }
}

/// Whether a combination has a part; without a tree, which is so in no query, its condition is false.
fn has_part(tree: &Option<Tree>, part: Part) -> bool
    ensures { (places : List ℕ) → result ≡ is_some (part_of part (over places (option_map tree_view tree.now))) }
{
    match tree {
        None => matches!(part, Part::Condition),
        Some(tree) => spot_of(tree, part).is_some(),
    }
}
