//! How many cells a result has.

ghost use Rattle.std.specs.Prelude.{◌≡◌, ◌+◌, ◌*◌, [], ◌∷◌};
ghost use Rattle.wcps_types.specs.Typed.{tree_view};
ghost use Rattle.wcps_types.specs.Sharing.{IsCounted};
ghost use Rattle.wcps_types.specs.Cells.{result_cells, capped_cells};

use crate::typed::Tree;
use crate::typed_query::{Combination, Maker};

/// How many result cells are allowed.
pub const MAX_CELLS: u64 = 1_048_576;

/// One more than that, at which counting stops.
const TOO_MANY: u64 = MAX_CELLS + 1;

/// The cells of the item of a tree.
#[tactic(auto, using(crate::proofs::Efforts::field_places))]
pub fn tree_cells(tree: &Tree) -> u64
    ensures { result ≡ capped_cells (result_cells (tree_view tree.now ∷ [])) }
{
    let fields = (tree.item.booleans.len() as u64).min(TOO_MANY);
    let points = tree.item.domain.points();
    (points * fields).min(TOO_MANY)
}

/// The cells of the item of a combination.
fn combination_cells(makers: &[Maker], combination: &Combination) -> u64
    ensures { IsCounted (λ all. capped_cells (result_cells all)) makers.now (combination.now ∷ []) result }
{
    match makers.get(combination.tree) {
        None => 0,
        Some(maker) => maker.cells,
    }
}

/// The cells of the items of all combinations, or one more than `MAX_CELLS` where they are more.
pub fn combinations_cells(makers: &[Maker], combinations: &[Combination]) -> u64
    ensures { IsCounted (λ all. capped_cells (result_cells all)) makers.now combinations.now result }
{
    let mut total: u64 = 0;
    for combination in combinations {
        total = total
            .saturating_add(combination_cells(makers, combination))
            .min(TOO_MANY);
    }
    total
}
