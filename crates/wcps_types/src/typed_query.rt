//! Typed queries: the text's own tree, and combinations of coverages that share typed trees. Such a tree is typed when
//! it is asked for. In it the place of a coverage is that of a variable of the `for` list, which stands for the
//! coverage that the combination has at that place.

ghost use Rattle.std.specs.Prelude.{◌≡◌, ◌≤◌, length, map, true};
ghost use Rattle.std.specs.List.{list_all};
ghost use Rattle.wcps_text.specs.Tree.{query_view};
ghost use Rattle.wcps_types.specs.Cells.{result_cells, max_cells};
ghost use Rattle.wcps_types.specs.Work.{query_work, max_work};
ghost use Rattle.wcps_types.specs.Renamed.{combination_view};
ghost use Rattle.wcps_types.specs.Sharing.{makes, trees_of};
ghost use Rattle.wcps_types.specs.WellTyped.{AreTyped};
ghost use Rattle.wcps_types.specs.WellTypedOnce.{AreTyped-prop};
ghost use Rattle.wcps_types.specs.Kinds.{HaveKinds};
ghost use Rattle.wcps_types.specs.KindsOnce.{HaveKinds-prop};

use crate::bound::Variables;
use arr_core::Signature;
use wcps_text::Query;

/// The query with one choice of coverages for its variables: the place of its tree among the query's trees, and for
/// each variable the place of its coverage among the query's coverages.
#[derive(Drop)]
pub struct Combination {
    pub tree: usize,
    pub coverages: Vec<usize>,
}

/// What a tree is typed over, for each variable the place of its coverage; and the cells and the work of the tree, each
/// told up to one more than is allowed.
#[derive(Drop)]
pub struct Maker {
    pub(crate) coverages: Vec<usize>,
    pub(crate) cells: u64,
    pub(crate) work: u64,
}

/// A typed query, which `check` alone gives. It owns all that it needs, which is as much as its text. Combinations
/// whose variables have coverages of the same domains and fields have one tree, and so have neighbours whose trees are
/// the same. Each tree over the coverages of its combination can be evaluated: every coverage, field, axis and iterator
/// has its place, and a list has an item for each point. It gives values of its kind, and its parts do. There is at
/// least one combination. The result has at most 2^20 cells, and the work is at most 2^32 steps.
#[derive(Drop)]
pub struct TypedQuery {
    pub(crate) coverages: Vec<Signature>,
    pub(crate) variables: Variables,
    pub(crate) query: Query,
    pub(crate) makers: Vec<Maker>,
    pub(crate) combinations: Vec<Combination>,
    pub(crate) work: u64,
    pub ghost made: { list_all (makes coverages.items (query_view query) variables.list.items) makers.items ≡ true },
    pub ghost typed: { AreTyped coverages.items (map (combination_view (trees_of coverages.items (query_view query) variables.list.items makers.items)) combinations.items) } by { AreTyped-prop coverages.items (map (combination_view (trees_of coverages.items (query_view query) variables.list.items makers.items)) combinations.items) },
    pub ghost kinds: { HaveKinds coverages.items (map (combination_view (trees_of coverages.items (query_view query) variables.list.items makers.items)) combinations.items) } by { HaveKinds-prop coverages.items (map (combination_view (trees_of coverages.items (query_view query) variables.list.items makers.items)) combinations.items) },
    pub ghost some: { 1 ≤ length combinations.items },
    pub ghost few_cells: { result_cells (map (combination_view (trees_of coverages.items (query_view query) variables.list.items makers.items)) combinations.items) ≤ max_cells },
    pub ghost told: { work ≡ query_work (map (combination_view (trees_of coverages.items (query_view query) variables.list.items makers.items)) combinations.items) },
    pub ghost little_work: { work ≤ max_work },
}

impl TypedQuery {
    /// The coverages that the `for` list names, each once, in the order of their first mention.
    pub fn coverages(&self) -> &[Signature]
        ensures { result.now ≡ self.now.coverages.items }
    {
        &self.coverages
    }

    /// One for each choice of coverages, the first variable outermost, in listed order.
    pub fn combinations(&self) -> &[Combination]
        ensures { result.now ≡ self.now.combinations.items }
    {
        &self.combinations
    }
}
