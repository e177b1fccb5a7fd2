//! Plans: passes whose outcomes go to registers, and what is given out.

use crate::body::{Body, Fold, Interval};
use arr_core::{Domain, Signature};

/// One more variable for all that follows it: the position's value, which lies in the interval.
#[derive(Drop)]
pub struct Bind {
    pub position: Body,
    pub interval: Interval,
}

/// A field of an item, and whether it is Boolean (else it is an integer).
#[derive(Drop)]
pub struct Field {
    pub boolean: bool,
    pub body: Body,
}

/// The cells of each field at each point of a domain. The variables are the coordinates, then one for each bind, in
/// order.
#[derive(Drop)]
pub struct Item {
    pub domain: Domain,
    pub binds: Vec<Bind>,
    pub fields: Vec<Field>,
}

/// The passes in their order, the condition under which there is an item, and the item. Each pass is a fold under no
/// variable, whose outcome goes to a register, a fault too; it reads the registers of those before it.
#[derive(Drop)]
pub struct Steps {
    pub passes: Vec<Fold>,
    pub condition: Option<Body>,
    pub item: Item,
}

/// Steps by their place in the plan, and the coverages, by their places in the plan, that their reads name.
#[derive(Drop)]
pub struct Combination {
    pub steps: usize,
    pub coverages: Vec<usize>,
}

/// A plan. Combinations are in the order of their items; those that differ only in their coverages share steps.
#[derive(Drop)]
pub struct Plan {
    pub coverages: Vec<Signature>,
    pub steps: Vec<Steps>,
    pub combinations: Vec<Combination>,
}
