//! What is known of an item between its units.

ghost use Rattle.std.specs.Prelude.{◌≡◌, ◌<◌, length, None, option_copied, IfOk, IfSome};
ghost use Rattle.wcps_mean.specs.declared.cell.Outcome.TheVariants.{Value};
ghost use Rattle.tile_exec.specs.Known.{IsKnownPair, ArePairs, AreKnownPairs};

use crate::samples::Sample;
use std::alloc::{AllocError, Global};
use tile_columns::Zones;
use tile_kernel::Column;
use wcps_mean::Outcome;

/// The outcome of a body where its key has a number.
#[derive(Clone, Copy)]
pub(crate) struct KnownOutcome {
    pub number: i64,
    pub outcome: Outcome,
}

/// What is known of a body by a key: its outcomes by rising numbers, and where the key was found.
#[derive(Drop)]
pub(crate) struct Known {
    pub zones: Zones,
    pub outcomes: Vec<KnownOutcome>,
}

impl Known {
    /// The outcome where the key has this one, if it is known.
    fn outcome_by(&self, key: Outcome) -> Option<Outcome>
        ensures { IfSome result (IsKnownPair self.now.outcomes.items key) }
    {
        match key {
            Outcome::Fault(_) => None,
            Outcome::Value(number) => self.outcome_of(number),
        }
    }

    /// The outcome where the key has a number, if it is known.
    fn outcome_of(&self, number: i64) -> Option<Outcome>
        ensures { IfSome result (IsKnownPair self.now.outcomes.items (Value number)) }
    {
        match self
            .outcomes
            .binary_search_by_key(&number, |known| known.number)
        {
            Ok(place) => Some(self.outcomes[place].outcome),
            Err(_) => None,
        }
    }

    /// The outcomes where the key has those of a column, if all are known.
    pub fn outcomes_by(
        &self,
        alloc: Global,
        keys: &Column,
    ) -> Result<Option<Vec<Outcome>>, AllocError>
        ensures { IfOk result (λ o. IfSome o (λ v. AreKnownPairs self.now.outcomes.items keys.now v.items)) }
    {
        let mut outcomes = Vec::new(alloc);
        for place in 0..keys.len() {
            let Some(outcome) = self.outcome_by(keys.at(place)) else {
                return Ok(None);
            };
            outcomes.push(outcome)?;
        }
        Ok(Some(outcomes))
    }
}

/// The number of a sample with an outcome.
fn pair_of(sample: &Sample, outcome: Outcome) -> KnownOutcome
    ensures number { result.number ≡ sample.now.number }
    ensures outcome { result.outcome ≡ outcome }
{
    KnownOutcome {
        number: sample.number,
        outcome,
    }
}

/// The numbers of samples, each with the outcome at its point.
pub(crate) fn pairs_of(
    alloc: Global,
    samples: &[Sample],
    outcomes: &Column,
) -> Result<Vec<KnownOutcome>, AllocError>
    requires { length outcomes.now ≡ length samples.now }
    ensures { IfOk result (λ v. ArePairs samples.now outcomes.now v.items) }
{
    let mut pairs = Vec::new(alloc);
    for place in 0..samples.len() {
        pairs.push(pair_of(&samples[place], outcomes.at(place)))?;
    }
    Ok(pairs)
}

/// What was known before a tile of an item: nothing before the first one.
pub(crate) fn known_before(known: &Option<Known>, tile: u64) -> Option<&Known>
    ensures first { tile ≡ 0 → option_copied result ≡ None }
    ensures later { 0 < tile → option_copied result ≡ known.now }
{
    if tile == 0 {
        return None;
    }
    known.as_ref()
}
