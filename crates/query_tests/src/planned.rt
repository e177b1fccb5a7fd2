//! The plans of queries.

ghost use Rattle.std.specs.Prelude.{IfOk};
ghost use Rattle.plan_ir.specs.Plans.{plan_view};
ghost use Rattle.plan_ir.specs.Placed.{IsPlan};

use crate::answers::say_run;
use crate::coverages::Coverages;
use crate::plan_words::say_plan;
use crate::texts::typed;
use anyhow::{Result, bail};
use plan_ir::Plan;
use plan_rewrite::{lower, rewrite};
use std::alloc::Global;
use test_rows::Answer;
use wcps_types::TypedQuery;

/// The plan of a typed query.
fn plan_of(alloc: Global, query: &TypedQuery) -> Result<Plan>
    ensures { IfOk result (λ p. IsPlan (plan_view p)) }
{
    Ok(lower(alloc, query)?)
}

impl Coverages {
    /// What a query gives, evaluated plainly, lowered, and rewritten: once where the three are one.
    pub fn say_planned(&mut self, alloc: Global, answer: &mut Answer, text: &str) -> Result<()> {
        match typed(alloc, &self.signatures, text) {
            Ok(query) => return self.say_ways(alloc, answer, &query),
            Err(refusal) => answer.refusal(refusal.number()),
        }
        Ok(())
    }

    /// What a query gives in the three ways.
    fn say_ways(&mut self, alloc: Global, answer: &mut Answer, query: &TypedQuery) -> Result<()> {
        self.evaluate(alloc, answer, query)?;
        self.compare_plans(alloc, answer, query)
    }

    /// Compares what the plans of a query give with the answer.
    fn compare_plans(
        &mut self,
        alloc: Global,
        answer: &mut Answer,
        query: &TypedQuery,
    ) -> Result<()> {
        let plan = lower(alloc, query)?;
        self.compare(alloc, answer, &plan);
        let plan = rewrite(alloc, plan)?;
        self.compare(alloc, answer, &plan);
        Ok(())
    }

    /// Adds what a plan gives where that is not the answer.
    fn compare(&mut self, alloc: Global, answer: &mut Answer, plan: &Plan) {
        let mut other = Answer::new(alloc);
        say_run(alloc, &mut other, self, plan);
        if other.as_str() != answer.as_str() {
            answer.say(" and by a plan ");
            answer.say(other.as_str());
        }
    }

    /// The plan of a query's text.
    fn lowered(&self, alloc: Global, text: &str) -> Result<Plan>
        ensures { IfOk result (λ p. IsPlan (plan_view p)) }
    {
        match typed(alloc, &self.signatures, text) {
            Ok(query) => plan_of(alloc, &query),
            Err(_) => bail!("no type"),
        }
    }

    /// The same once it is rewritten.
    pub fn rewritten(&self, alloc: Global, text: &str) -> Result<Plan>
        ensures { IfOk result (λ p. IsPlan (plan_view p)) }
    {
        let plan = self.lowered(alloc, text)?;
        Ok(rewrite(alloc, plan)?)
    }

    /// The words of a query's plan.
    pub fn say_lowered(&self, alloc: Global, answer: &mut Answer, text: &str) -> Result<()> {
        say_plan(alloc, answer, &self.lowered(alloc, text)?);
        Ok(())
    }

    /// The words of a query's plan once it is rewritten.
    pub fn say_rewritten(&self, alloc: Global, answer: &mut Answer, text: &str) -> Result<()> {
        say_plan(alloc, answer, &self.rewritten(alloc, text)?);
        Ok(())
    }
}
