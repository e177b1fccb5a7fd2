//! The calls of the rows.

use crate::coverages::Coverages;
use crate::desk::Desk;
use crate::kernels;
use crate::outcomes::{say_condensed, say_csv, say_operated};
use crate::plans::say_plan_run;
use crate::texts::{say_alike, say_parsed, say_printed, say_tokens, say_tree, say_work};
use anyhow::Result;
use std::alloc::Global;
use std::num::NonZeroU64;
use test_rows::{Answer, Layer, cut, text};

/// What the rows speak of: coverages, and a desk of jobs.
#[derive(Drop)]
pub struct Fixture {
    coverages: Coverages,
    desk: Desk,
}

/// Calls that need no coverage.
fn call_alone(alloc: Global, answer: &mut Answer, verb: &str, rest: &str) -> Result<()> {
    match verb {
        "tokens" => say_tokens(alloc, answer, rest),
        "parse" => say_parsed(alloc, answer, rest),
        "printed" => say_printed(alloc, answer, rest),
        "tree" => return say_tree(alloc, answer, rest),
        "alike" => return say_alike(alloc, answer, rest),
        "operate" => return say_operated(answer, rest),
        "condense" => return say_condensed(answer, rest),
        "csv" => return say_csv(alloc, answer, rest),
        "run" => return say_plan_run(alloc, answer, rest),
        _ => return kernels::call(alloc, answer, verb, rest),
    }
    Ok(())
}

impl Coverages {
    /// Calls that change the coverages or what becomes of their cells.
    fn change(&mut self, alloc: Global, answer: &mut Answer, verb: &str, rest: &str) -> Result<()> {
        match verb {
            "coverage" => self.add(alloc, rest)?,
            "device" => self.set_device(rest)?,
            _ => self.clear(),
        }
        answer.say("ok");
        Ok(())
    }

    fn call(&mut self, alloc: Global, answer: &mut Answer, verb: &str, rest: &str) -> Result<()> {
        match verb {
            "coverage" | "device" | "clear" => return self.change(alloc, answer, verb, rest),
            "query" => return self.say_query(alloc, answer, rest),
            "part" => return self.say_part(alloc, answer, rest),
            "process" => return self.say_processed(alloc, answer, rest),
            "expand" => return self.say_expanded(alloc, answer, rest),
            "planned" => return self.say_planned(alloc, answer, rest),
            "lowered" => return self.say_lowered(alloc, answer, rest),
            "rewritten" => return self.say_rewritten(alloc, answer, rest),
            "work" => say_work(alloc, answer, &self.signatures, rest),
            "failures" => answer.count(self.failures),
            _ => return call_alone(alloc, answer, verb, rest),
        }
        Ok(())
    }
}

impl Fixture {
    /// What the first row speaks of.
    pub fn new(alloc: Global) -> Fixture {
        Fixture {
            coverages: Coverages::new(alloc),
            desk: Desk::starting(alloc, NonZeroU64::MIN),
        }
    }

    fn call(&mut self, alloc: Global, answer: &mut Answer, verb: &str, rest: &str) -> Result<()> {
        match verb {
            "new" | "starting" | "submit" | "cancel" | "holders" => {
                self.desk.call(alloc, answer, &self.coverages, (verb, rest))
            }
            _ => self.coverages.call(alloc, answer, verb, rest),
        }
    }
}

impl Layer for Fixture {
    fn answer(&mut self, rt: &HostRuntime, call: &str) -> Result<String> {
        let (verb, written) = cut(call);
        let text = text(rt.alloc(), written)?;
        let mut answer = Answer::new(rt.alloc());
        self.call(rt.alloc(), &mut answer, verb, text.as_str())?;
        answer.into_text()
    }
}
