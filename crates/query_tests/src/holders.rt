//! For which jobs coverages are held.

use arr_core::Name;
use job_desk::Snapshots;
use std::alloc::{AllocError, Global};
use test_rows::Answer;

/// The numbers of jobs, in the order in which their coverages began to be held.
#[derive(Drop)]
pub struct Holders {
    numbers: Vec<u64>,
}

impl Holders {
    pub fn new(alloc: Global) -> Holders {
        Holders {
            numbers: Vec::new(alloc),
        }
    }

    /// Says the numbers, or none.
    pub fn say(&self, answer: &mut Answer) {
        if self.numbers.is_empty() {
            answer.say("none");
        }
        for (place, number) in self.numbers.iter().enumerate() {
            if place > 0 {
                answer.say(" ");
            }
            answer.count(*number);
        }
    }
}

impl Snapshots for Holders {
    ghost use Rattle.std.specs.Prelude.{⊤};

    ghost may_hold = { λ s job names. ⊤ };

    ghost holds = { λ s job names t. ⊤ };

    ghost stays = { λ s t. ⊤ };

    ghost releases = { λ s job t. ⊤ };

    fn hold(&mut self, job: u64, _: &[Name]) -> Result<(), AllocError> {
        self.numbers.push(job)?;
        Ok(())
    }

    fn release(&mut self, job: u64) {
        self.numbers.retain(|number| *number != job);
    }
}
