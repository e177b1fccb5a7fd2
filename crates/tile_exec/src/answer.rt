//! What an executor without units left answers.

ghost use Rattle.std.specs.Prelude.{◌≡◌, IfOk};
ghost use Rattle.tile_exec.specs.Standing.{left_of};
ghost use Rattle.tile_exec.specs.Answering.{AnswersFor};

use crate::exec::Exec;
use csv_out::csv_text;
use std::alloc::{AllocError, Global};
use wcps_mean::PointFault;

/// An answer: CSV text, or the fault of the first point that has one.
#[derive(Drop)]
pub enum Answer {
    Text(String),
    Refused(PointFault),
}

/// The answer of an executor that has no unit left.
pub fn answer_of(alloc: Global, exec: &Exec) -> Result<Answer, AllocError>
    requires { left_of exec.now ≡ 0 }
    ensures { IfOk result (λ a. AnswersFor exec.now a) }
{
    match exec.result() {
        Some(Ok(items)) => Ok(Answer::Text(csv_text(alloc, items)?)),
        Some(Err(fault)) => Ok(Answer::Refused(fault)),
        None => unreachable!(),
    }
}
