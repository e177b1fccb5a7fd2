//! The answers of queries over the coverages.
ghost use Rattle.std.specs.Prelude.{◌≡◌, ◌≤◌, All, None, IfOk, IfErr, length, map};
ghost use Rattle.arr_core.specs.declared.signature.Signature.{Signature};
ghost use Rattle.wcps_text.specs.Token.{tok};
ghost use Rattle.wcps_text.specs.Tree.{query_view};
ghost use Rattle.wcps_types.specs.Queries.{typ_query};
ghost use Rattle.wcps_types.specs.TypedQueries.{query_view as typed_view};
ghost use Rattle.plan_ir.specs.Plans.{plan_view};
ghost use Rattle.tile_exec.specs.Standing.{IsBegun, plan_of as plan_in};
ghost use Rattle.raster_store.specs.Snapshots.{held_for};
ghost use Rattle.coverage_server.specs.Stages.{GivesTokens, GivesQuery, GivesTyped, GivesText, GivesAnswer, FailsReading};
ghost use Rattle.coverage_server.specs.Answered.{AnswersQuery, IsAnswer, TellsFailures};
ghost use Rattle.coverage_server.specs.Fetching.{FetchesBoxes, FetchesForText, FetchesPlan, IsPlanOf, UnlessFails};
ghost use Rattle.coverage_server.specs.Views.{IsHeld, still_of};

use crate::cells::AskedCells;
use crate::coverages::Coverages;
use crate::error::AnswerError;
use crate::named::signatures_for;
use arr_core::{Name, Refusal, Signature};
use disk_face::Disk;
use http_front::Reply;
use kvp_front::MAX_QUERY;
use plan_ir::Plan;
use plan_rewrite::{lower, rewrite};
use std::alloc::{AllocError, Global};
use tile_exec::{Answer, Exec, Workspace, answer_of, run_down};
use wcps_mean::CellError;
use wcps_parse::{ParseError, parse};
use wcps_text::{LexError, Query, Token, lex};
use wcps_types::{CheckError, TypedQuery, check};

/// The tokens of a query.
fn tokens_of(alloc: Global, text: &str) -> Result<Vec<Token<'_>>, AnswerError>
    ensures { GivesTokens text.now result }
{
    match lex(alloc, text) {
        Ok(tokens) => Ok(tokens),
        Err(LexError::NoMemory) => Err(AnswerError::NoMemory),
        Err(error) => Err(AnswerError::Named(error.refusal())),
    }
}

/// The query that the tokens spell.
fn query_of(alloc: Global, tokens: &[Token]) -> Result<Query, AnswerError>
    ensures { GivesQuery (map tok tokens.now) result }
{
    match parse(alloc, tokens) {
        Ok(query) => Ok(query),
        Err(ParseError::NoMemory) => Err(AnswerError::NoMemory),
        Err(error) => Err(AnswerError::Named(error.refusal())),
    }
}

/// The typed query.
fn typed_of(
    alloc: Global,
    signatures: &[Signature],
    query: Query,
) -> Result<TypedQuery, AnswerError>
    ensures { GivesTyped (typ_query signatures.now (query_view query)) result }
{
    match check(alloc, signatures, query) {
        Ok(typed) => Ok(typed),
        Err(CheckError::Refused(error)) => Err(AnswerError::Named(error.refusal())),
        Err(CheckError::NoMemory) => Err(AnswerError::NoMemory),
    }
}

/// The names of a query's coverages.
pub fn names_of(alloc: Global, coverages: &[Signature]) -> Result<Vec<Name>, AllocError>
    ensures { IfOk result (λ names. names.items ≡ map (λ (c : Signature). c.name) coverages.now) }
{
    let mut names = Vec::new(alloc);
    for coverage in coverages {
        let name = coverage.name.copy(alloc)?;
        names.push(name)?;
    }
    Ok(names)
}

impl From<CellError> for AnswerError {
    ghost use Rattle.coverage_server.specs.Stages.{cell_refusal};

    ghost from_gives = { λ e r. r ≡ cell_refusal e };

    fn from(error: CellError) -> AnswerError {
        match error {
            CellError::NoMemory => AnswerError::NoMemory,
            CellError::DiskFault => AnswerError::DiskFault,
            CellError::Damaged => AnswerError::Damaged,
        }
    }
}

/// The plan of a typed query, as it is run.
pub fn plan_of(alloc: Global, typed: &TypedQuery) -> Result<Plan, AllocError>
    requires { 1 ≤ length (typed_view typed.now).combinations }
    ensures { IfOk result (λ p. IsPlanOf (typed_view typed.now) (plan_view p)) }
{
    let lowered = lower(alloc, typed)?;
    let plan = rewrite(alloc, lowered)?;
    Ok(plan)
}

/// The typed query of a text over the coverages, or its refusal. Its refusals come in this order: those of its length,
/// of its tokens, of its syntax, and of its types and limits.
pub fn typed_text<D: Disk>(
    alloc: Global,
    coverages: &Coverages<D>,
    text: &str,
) -> Result<TypedQuery, AnswerError>
    ensures { GivesText coverages.now.store text.now result }
{
    if text.len() > MAX_QUERY {
        return Err(AnswerError::Named(Refusal::BadValue));
    }
    let tokens = tokens_of(alloc, text)?;
    let query = query_of(alloc, &tokens)?;
    let signatures = signatures_for(alloc, coverages, &query)?;
    let typed = typed_of(alloc, &signatures, query)?;
    Ok(typed)
}

/// The comma-separated values of a typed query whose plan an executor has begun, or the refusal by its evaluation: the
/// plan is done a unit after the other.
fn values_by<D: Disk>(
    cells: &mut AskedCells<D>,
    workspace: &mut Workspace,
    typed: &TypedQuery,
    exec: &mut Exec,
) -> Result<String, AnswerError>
    requires unheld { held_for 0 cells.old.coverages.held ≡ None }
    requires held { All (IsHeld cells.old.coverages.store) typed.now.coverages.items }
    requires plan { IsPlanOf (typed_view typed.now) (plan_in exec.old) }
    requires begun { IsBegun (plan_in exec.old) exec.old }
    ensures values { GivesAnswer (typed_view typed.now) cells.old.coverages result }
    ensures faults { IfErr result (FailsReading typed.now.coverages.items cells.old.coverages cells.new.coverages) }
    ensures still { still_of cells.new.coverages ≡ still_of cells.old.coverages }
    ensures told { TellsFailures result cells.old.coverages cells.new.coverages }
    ensures fetched { UnlessFails result
        (FetchesBoxes (plan_in exec.old) cells.old.coverages cells.new.coverages) }
{
    cells.ask(0, exec.coverages())?;
    run_down(exec, workspace, cells, 0)?;
    match answer_of(cells.alloc, exec)? {
        Answer::Text(text) => Ok(text),
        Answer::Refused(fault) => Err(AnswerError::Named(fault.refusal())),
    }
}

/// The comma-separated values of a typed query, or the refusal by its evaluation.
fn values_of<D: Disk>(
    cells: &mut AskedCells<D>,
    workspace: &mut Workspace,
    typed: &TypedQuery,
) -> Result<String, AnswerError>
    requires unheld { held_for 0 cells.old.coverages.held ≡ None }
    requires held { All (IsHeld cells.old.coverages.store) typed.now.coverages.items }
    requires some { 1 ≤ length (typed_view typed.now).combinations }
    ensures values { GivesAnswer (typed_view typed.now) cells.old.coverages result }
    ensures faults { IfErr result (FailsReading typed.now.coverages.items cells.old.coverages cells.new.coverages) }
    ensures still { still_of cells.new.coverages ≡ still_of cells.old.coverages }
    ensures told { TellsFailures result cells.old.coverages cells.new.coverages }
    ensures fetched { UnlessFails result (FetchesPlan (typed_view typed.now) cells.old.coverages cells.new.coverages) }
{
    let plan = plan_of(cells.alloc, typed)?;
    let mut exec = Exec::new(cells.alloc, plan)?;
    values_by(cells, workspace, typed, &mut exec)
}

/// The answer to a query, as comma-separated values: the query is typed, then evaluated. It reads the store as it is,
/// as number 0, and nothing is held for it.
pub fn process<D: Disk>(
    cells: &mut AskedCells<D>,
    workspace: &mut Workspace,
    text: &str,
) -> Result<Reply, AnswerError>
    requires unheld { held_for 0 cells.old.coverages.held ≡ None }
    ensures answered { AnswersQuery text.now cells.old.coverages cells.new.coverages result }
    ensures answer { IfOk result IsAnswer }
    ensures still { still_of cells.new.coverages ≡ still_of cells.old.coverages }
    ensures told { TellsFailures result cells.old.coverages cells.new.coverages }
    ensures fetched { FetchesForText text.now cells.old.coverages cells.new.coverages result }
{
    let typed = typed_text(cells.alloc, &cells.coverages, text)?;
    let values = values_of(cells, workspace, &typed)?;
    Ok(Reply::Csv(values))
}
