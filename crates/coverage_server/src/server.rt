//! The server: requests act on the coverages, and each gets a reply.
ghost use Rattle.std.specs.Prelude.{◌≡◌, IfOk, IfErr};
ghost use Rattle.kvp_front.specs.Requests.{asks};
ghost use Rattle.http_front.specs.declared.connection.Next.TheVariants.{Ended, ReadFault};
ghost use Rattle.coverage_server.specs.Answered.{AnsweredAs, IsAnswer, LeavesTiles, TellsFailures};
ghost use Rattle.coverage_server.specs.Fetching.{FetchesBounded, FetchesNext};
ghost use Rattle.coverage_server.specs.Growing.{Grows, GrowsNext};
ghost use Rattle.coverage_server.specs.Holding.{IsHolding};
ghost use Rattle.coverage_server.specs.Leaving.{Continues, Leaves, LeavesFailures, IfRefused, refusal_number, reply_of};
ghost use Rattle.coverage_server.specs.Represents.{Refines, Steps};
ghost use Rattle.coverage_server.specs.Serves.{IsReply, IsServed, TellsEnd, ends_of};
ghost use Rattle.catalogue.specs.Signatures.{IsCatalogue};
ghost use Rattle.coverage_server.specs.Views.{signatures_of};

use crate::cells::AskedCells;
use crate::error::AnswerError;
use crate::jobs::{cancel_job, fetch_job, step_job, submit_query};
use crate::query::process;
use crate::requests::{delete, describe, insert, list, update};
use crate::templates::{expand_template, process_template};
use disk_face::Disk;
use http_front::{Connection, Next, Reply, WriteFault};
use job_desk::JobDesk;
use kvp_front::{Request, read_request};
use std::alloc::Global;
use std::marker::Model;
use stream_face::{Sink, Source};
use tile_exec::Workspace;

/// How a connection ended: by a message or the end of the stream, or by a read or a write that failed.
#[derive(Clone, Copy, PartialEq, Eq)]
pub enum ConnectionEnd {
    Finished,
    ReadFault,
    WriteFault,
}

/// A server of the coverages of a disk, its jobs, and what the units of all queries work in.
#[derive(Drop)]
pub struct Server<D: Disk> {
    pub(crate) cells: AskedCells<D>,
    pub(crate) desk: JobDesk,
    pub(crate) workspace: Workspace,
}

impl<D: Disk> Model for Server<D> {
    ghost use Rattle.std.specs.Coded.{codes};
    ghost use Rattle.coverage_server.specs.Holding.{IsHolding};
    ghost use Rattle.coverage_server.specs.Views.{SessionView, session};
    ghost use Rattle.job_desk.specs.contracts.job.Job as job;

    ghost Value = { SessionView };

    ghost coded = { Prim.hlevel (codes, job.the_row.coded) };

    ghost view = { λ s. session s.cells.coverages s.desk };

    ghost invariant = { λ s. IsHolding s.desk s.cells.coverages.held };
}

/// What was answered, or the refusal that is told in its place.
fn reply_of(answered: Result<Reply, AnswerError>) -> Reply
    ensures { result ≡ reply_of answered }
{
    match answered {
        Ok(reply) => reply,
        Err(error) => Reply::Refused(error.refusal().number()),
    }
}

impl<D: Disk> Server<D> {
    /// What a request is answered, or why it is refused.
    fn answered(&mut self, request: &Request) -> Result<Reply, AnswerError>
        ensures answered { AnsweredAs (asks request.now) self.old self.new result }
        ensures tiles { LeavesTiles (asks request.now) result self.old self.new }
        ensures answer { IfOk result IsAnswer }
        ensures leaves { IfErr result (λ e. Leaves (asks request.now) (refusal_number e) self.old self.new) }
        ensures told { TellsFailures result self.old.coverages self.new.coverages }
        ensures continues { Continues self.old.coverages self.new.coverages }
        ensures holding { IsHolding self.new.desk self.new.coverages.held }
        ensures fetches { FetchesBounded (asks request.now) (reply_of result) self.old self.new }
        ensures grows { Grows (asks request.now) self.old.coverages self.new.coverages }
    {
        let alloc = self.cells.alloc;
        let _whole = self.cells.coverages.len();
        match request {
            Request::InsertCoverage(insertion) => {
                insert(alloc, &mut self.cells.coverages, insertion)
            }
            Request::UpdateCoverage(change) => update(alloc, &mut self.cells.coverages, change),
            Request::DeleteCoverage(name) => delete(alloc, &mut self.cells.coverages, name),
            Request::ListCoverages => list(alloc, &self.cells.coverages),
            Request::DescribeCoverage(name) => describe(alloc, &self.cells.coverages, name),
            Request::ProcessCoverages(query) => {
                process(&mut self.cells, &mut self.workspace, query.as_str())
            }
            Request::SubmitQuery(query) => {
                submit_query(&mut self.cells, &mut self.desk, query.as_str())
            }
            Request::StepJob(asked) => step_job(
                &mut self.cells,
                &mut self.desk,
                &mut self.workspace,
                asked.job,
                asked.units,
            ),
            Request::FetchJob(job) => fetch_job(&mut self.desk, *job),
            Request::CancelJob(job) => cancel_job(&mut self.cells, &mut self.desk, *job),
            Request::ExpandTemplate(template) => {
                expand_template(alloc, &self.cells.coverages, template)
            }
            Request::ProcessTemplate(template) => {
                process_template(&mut self.cells, &mut self.workspace, template)
            }
        }
    }

    /// Answers a request: from each state of the machine that the server represents, with its tiles where they lie, one
    /// step of it to one that it then represents, on an honest disk. In place of any reply want of memory, a disk
    /// fault, want of room or damage may be told: a disk fault where a call of the disk failed, and only there; damage
    /// only where a tile that is in the way of this very request is not spelled. A refusal leaves the signatures, the
    /// indexes, the jobs and what is held for them as they were on any disk, but that a step that is refused may have
    /// done units that its job still shows as left, and that a job whose answer is the fault that is told is fetched.
    /// The coverages are those of a catalogue. Coverages are held for exactly the jobs that have units left. Tiles are
    /// fetched for ProcessCoverages, ProcessTemplate and StepJob alone: no more than the sum of the bounds of the boxes
    /// of the query's plan, or of the units that were done, unless it fails. UpdateCoverage alone writes, and grows the
    /// file no further than its new tiles need.
    pub fn answer(&mut self, request: &Request) -> Reply
        ensures step { Refines (λ p q. Steps (asks request.now) self.old p result q) self.old self.new }
        ensures catalogue { IsCatalogue (signatures_of self.old.coverages.store) }
        ensures leaves { IfRefused result (λ code. Leaves (asks request.now) code self.old self.new) }
        ensures failures { LeavesFailures result self.old.coverages self.new.coverages }
        ensures continues { Continues self.old.coverages self.new.coverages }
        ensures holding { IsHolding self.new.desk self.new.coverages.held }
        ensures fetches { FetchesBounded (asks request.now) result self.old self.new }
        ensures grows { Grows (asks request.now) self.old.coverages self.new.coverages }
    {
        let _count = self.cells.coverages.len();
        let answered = self.answered(request);
        let _whole = self.cells.coverages.len();
        reply_of(answered)
    }

    /// The reply to what a connection asks.
    fn reply_to(&mut self, next: Next) -> Reply
        requires ended { next ≡ Ended → ⊥ }
        requires read { next ≡ ReadFault → ⊥ }
        ensures step { IsReply next self.old result self.new }
        ensures continues { Continues self.old.coverages self.new.coverages }
        ensures fetches { FetchesNext next result self.old self.new }
        ensures grows { GrowsNext next self.old.coverages self.new.coverages }
    {
        let alloc = self.cells.alloc;
        match next {
            Next::Message(pairs) => match read_request(alloc, pairs.as_slice()) {
                Ok(request) => {
                    let reply = self.answer(&request);
                    drop(request);
                    reply
                }
                Err(error) => Reply::Refused(error.refusal().number()),
            },
            Next::Refused(code) => Reply::Refused(code),
            Next::Ended => unreachable!(),
            Next::ReadFault => unreachable!(),
        }
    }

    /// How many tiles were fetched. The count stays at the last value of a `u64`.
    pub fn fetched(&self) -> u64
        ensures { result ≡ self.now.coverages.fetched }
    {
        self.cells.coverages.fetched()
    }

    /// Serves a connection to its end: reads messages, answers each and writes the replies. `ReadFault` and
    /// `WriteFault` are answered exactly where a read or a write failed in it.
    pub fn serve_connection<R: Source, W: Sink>(
        &mut self,
        reader: &mut R,
        writer: &mut W,
    ) -> ConnectionEnd
        ensures served { IsServed (ends_of R.view W.view reader.old reader.new writer.old writer.new) result self.old self.new }
        ensures told { TellsEnd (ends_of R.view W.view reader.old reader.new writer.old writer.new) result }
        ensures continues { Continues self.old.coverages self.new.coverages }
    {
        let alloc = self.cells.alloc;
        let mut connection = Connection::new();
        'serving: loop {
            match connection.next(alloc, reader) {
                Next::Ended => return ConnectionEnd::Finished,
                Next::ReadFault => return ConnectionEnd::ReadFault,
                next => {
                    let reply = self.reply_to(next);
                    match connection.send(writer, &reply) {
                        Ok(()) => {}
                        Err(WriteFault) => return ConnectionEnd::WriteFault,
                    }
                    if connection.is_over() {
                        return ConnectionEnd::Finished;
                    }
                }
            }
        }
    }
}
