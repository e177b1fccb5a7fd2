//! One session of the program, with its status.
ghost use Rattle.std.specs.Prelude.{◌≡◌, ◌≢◌, Err, IfOk, IsSomeAnd, IsTrue, codes};
ghost use Rattle.coverage_server.specs.Disk.{ListsNone};
ghost use Rattle.coverage_server.specs.Sessions.{IsSession, StaysHonest, ends_all};
ghost use Rattle.rasterd.specs.Lines.{Says, fault_line};
ghost use Rattle.rasterd.specs.Sessions.{EndsAs, SaysWhy, status_of};

use crate::lines::tell;
use arr_core::Refusal;
use coverage_server::{SessionFault, serve_session};
use disk_face::Disk;
use std::alloc::Global;
use stream_face::{Sink, Source};

/// The status of a session whose store was closed.
pub const CLOSED: u8 = 0;

/// The status where the store was not opened.
const NOT_OPENED: u8 = 3;

/// The status where the store was not closed.
const NOT_CLOSED: u8 = 4;

/// Says on a line why a store was not opened. Gives the status of that.
pub fn not_opened<E: Sink>(errors: &mut E, refusal: Refusal) -> u8
    ensures status { result ≡ 3 }
    ensures says { Says (E.view errors.old) (E.view errors.new) (fault_line (codes "not opened") refusal) }
{
    tell(errors, "not opened", refusal);
    NOT_OPENED
}

/// Says on a line why a store was not closed. Gives the status of that.
pub fn not_closed<E: Sink>(errors: &mut E, refusal: Refusal) -> u8
    ensures status { result ≡ 4 }
    ensures says { Says (E.view errors.old) (E.view errors.new) (fault_line (codes "not closed") refusal) }
{
    tell(errors, "not closed", refusal);
    NOT_CLOSED
}

/// Says on a line why a session did not end by a close. Gives the status of that.
fn tell_fault<D: Disk, E: Sink>(errors: &mut E, fault: &SessionFault<D>) -> u8
    ensures status { result ≡ status_of (Err fault.now) }
    ensures line { SaysWhy (E.view errors.old) (E.view errors.new) (Err fault.now) }
    ensures told { result ≢ 0 }
{
    match fault {
        SessionFault::NotOpened(_, fault) => not_opened(errors, fault.refusal()),
        SessionFault::NotClosed(_, fault) => not_closed(errors, fault.refusal()),
    }
}

/// Says on a line why a session did not end by a close, and nothing where it did. Gives the status of that: `CLOSED`,
/// `NOT_OPENED` or `NOT_CLOSED`.
pub fn tell_end<D: Disk, E: Sink>(errors: &mut E, end: &Result<D, SessionFault<D>>) -> u8
    ensures status { result ≡ status_of end.now }
    ensures line { SaysWhy (E.view errors.old) (E.view errors.new) end.now }
    ensures quiet { result ≡ 0 → errors.new ≡ errors.old }
{
    match end {
        Ok(_) => CLOSED,
        Err(fault) => tell_fault(errors, fault),
    }
}

/// Opens the store that a disk holds, serves one connection, its reader and its writer, and closes the store. Gives the
/// status of the program, and how the session ended: `CLOSED`; or `NOT_OPENED`, where the reader and the writer are as
/// they were, or `NOT_CLOSED`, with a line of `errors` that says why. A disk that lists no store is not opened.
pub fn session_end<D: Disk + Drop, R: Source, W: Sink, E: Sink>(
    alloc: Global,
    disk: D,
    streams: &mut [(R, W); 1],
    errors: &mut E,
) -> (u8, Result<D, SessionFault<D>>)
    ensures session { IsSession D.Disk disk (ends_all R.view W.view streams.old streams.new) result.1 }
    ensures status { result.0 ≡ status_of result.1 }
    ensures line { SaysWhy (E.view errors.old) (E.view errors.new) result.1 }
    ensures still { IfOk result.1 (StaysHonest D.Disk disk) }
    ensures no_store { IsTrue (D.honest disk) → ListsNone (D.content disk) → result.0 ≡ 3 }
    ensures untouched { result.0 ≡ 3 → streams.new ≡ streams.old }
    ensures quiet { result.0 ≡ 0 → errors.new ≡ errors.old }
{
    let end = serve_session(alloc, disk, streams);
    let status = tell_end(errors, &end);
    (status, end)
}

/// The same, and gives the disk where it came back: a server that was not closed has it, and is let go.
pub fn session_status<D: Disk + Drop, R: Source, W: Sink, E: Sink>(
    alloc: Global,
    disk: D,
    streams: &mut [(R, W); 1],
    errors: &mut E,
) -> (u8, Option<D>)
    ensures end { EndsAs D.Disk disk (ends_all R.view W.view streams.old streams.new) E.view errors.old errors.new result }
    ensures still { result.0 ≡ 0 → IsSomeAnd result.1 (StaysHonest D.Disk disk) }
    ensures no_store { IsTrue (D.honest disk) → ListsNone (D.content disk) → result.0 ≡ 3 }
    ensures untouched { result.0 ≡ 3 → streams.new ≡ streams.old }
    ensures quiet { result.0 ≡ 0 → errors.new ≡ errors.old }
{
    let (status, end) = session_end(alloc, disk, streams, errors);
    match end {
        Ok(disk) => (status, Some(disk)),
        Err(SessionFault::NotOpened(disk, _)) => (status, Some(disk)),
        Err(SessionFault::NotClosed(server, _)) => {
            drop(server);
            (status, None)
        }
    }
}
