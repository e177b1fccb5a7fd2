//! A session: a disk is opened, connections are served one after the other, and the disk is closed.
ghost use Rattle.std.specs.Prelude.{◌≡◌, length, IfOk, IsTrue};
ghost use Rattle.coverage_server.specs.Disk.{ListsNone};
ghost use Rattle.coverage_server.specs.Leaving.{Continues};
ghost use Rattle.coverage_server.specs.Sessions.{AreServed, IsSession, IsUnopened, StaysHonest, ends_all};

use crate::closing::NotClosed;
use crate::server::Server;
use block_file::{CloseFault, NotOpened, OpenFault};
use disk_face::Disk;
use std::alloc::Global;
use stream_face::{Sink, Source};

/// Why a session did not end by a close: the disk was not opened, and is given back; or the server was not closed,
/// which has its store and may be closed again.
#[derive(Drop)]
pub enum SessionFault<D: Disk> {
    NotOpened(D, OpenFault),
    NotClosed(Server<D>, CloseFault),
}

/// Serves each connection to its end, one after the other.
fn serve_all<D: Disk, R: Source, W: Sink>(server: &mut Server<D>, connections: &mut [(R, W)])
    ensures served { AreServed (ends_all R.view W.view connections.old connections.new) server.old server.new }
    ensures continues { Continues server.old.coverages server.new.coverages }
    ensures count { length connections.new ≡ length connections.old }
{
    for connection in connections.iter_mut() {
        let _end = server.serve_connection(&mut connection.0, &mut connection.1);
    }
}

/// Opens the store of a disk, serves each connection, its reader and its writer, to its end, one after the other, and
/// closes the store. Gives the disk, which lists the store that the connections left, and holds it where its tiles are
/// intact; or the disk that was not opened; or the server that was not closed.
pub fn serve_session<D: Disk + Drop, R: Source, W: Sink>(
    alloc: Global,
    disk: D,
    streams: &mut [(R, W)],
) -> Result<D, SessionFault<D>>
    ensures ends { IsSession D.Disk disk (ends_all R.view W.view streams.old streams.new) result }
    ensures still { IfOk result (StaysHonest D.Disk disk) }
    ensures untouched { IsUnopened result → streams.new ≡ streams.old }
    ensures no_store { IsTrue (D.honest disk) → ListsNone (D.content disk) → IsUnopened result }
    ensures count { length streams.new ≡ length streams.old }
{
    let mut server = match Server::open(alloc, disk) {
        Ok(server) => server,
        Err(NotOpened { disk, fault }) => return Err(SessionFault::NotOpened(disk, fault)),
    };
    serve_all(&mut server, streams);
    match server.close_with_retry() {
        Ok(disk) => Ok(disk),
        Err(NotClosed { server, fault }) => Err(SessionFault::NotClosed(server, fault)),
    }
}
