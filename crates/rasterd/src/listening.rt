//! Sockets: connections at a port of this machine, one after the other, over one store.
ghost use Rattle.std.specs.Prelude.{◌≡◌, IfOk, IsTrue, codes};
ghost use Rattle.coverage_server.specs.Disk.{ListsNone};
ghost use Rattle.coverage_server.specs.Leaving.{Continues};
ghost use Rattle.coverage_server.specs.Sessions.{IsUnopened, StaysHonest};
ghost use Rattle.rasterd.specs.Places.{ListensInMemory};
ghost use Rattle.rasterd.specs.Sessions.{EndsUpTo, IsSessionUpTo, ServesUpTo};
ghost use Rattle.rasterd.specs.Statuses.{ReportsListening};

use crate::lines::say;
use crate::place::{Place, open_place};
use crate::resumed::Resumed;
use crate::session::tell_end;
use block_file::NotOpened;
use coverage_server::{NotClosed, Server, SessionFault};
use disk_face::Disk;
use std::alloc::Global;
use std::net::{Ipv4Addr, SocketAddrV4, TcpListener, TcpStream};
use std::time::Duration;
use stream_face::{Sink, Watched};

/// The status where no socket was bound.
const NO_SOCKET: u8 = 5;

/// How long a connection may stay silent, or take nothing, in seconds.
const MAX_SILENCE: u64 = 60;

/// Has a read or a write of a connection that waits for too long fail.
fn set_patience(stream: &TcpStream) {
    let _reads = stream.set_read_timeout(Some(Duration::from_secs(MAX_SILENCE)));
    let _writes = stream.set_write_timeout(Some(Duration::from_secs(MAX_SILENCE)));
    let _small = stream.set_nodelay(true);
}

/// Serves a connection that was accepted to its end. A read or a write that waits for too long has failed; one that is
/// interrupted is made again.
fn serve_stream<D: Disk>(server: &mut Server<D>, stream: &TcpStream)
    ensures served { ServesUpTo 1 server.old server.new }
    ensures continues { Continues server.old.coverages server.new.coverages }
{
    set_patience(stream);
    let mut reader = Resumed::new(Watched::new(stream));
    let mut writer = Resumed::new(Watched::new(stream));
    let _end = server.serve_connection(&mut reader, &mut writer);
}

/// Serves the next client to the end of its connection. One that could not be accepted counts as one without messages.
fn serve_next<D: Disk>(server: &mut Server<D>, listener: &TcpListener)
    ensures served { ServesUpTo 1 server.old server.new }
    ensures continues { Continues server.old.coverages server.new.coverages }
{
    match listener.accept() {
        Ok((stream, _client)) => serve_stream(server, &stream),
        Err(_) => {}
    }
}

/// Serves so many clients, one after the other.
fn serve_each<D: Disk>(server: &mut Server<D>, listener: &TcpListener, count: u32)
    ensures served { ServesUpTo count server.old server.new }
    ensures continues { Continues server.old.coverages server.new.coverages }
{
    for _ in 0..count {
        serve_next(server, listener);
    }
}

/// Opens the store of a disk, serves so many clients, one after the other, and closes the store. Gives the disk; or the
/// disk that was not opened; or the server that was not closed.
fn serve_clients<D: Disk + Drop>(
    alloc: Global,
    disk: D,
    listener: &TcpListener,
    count: u32,
) -> Result<D, SessionFault<D>>
    ensures session { IsSessionUpTo count D.Disk disk result }
    ensures still { IfOk result (StaysHonest D.Disk disk) }
    ensures no_store { IsTrue (D.honest disk) → ListsNone (D.content disk) → IsUnopened result }
{
    let mut server = match Server::open(alloc, disk) {
        Ok(server) => server,
        Err(NotOpened { disk, fault }) => return Err(SessionFault::NotOpened(disk, fault)),
    };
    serve_each(&mut server, listener, count);
    match server.close_with_retry() {
        Ok(disk) => Ok(disk),
        Err(NotClosed { server, fault }) => Err(SessionFault::NotClosed(server, fault)),
    }
}

/// The same, and says on a line of `errors` why the store was not opened or not closed. Gives the status of that.
fn serve_listener<D: Disk + Drop, E: Sink>(
    alloc: Global,
    disk: D,
    listener: &TcpListener,
    count: u32,
    errors: &mut E,
) -> u8
    ensures end { EndsUpTo count D.Disk disk E.view errors.old errors.new result }
    ensures no_store { IsTrue (D.honest disk) → ListsNone (D.content disk) → result ≡ 3 }
    ensures quiet { result ≡ 0 → errors.new ≡ errors.old }
{
    let end = serve_clients(alloc, disk, listener, count);
    tell_end(errors, &end)
}

/// Serves so many connections at a port of this machine over the store in a file. The socket is bound before the store
/// is opened. Gives the status.
pub fn listen<E: Sink>(rt: &HostRuntime, file: &str, port: u16, count: u32, errors: &mut E) -> u8
    ensures reports { ReportsListening result (E.view errors.old) (E.view errors.new) }
    ensures memory { file.now ≡ codes "-" → ListensInMemory count E.view errors.old errors.new result }
{
    let alloc = rt.alloc();
    let Ok(listener) = TcpListener::bind(rt, SocketAddrV4::new(Ipv4Addr::LOCALHOST, port)) else {
        say(errors, "no socket\n");
        return NO_SOCKET;
    };
    match open_place(rt, file, errors) {
        Ok(Place::Memory(disk)) => serve_listener(alloc, disk, &listener, count, errors),
        Ok(Place::File(disk)) => serve_listener(alloc, disk, &listener, count, errors),
        Err(status) => status,
    }
}
