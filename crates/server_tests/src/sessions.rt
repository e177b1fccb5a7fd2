//! Whole sessions: connections one after the other over one store, by one call.

use crate::disks::Site;
use crate::storage::disks::TestDisk;
use crate::streams::taking_all;
use anyhow::Result;
use coverage_server::{SessionFault, serve_session};
use http_front::{PieceReader, PieceWriter};
use std::alloc::Global;
use std::str;
use stream_face::Watched;
use test_rows::{bytes, cut, refusal};

/// The bytes of a stream, and whether its reader fails behind them.
#[derive(Drop)]
pub struct Stream {
    bytes: Vec<u8>,
    breaks: bool,
}

/// The reader and the writer of a connection.
pub type Connection<'a> = (Watched<PieceReader<'a>>, Watched<PieceWriter>);

/// The streams that stand parted by ` | `; none for `none`. The reader of one behind `!` fails at its end.
pub fn streams_of(alloc: Global, written: &str) -> Result<Vec<Stream>> {
    let mut streams = Vec::new(alloc);
    if written == "none" {
        return Ok(streams);
    }
    for part in written.split(" | ") {
        let stream = part.strip_prefix('!').unwrap_or(part);
        streams.push(Stream {
            bytes: bytes(alloc, stream)?,
            breaks: stream.len() < part.len(),
        })?;
    }
    Ok(streams)
}

/// The connections of streams, each of which is read in two pieces, parted at `cut`, or in one for 0.
pub fn connections_of<'a>(
    alloc: Global,
    streams: &'a [Stream],
    cut: usize,
) -> Result<Vec<Connection<'a>>> {
    let mut connections = Vec::new(alloc);
    for stream in streams {
        let mut reader = PieceReader::new(stream.bytes.as_slice(), cut, usize::MAX);
        if stream.breaks {
            reader.break_off();
        }
        connections.push((Watched::new(reader), Watched::new(taking_all(alloc))))?;
    }
    Ok(connections)
}

/// What was written for the connections, parted by ` | `.
fn replies_of(alloc: Global, connections: &[Connection<'_>]) -> Result<String> {
    let mut text = String::new(alloc);
    for (place, (_, sink)) in connections.iter().enumerate() {
        if place > 0 {
            text.push_str(" | ")?;
        }
        text.push_str(str::from_utf8(sink.inner.text())?)?;
    }
    Ok(text)
}

/// How a session ended: with the bytes of its disk, or by a refusal with its number.
#[derive(Drop)]
enum Ending {
    Closed(Vec<u8>),
    NotOpened(u16),
    NotClosed(u16),
}

impl Site {
    /// Keeps a server that was not closed, and gives how the session ended.
    fn ending(&mut self, outcome: Result<TestDisk, SessionFault<TestDisk>>) -> Ending {
        match outcome {
            Ok(disk) => Ending::Closed(disk.into_bytes()),
            Err(SessionFault::NotOpened(_, fault)) => Ending::NotOpened(fault.refusal().number()),
            Err(SessionFault::NotClosed(server, fault)) => {
                self.server = Some(server);
                Ending::NotClosed(fault.refusal().number())
            }
        }
    }

    /// What a session wrote, and behind it why it was not closed; or why it was not opened. Names the bytes of its
    /// disk.
    fn told(
        &mut self,
        alloc: Global,
        connections: &[Connection<'_>],
        ending: Ending,
    ) -> Result<String> {
        let text = replies_of(alloc, connections)?;
        match ending {
            Ending::Closed(bytes) => {
                self.storage.files.put(alloc, "closed", bytes)?;
                Ok(text)
            }
            Ending::NotOpened(number) => refusal(alloc, number),
            Ending::NotClosed(number) => {
                let refused = refusal(alloc, number)?;
                Ok(format!(in alloc; "{text} not closed: {refused}")?)
            }
        }
    }

    /// What a session on a file writes, on a disk whose call of that number fails, and none for 0. The file `closed`
    /// has the bytes of its disk then. A server that is not closed stays, as after `open`.
    fn session_cut(
        &mut self,
        alloc: Global,
        call: u64,
        part: usize,
        words: &str,
    ) -> Result<String> {
        let (file, written) = cut(words);
        let streams = streams_of(alloc, written)?;
        let mut connections = connections_of(alloc, streams.as_slice(), part)?;
        let bytes = self.storage.files.bytes(alloc, file)?;
        let disk = TestDisk::new(bytes, call, 0, u64::MAX);
        let outcome = serve_session(alloc, disk, connections.as_mut_slice());
        let ending = self.ending(outcome);
        self.told(alloc, connections.as_slice(), ending)
    }

    /// What a session writes whose streams come in one piece.
    pub fn session(&mut self, alloc: Global, call: u64, words: &str) -> Result<String> {
        self.session_cut(alloc, call, 0, words)
    }

    /// What a session writes, where it is the same for its streams in one piece and in two that part at each of so many
    /// first bytes; else what first differs.
    pub fn session_pieces(&mut self, alloc: Global, count: usize, words: &str) -> Result<String> {
        let expected = self.session(alloc, 0, words)?;
        for cut in 1..count {
            let text = self.session_cut(alloc, 0, cut, words)?;
            if text.as_str() != expected.as_str() {
                return Ok(text);
            }
        }
        Ok(expected)
    }
}
