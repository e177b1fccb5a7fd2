//! What is written for streams that come in pieces, and whose readers and writers may fail.

use crate::storage::disks::TestDisk;
use coverage_server::{ConnectionEnd, Server};
use http_front::{PieceReader, PieceWriter};
use std::alloc::{AllocError, Global};
use std::io::ErrorKind;
use stream_face::Watched;

/// A reader that gives a stream in one piece.
fn in_one(stream: &[u8]) -> PieceReader<'_> {
    PieceReader::new(stream, 0, usize::MAX)
}

/// A writer that takes each piece whole, and fails at none.
pub fn taking_all(alloc: Global) -> PieceWriter {
    PieceWriter::new(alloc, usize::MAX, usize::MAX)
}

/// How a connection ended, where that is by a fault; and what its reader or its writer tells otherwise, if anything: a
/// fault in another place, or bytes that were not flushed.
fn ending(end: ConnectionEnd, read_failed: bool, sink: &Watched<PieceWriter>) -> &'static str {
    let written = sink.inner.text().len();
    match end {
        ConnectionEnd::WriteFault if !read_failed && sink.failures > 0 => " WriteFault",
        ConnectionEnd::ReadFault if sink.failures == 0 && sink.inner.flushed() < written =>
            " not flushed",
        ConnectionEnd::ReadFault if sink.failures == 0 && read_failed => " ReadFault",
        ConnectionEnd::Finished if sink.failures == 0 && sink.inner.flushed() < written =>
            " not flushed",
        ConnectionEnd::Finished if sink.failures == 0 && !read_failed => "",
        _ => " another fault",
    }
}

/// What is written for a connection, and behind it how it ended where that is by a fault.
fn served(
    alloc: Global,
    server: &mut Server<TestDisk>,
    reader: PieceReader<'_>,
    writer: PieceWriter,
) -> Result<Vec<u8>, AllocError> {
    let mut source = Watched::new(reader);
    let mut sink = Watched::new(writer);
    let end = server.serve_connection(&mut source, &mut sink);
    let mut text = Vec::from_slice(alloc, sink.inner.text())?;
    text.extend_from_slice(ending(end, source.failures > 0, &sink).as_bytes())?;
    Ok(text)
}

/// What is written for a stream that comes in one piece.
pub fn whole(
    alloc: Global,
    server: &mut Server<TestDisk>,
    stream: &[u8],
) -> Result<Vec<u8>, AllocError> {
    served(alloc, server, in_one(stream), taking_all(alloc))
}

/// What is written for a stream whose reader fails behind it.
pub fn broken(
    alloc: Global,
    server: &mut Server<TestDisk>,
    stream: &[u8],
) -> Result<Vec<u8>, AllocError> {
    let mut reader = in_one(stream);
    reader.break_off();
    served(alloc, server, reader, taking_all(alloc))
}

/// What is written for a stream whose reader gives so many bytes a read and fails at its first read with a fault of
/// this kind, then where it fails at its second, and so on up to the read behind the stream.
pub fn failing(
    alloc: Global,
    server: &mut Server<TestDisk>,
    kind: ErrorKind,
    step: usize,
    stream: &[u8],
) -> Result<Vec<u8>, AllocError> {
    let mut text = Vec::new(alloc);
    let reads = stream.len().div_ceil(step.max(1)) as u64;
    for due in 1..=reads.saturating_add(1) {
        let mut reader = PieceReader::new(stream, 0, step);
        reader.fail_at(due, kind);
        let output = served(alloc, server, reader, taking_all(alloc))?;
        text.extend_from_slice(&output)?;
    }
    Ok(text)
}

/// What is written for a stream by a writer that takes so many bytes.
pub fn limited(
    alloc: Global,
    server: &mut Server<TestDisk>,
    room: usize,
    stream: &[u8],
) -> Result<Vec<u8>, AllocError> {
    let writer = PieceWriter::new(alloc, usize::MAX, room);
    served(alloc, server, in_one(stream), writer)
}

/// What is written for a stream by a writer that takes so many bytes a write, and of whose calls, writes and flushes,
/// the first fails; then where its second fails, and so on until none does.
pub fn halting(
    alloc: Global,
    server: &mut Server<TestDisk>,
    step: usize,
    stream: &[u8],
) -> Result<Vec<u8>, AllocError> {
    let mut text = Vec::new(alloc);
    for due in 1..=1000 {
        let mut writer = PieceWriter::new(alloc, step, usize::MAX);
        writer.fail_at(due, ErrorKind::Other);
        let output = served(alloc, server, in_one(stream), writer)?;
        text.extend_from_slice(&output)?;
        if !output.ends_with(b"WriteFault") {
            break;
        }
        text.push(b'\n')?;
    }
    Ok(text)
}

/// What is written for a stream, where it is the same for that stream in one piece, in two that part at each byte, and
/// byte by byte; else what first differs.
pub fn pieces(
    alloc: Global,
    server: &mut Server<TestDisk>,
    stream: &[u8],
) -> Result<Vec<u8>, AllocError> {
    let expected = whole(alloc, server, stream)?;
    for cut in 0..stream.len() {
        let step = if cut == 0 { 1 } else { usize::MAX };
        let reader = PieceReader::new(stream, cut, step);
        let writer = PieceWriter::new(alloc, step, usize::MAX);
        let output = served(alloc, server, reader, writer)?;
        if output.as_slice() != expected.as_slice() {
            return Ok(output);
        }
    }
    Ok(expected)
}
