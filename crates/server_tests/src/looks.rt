//! What a connection finds of its messages, look by look, and how much of the stream it has read then.

use anyhow::Result;
use http_front::{Connection, Next, PieceReader};
use std::alloc::Global;
use std::str;
use stream_face::Watched;
use test_rows::{bytes, cut_at, index, refusal};

/// Adds what a look found, on a line: the pairs of a message, the refusal, `Ended` or `ReadFault`.
fn say_found(alloc: Global, text: &mut String, found: &Next) -> Result<()> {
    match found {
        Next::Message(pairs) => text.push_str(str::from_utf8(pairs.as_slice())?)?,
        Next::Refused(number) => text.push_str(refusal(alloc, *number)?.as_str())?,
        Next::Ended => text.push_str("Ended")?,
        Next::ReadFault => text.push_str("ReadFault")?,
    }
    text.push_str("\n")?;
    Ok(())
}

/// What so many looks find, each on a line.
fn found(alloc: Global, source: &mut Watched<PieceReader<'_>>, count: usize) -> Result<String> {
    let mut connection = Connection::new();
    let mut text = String::new(alloc);
    for _look in 0..count {
        say_found(alloc, &mut text, &connection.next(alloc, source))?;
    }
    Ok(text)
}

/// What so many looks find on a stream, and how many bytes it has left then.
fn looked(alloc: Global, reader: PieceReader<'_>, count: usize) -> Result<String> {
    let mut source = Watched::new(reader);
    let text = found(alloc, &mut source, count)?;
    let left = source.inner.rest().len();
    Ok(format!(in alloc; "{text}{left} left")?)
}

/// What so many looks find on a stream whose reader gives so many bytes a read, and how many bytes it has left then. A
/// reader behind `!` fails at its end.
pub fn looks(alloc: Global, words: &str) -> Result<String> {
    let (step, rest) = cut_at(words, ' ');
    let (count, written) = cut_at(rest, ' ');
    let step = index(step)?;
    let count = index(count)?;
    let stream = bytes(alloc, written.strip_prefix('!').unwrap_or(written))?;
    let mut reader = PieceReader::new(stream.as_slice(), 0, step);
    if written.starts_with('!') {
        reader.break_off();
    }
    looked(alloc, reader, count)
}
