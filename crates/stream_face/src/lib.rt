//! Readers and writers that tell how many of their calls have failed, and writers that tell whether bytes wait for a
//! flush. std's `Read` and `Write` tell the bytes alone, so of code over them nobody could prove that it speaks of a
//! fault only where a call failed, that it makes no call behind one that failed, or that it flushes what it wrote; over
//! `Source` and `Sink` it can be proved.
#![tactic(auto)]

ghost use Rattle.std.specs.Prelude.{None};
ghost use Rattle.std.specs.Io.{ReadsAtMost, WritesAtMost};
ghost use Rattle.std.specs.Io.KnownBytes.{ReadConsumes, WriteAppends, Keeps};
ghost use Rattle.stream_face.specs.Faults.{TellsRead, TellsWrite};
ghost use Rattle.stream_face.specs.Waiting.{WaitsAfterWrite, WaitsAfterFlush};
ghost use Rattle.stream_face.specs.Views.{SourceView, SinkView};

mod sending;
mod watched;

pub use sending::{flush_if, send_all};
use std::io;
use std::io::{Read, Write};
pub use watched::{Watched, one_more_failure};

/// Where bytes come from: in pieces, until an end or a fault.
pub trait Source {
    /// The bytes that are still to come, and how many reads have failed so far, where the source tells them.
    ghost view: { Self → SourceView };

    /// One read: how many bytes of the buffer were filled, where none of some means the end.
    fn read_some(&mut self, buf: &mut [u8]) -> io::Result<usize>
        ensures bound { ReadsAtMost result buf.new }
        ensures bytes { ReadConsumes (view self.old).remaining (view self.new).remaining result buf.new }
        ensures told { TellsRead (view self.old).failures (view self.new).failures result };
}

/// Where bytes go: in pieces, until a fault.
pub trait Sink {
    /// The bytes that have come so far, how many calls have failed or were writes that took none of some bytes, and
    /// whether bytes that were taken wait for a flush, where the sink tells them.
    ghost view: { Self → SinkView };

    /// One write: how many of the bytes were taken.
    fn write_some(&mut self, bytes: &[u8]) -> io::Result<usize>
        ensures bound { WritesAtMost result bytes.now }
        ensures bytes { WriteAppends (view self.old).contents (view self.new).contents result bytes.now }
        ensures told { TellsWrite (view self.old).failures (view self.new).failures result bytes.now }
        ensures waits { WaitsAfterWrite (view self.old).waiting (view self.new).waiting result };

    /// Flushes what was written.
    fn hand_on(&mut self) -> io::Result<()>
        ensures bytes { Keeps (view self.old).contents (view self.new).contents }
        ensures told { TellsRead (view self.old).failures (view self.new).failures result }
        ensures waits { WaitsAfterFlush (view self.old).waiting (view self.new).waiting result };
}

/// A reader of std tells no faults.
impl<R: Read> Source for R {
    ghost view = { λ r. record { remaining = R.remaining r; failures = None } };

    fn read_some(&mut self, buf: &mut [u8]) -> io::Result<usize> {
        self.read(buf)
    }
}

/// A writer of std tells neither faults nor what waits.
impl<W: Write> Sink for W {
    ghost view = { λ w. record { contents = W.contents w; failures = None; waiting = None } };

    fn write_some(&mut self, bytes: &[u8]) -> io::Result<usize> {
        self.write(bytes)
    }

    fn hand_on(&mut self) -> io::Result<()> {
        self.flush()
    }
}
