//! Readers and writers that make a call again which a signal interrupted.
ghost use Rattle.std.specs.Prelude.{◌≡◌, ◌≢◌, ◌↔◌, Some, IsTrue, IfErr, OnErr};
ghost use Rattle.std.specs.Io.{ReadsAtMost, WritesAtMost};
ghost use Rattle.std.specs.Io.KnownBytes.{ReadConsumes, WriteAppends, Keeps};
ghost use Rattle.std.specs.IoError.{error_kind};
ghost use Rattle.stream_face.specs.Faults.{TellsRead, TellsWrite};
ghost use Rattle.rasterd.specs.Resuming.{HasFailed, TakesNothing};
ghost use Rattle.stream_face.specs.Waiting.{WaitsAfterWrite, WaitsAfterFlush};

use std::io;
use std::io::{Error, ErrorKind};
use stream_face::{Sink, Source, one_more_failure};

/// How often a call is made at most.
const MAX_TRIES: u32 = 1000;

/// A reader or a writer whose interrupted calls are made again, and how many calls on it have failed, up to the last
/// value of a `u64`: a call fails once, however often it was made. The system interrupts a call where the program is
/// stopped and continued, by a signal or a debugger, or the machine is suspended.
#[derive(Drop)]
pub struct Resumed<T> {
    pub inner: T,
    pub failures: u64,
}

impl<T> Resumed<T> {
    pub fn new(inner: T) -> Resumed<T>
        ensures inner { result.inner ≡ inner }
        ensures unfailed { result.failures ≡ 0 }
    {
        Resumed { inner, failures: 0 }
    }
}

/// The fault of a call that was interrupted each time.
fn too_often() -> Error
    ensures { error_kind result ≡ ErrorKind.TimedOut }
{
    Error::new(ErrorKind::TimedOut, "interrupted too often")
}

/// Whether a signal interrupted the call.
fn is_interrupted(error: &Error) -> bool
    ensures { IsTrue result ↔ (error_kind error.now ≡ ErrorKind.Interrupted) }
{
    error.kind() == ErrorKind::Interrupted
}

/// One read, made again as long as it is interrupted, at most `MAX_TRIES` times in all.
fn read_again<R: Source>(reader: &mut R, buf: &mut [u8]) -> io::Result<usize>
    ensures bound { ReadsAtMost result buf.new }
    ensures bytes { ReadConsumes (R.view reader.old).remaining (R.view reader.new).remaining result buf.new }
    ensures fault { OnErr result (HasFailed (R.view reader.old).failures (R.view reader.new).failures) }
    ensures resumed { IfErr result (λ e. error_kind e ≢ ErrorKind.Interrupted) }
{
    let mut left = MAX_TRIES;
    'reading: while left > 0 {
        match reader.read_some(buf) {
            Ok(count) => return Ok(count),
            Err(error) => {
                if !is_interrupted(&error) {
                    return Err(error);
                }
            }
        }
        left -= 1;
    }
    Err(too_often())
}

/// One write, made again as long as it is interrupted, at most `MAX_TRIES` times in all.
fn write_again<W: Sink>(writer: &mut W, bytes: &[u8]) -> io::Result<usize>
    ensures bound { WritesAtMost result bytes.now }
    ensures bytes { WriteAppends (W.view writer.old).contents (W.view writer.new).contents result bytes.now }
    ensures waits { WaitsAfterWrite (W.view writer.old).waiting (W.view writer.new).waiting result }
    ensures fault { OnErr result (HasFailed (W.view writer.old).failures (W.view writer.new).failures) }
    ensures nothing { TakesNothing (W.view writer.old).failures (W.view writer.new).failures result bytes.now }
    ensures resumed { IfErr result (λ e. error_kind e ≢ ErrorKind.Interrupted) }
{
    let mut left = MAX_TRIES;
    'writing: while left > 0 {
        match writer.write_some(bytes) {
            Ok(count) => return Ok(count),
            Err(error) => {
                if !is_interrupted(&error) {
                    return Err(error);
                }
            }
        }
        left -= 1;
    }
    Err(too_often())
}

/// Hands on what was written, again as long as it is interrupted, at most `MAX_TRIES` times in all.
fn hand_on_again<W: Sink>(writer: &mut W) -> io::Result<()>
    ensures bytes { Keeps (W.view writer.old).contents (W.view writer.new).contents }
    ensures waits { WaitsAfterFlush (W.view writer.old).waiting (W.view writer.new).waiting result }
    ensures fault { OnErr result (HasFailed (W.view writer.old).failures (W.view writer.new).failures) }
    ensures resumed { IfErr result (λ e. error_kind e ≢ ErrorKind.Interrupted) }
{
    let mut left = MAX_TRIES;
    'handing: while left > 0 {
        match writer.hand_on() {
            Ok(()) => return Ok(()),
            Err(error) => {
                if !is_interrupted(&error) {
                    return Err(error);
                }
            }
        }
        left -= 1;
    }
    Err(too_often())
}

impl<R: Source> Source for Resumed<R> {
    ghost view = { λ s. record { remaining = (R.view s.inner).remaining; failures = Some s.failures } };

    /// Fails only where a read of the reader has failed.
    fn read_some(&mut self, buf: &mut [u8]) -> io::Result<usize>
        ensures bound { ReadsAtMost result buf.new }
        ensures bytes { ReadConsumes (R.view self.old.inner).remaining (R.view self.new.inner).remaining result buf.new }
        ensures told { TellsRead (Some self.old.failures) (Some self.new.failures) result }
        ensures fault { OnErr result (HasFailed (R.view self.old.inner).failures (R.view self.new.inner).failures) }
        ensures resumed { IfErr result (λ e. error_kind e ≢ ErrorKind.Interrupted) }
    {
        match read_again(&mut self.inner, buf) {
            Ok(count) => Ok(count),
            Err(error) => {
                self.failures = one_more_failure(self.failures);
                Err(error)
            }
        }
    }
}

impl<W: Sink> Sink for Resumed<W> {
    ghost view = { λ s. record (W.view s.inner) { failures = Some s.failures } };

    /// Fails only where a write of the writer has failed.
    fn write_some(&mut self, bytes: &[u8]) -> io::Result<usize>
        ensures bound { WritesAtMost result bytes.now }
        ensures bytes { WriteAppends (W.view self.old.inner).contents (W.view self.new.inner).contents result bytes.now }
        ensures told { TellsWrite (Some self.old.failures) (Some self.new.failures) result bytes.now }
        ensures waits { WaitsAfterWrite (W.view self.old.inner).waiting (W.view self.new.inner).waiting result }
        ensures fault { OnErr result (HasFailed (W.view self.old.inner).failures (W.view self.new.inner).failures) }
        ensures nothing { TakesNothing (W.view self.old.inner).failures (W.view self.new.inner).failures result bytes.now }
        ensures resumed { IfErr result (λ e. error_kind e ≢ ErrorKind.Interrupted) }
    {
        match write_again(&mut self.inner, bytes) {
            Ok(0) => {
                if !bytes.is_empty() {
                    self.failures = one_more_failure(self.failures);
                }
                Ok(0)
            }
            Ok(count) => Ok(count),
            Err(error) => {
                self.failures = one_more_failure(self.failures);
                Err(error)
            }
        }
    }

    /// Fails only where the writer has failed to hand on.
    fn hand_on(&mut self) -> io::Result<()>
        ensures bytes { Keeps (W.view self.old.inner).contents (W.view self.new.inner).contents }
        ensures told { TellsRead (Some self.old.failures) (Some self.new.failures) result }
        ensures waits { WaitsAfterFlush (W.view self.old.inner).waiting (W.view self.new.inner).waiting result }
        ensures fault { OnErr result (HasFailed (W.view self.old.inner).failures (W.view self.new.inner).failures) }
        ensures resumed { IfErr result (λ e. error_kind e ≢ ErrorKind.Interrupted) }
    {
        match hand_on_again(&mut self.inner) {
            Ok(()) => Ok(()),
            Err(error) => {
                self.failures = one_more_failure(self.failures);
                Err(error)
            }
        }
    }
}
