//! A reader or a writer of std that counts its failures, and tells whether bytes wait for a flush.
ghost use Rattle.std.specs.Prelude.{◌≡◌, Some, false};
ghost use Rattle.stream_face.specs.Faults.{one_more_failure};

use crate::{Sink, Source};
use std::io;
use std::io::{Read, Write};

/// A reader or a writer, how many calls on it have failed, up to the last value of a `u64`, and whether bytes that it
/// took wait for a flush.
#[derive(Drop)]
pub struct Watched<T> {
    pub inner: T,
    pub failures: u64,
    pub waiting: bool,
}

impl<T> Watched<T> {
    pub fn new(inner: T) -> Watched<T>
        ensures inner { result.inner ≡ inner }
        ensures unfailed { result.failures ≡ 0 }
        ensures flushed { result.waiting ≡ false }
    {
        Watched {
            inner,
            failures: 0,
            waiting: false,
        }
    }
}

/// The count of failures after one more.
pub fn one_more_failure(failures: u64) -> u64
    ensures { Some result ≡ one_more_failure (Some failures) }
{
    failures.saturating_add(1)
}

impl<R: Read> Source for Watched<R> {
    ghost view = { λ w. record { remaining = R.remaining w.inner; failures = Some w.failures } };

    fn read_some(&mut self, buf: &mut [u8]) -> io::Result<usize> {
        match self.inner.read(buf) {
            Ok(count) => Ok(count),
            Err(error) => {
                self.failures = one_more_failure(self.failures);
                Err(error)
            }
        }
    }
}

impl<W: Write> Sink for Watched<W> {
    ghost view = { λ w. record { contents = W.contents w.inner; failures = Some w.failures; waiting = Some w.waiting } };

    fn write_some(&mut self, bytes: &[u8]) -> io::Result<usize> {
        match self.inner.write(bytes) {
            Ok(0) => {
                if !bytes.is_empty() {
                    self.failures = one_more_failure(self.failures);
                }
                Ok(0)
            }
            Ok(count) => {
                self.waiting = true;
                Ok(count)
            }
            Err(error) => {
                self.failures = one_more_failure(self.failures);
                Err(error)
            }
        }
    }

    fn hand_on(&mut self) -> io::Result<()> {
        match self.inner.flush() {
            Ok(()) => {
                self.waiting = false;
                Ok(())
            }
            Err(error) => {
                self.failures = one_more_failure(self.failures);
                Err(error)
            }
        }
    }
}
