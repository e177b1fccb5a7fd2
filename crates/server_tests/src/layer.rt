//! The calls of the rows.

use crate::disks::Site;
use crate::looks::looks;
use crate::messages::{fetching, queried, repeated, replied, stepping, told};
use crate::storage::disks::TestDisk;
use crate::streams::{broken, failing, halting, limited, pieces, whole};
use anyhow::{Context, Result, bail};
use coverage_server::Server;
use std::alloc::{AllocError, Global};
use std::io::ErrorKind;
use test_rows::{Layer, bytes, cut, index, number, text};

/// What was written for a stream.
fn written(output: Result<Vec<u8>, AllocError>) -> Result<String> {
    Ok(String::from_utf8(output?)?)
}

/// What a request gives.
fn requested(alloc: Global, server: &mut Server<TestDisk>, written: &str) -> Result<String> {
    let pairs = text(alloc, written)?;
    let message = format!(in alloc; "GET /ows?{pairs} HTTP/1.1\r\n\r\n")?;
    replied(alloc, server, message.as_str())
}

/// What a call gives that has nothing to give.
fn done(alloc: Global) -> Result<String> {
    Ok(String::from_str(alloc, "ok")?)
}

/// Whether the body of a reply is want of memory, or that the disk failed.
fn is_of_device(body: &str) -> bool {
    body == "refused 90 NoMemory\n" || body == "refused 91 DiskFault\n"
}

impl Site {
    /// The body of the reply to a request. Where that is want of memory or a fault of the disk, the request that tells
    /// the state is asked, and then the request once more.
    fn ask(&mut self, alloc: Global, pairs: &[u8]) -> Result<String> {
        let server = self.server.as_mut().context("no server")?;
        let body = told(alloc, server, pairs)?;
        if !is_of_device(body.as_str()) {
            return Ok(body);
        }
        if let Some((request, state)) = &self.probe {
            if told(alloc, server, request.as_bytes())?.as_str() != state.as_str() {
                bail!("a refusal of the device changed the state");
            }
        }
        told(alloc, server, pairs)
    }

    /// Keeps the request that tells the state, and the body of its reply.
    fn keep(&mut self, alloc: Global, words: &str) -> Result<String> {
        let (pairs, body) = words.split_once(" is").context("no body")?;
        let pairs = String::from_str(alloc, pairs)?;
        self.probe = Some((pairs, text(alloc, body.strip_prefix(' ').unwrap_or(body))?));
        done(alloc)
    }

    /// The server that is open.
    fn opened(&mut self) -> Result<&mut Server<TestDisk>> {
        self.server.as_mut().context("no server")
    }

    /// A call on the server that is open, or on what the rows of storage speak to.
    fn asked(&mut self, rt: &HostRuntime, call: &str) -> Result<String> {
        let alloc = rt.alloc();
        let (verb, words) = cut(call);
        let (count, rest) = cut(words);
        match verb {
            "get" => requested(alloc, self.opened()?, words),
            "query" => queried(alloc, self.opened()?, text(alloc, words)?),
            "repeat" => repeated(alloc, self.opened()?, number(count)?, rest),
            "fetched" => Ok(format!(in alloc; "{}", self.opened()?.fetched())?),
            "fetching" => fetching(alloc, self.opened()?, number(count)?, rest),
            "stepping" => stepping(alloc, self.opened()?, words),
            "stream" => written(whole(alloc, self.opened()?, &bytes(alloc, words)?)),
            "pieces" => written(pieces(alloc, self.opened()?, &bytes(alloc, words)?)),
            "broken" => written(broken(alloc, self.opened()?, &bytes(alloc, words)?)),
            "limited" => written(limited(
                alloc,
                self.opened()?,
                index(count)?,
                &bytes(alloc, rest)?,
            )),
            "failing" => written(failing(
                alloc,
                self.opened()?,
                ErrorKind::Other,
                index(count)?,
                &bytes(alloc, rest)?,
            )),
            "interrupted" => written(failing(
                alloc,
                self.opened()?,
                ErrorKind::Interrupted,
                index(count)?,
                &bytes(alloc, rest)?,
            )),
            "halting" => written(halting(
                alloc,
                self.opened()?,
                index(count)?,
                &bytes(alloc, rest)?,
            )),
            _ => self.storage.answer(rt, call),
        }
    }
}

impl Layer for Site {
    /// Each verb stands once: here, in `asked`, or in what the rows of storage speak to, where any other word is an
    /// error.
    fn answer(&mut self, rt: &HostRuntime, call: &str) -> Result<String> {
        let alloc = rt.alloc();
        let (verb, words) = cut(call);
        let (count, rest) = cut(words);
        match verb {
            "open" => self.open(alloc, 0, 0, words),
            "open_failing" => self.open(alloc, number(count)?, 0, rest),
            "open_lying" => self.open(alloc, 0, number(count)?, rest),
            "reopen" => self.reopen(alloc),
            "close" => self.close(alloc),
            "is_closed" => self.is_closed(alloc, words),
            "session" => self.session(alloc, 0, words),
            "session_failing" => self.session(alloc, number(count)?, rest),
            "session_pieces" => self.session_pieces(alloc, index(count)?, rest),
            "devices" => self.on_devices(alloc, words),
            "looks" => looks(alloc, words),
            "script" => self.begin_script(alloc, words),
            "asks" => self.add_step(alloc, words),
            "growths" => self.play(rt, words),
            "ask" => self.ask(alloc, &bytes(alloc, words)?),
            "state" => self.keep(alloc, words),
            "writes" => {
                self.writes = String::from_str(alloc, words)?;
                done(alloc)
            }
            "later" => {
                self.later = String::from_str(alloc, words)?;
                done(alloc)
            }
            _ => self.asked(rt, call),
        }
    }
}
