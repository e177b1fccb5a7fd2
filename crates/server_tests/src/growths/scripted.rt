//! Scripts: messages that are asked in turn over the store of a file, and what is written for each where nothing fails.

use crate::storage::disks::TestDisk;
use crate::streams::whole;
use anyhow::{Context, Result};
use coverage_server::Server;
use std::alloc::{AllocError, Global};
use std::str;

/// A message that is answered by 11 whatever the store is, and the reply to it.
const BEHIND: &str = "GET /ows?request=none HTTP/1.1\r\n\r\n";

pub const REPLY_BEHIND: &str =
    "HTTP/1.1 400 Bad Request\r\nContent-Type: text/plain\r\nContent-Length: 26\r\n\r\nrefused 11 UnknownRequest\n";

/// The stream of a message with another one behind it, and the reply to the first.
#[derive(Drop)]
pub struct Step {
    pub stream: String,
    pub reply: String,
}

/// The bytes of a file, the steps over it, and the bytes of the file that is closed behind them.
#[derive(Drop)]
pub struct Script {
    pub file: Vec<u8>,
    pub steps: Vec<Step>,
    pub closed: Vec<u8>,
}

/// What stands behind the head of a reply.
fn body_of(reply: &str) -> &str {
    match reply.split_once("\r\n\r\n") {
        Some((_, body)) => body,
        None => reply,
    }
}

/// The stream of the pairs of a request.
fn stream_of(alloc: Global, pairs: &str) -> Result<String, AllocError> {
    let length = pairs.len();
    format!(in alloc; "POST /ows HTTP/1.1\r\nContent-Length: {length}\r\n\r\n{pairs}{BEHIND}")
}

/// The first reply to a stream.
fn reply_to(alloc: Global, server: &mut Server<TestDisk>, stream: &str) -> Result<String> {
    let written = whole(alloc, server, stream.as_bytes())?;
    let reply = str::from_utf8(&written)?
        .strip_suffix(REPLY_BEHIND)
        .context("the message behind it has another reply")?;
    Ok(String::from_str(alloc, reply)?)
}

impl Script {
    /// A script without a step over the store of a file.
    pub fn new(alloc: Global, file: Vec<u8>) -> Script {
        Script {
            file,
            steps: Vec::new(alloc),
            closed: Vec::new(alloc),
        }
    }

    /// Adds what is written for the pairs of a request, and gives the body of the reply.
    pub fn add(
        &mut self,
        alloc: Global,
        server: &mut Server<TestDisk>,
        pairs: &str,
    ) -> Result<String> {
        let stream = stream_of(alloc, pairs)?;
        let reply = reply_to(alloc, server, stream.as_str())?;
        let body = String::from_str(alloc, body_of(reply.as_str()))?;
        self.steps.push(Step { stream, reply })?;
        Ok(body)
    }
}
