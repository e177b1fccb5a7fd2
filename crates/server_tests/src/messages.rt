//! Requests as messages and by themselves, and their replies as text.

use crate::storage::disks::TestDisk;
use crate::streams::whole;
use anyhow::{Result, bail};
use coverage_server::Server;
use http_front::Reply;
use kvp_front::{Request, read_request};
use std::alloc::{AllocError, Global};
use test_rows::{cut, number, refusal};

/// The body of a reply.
fn body_of(alloc: Global, reply: &Reply) -> Result<String> {
    match reply {
        Reply::Text(text) => Ok(String::from_str(alloc, text.as_str())?),
        Reply::Csv(text) => Ok(String::from_str(alloc, text.as_str())?),
        Reply::Refused(number) => {
            let name = refusal(alloc, *number)?;
            Ok(format!(in alloc; "refused {name}\n")?)
        }
    }
}

/// The reply to a request.
fn answered(server: &mut Server<TestDisk>, request: Request) -> Reply {
    server.answer(&request)
}

/// The body of the reply to the pairs of a request.
pub fn told(alloc: Global, server: &mut Server<TestDisk>, pairs: &[u8]) -> Result<String> {
    let reply = match read_request(alloc, pairs) {
        Ok(request) => answered(server, request),
        Err(error) => Reply::Refused(error.refusal().number()),
    };
    body_of(alloc, &reply)
}

/// The body of the reply to a query.
pub fn queried(alloc: Global, server: &mut Server<TestDisk>, query: String) -> Result<String> {
    let reply = answered(server, Request::ProcessCoverages(query));
    body_of(alloc, &reply)
}

/// A reply after which the connection goes on: a line with its status, its phrase and its kind, as `200 OK plain`, and
/// its body. Any other bytes are none.
fn shortened(alloc: Global, output: &str) -> Result<Option<String>, AllocError> {
    let Some((head, body)) = output.split_once("\r\n\r\n") else {
        return Ok(None);
    };
    let Some((status, rest)) = head.split_once("\r\nContent-Type: text/") else {
        return Ok(None);
    };
    let Some((kind, length)) = rest.split_once("\r\nContent-Length: ") else {
        return Ok(None);
    };
    let Some(status) = status.strip_prefix("HTTP/1.1 ") else {
        return Ok(None);
    };
    if length.parse::<usize>().ok() != Some(body.len()) {
        return Ok(None);
    }
    Ok(Some(format!(in alloc; "{status} {kind}\n{body}")?))
}

/// What the server writes for a message, shortened where it is such a reply.
pub fn replied(alloc: Global, server: &mut Server<TestDisk>, message: &str) -> Result<String> {
    let output = String::from_utf8(whole(alloc, server, message.as_bytes())?)?;
    match shortened(alloc, output.as_str())? {
        Some(short) => Ok(short),
        None => Ok(output),
    }
}

/// The body that all of so many requests have, in whose pairs `#` stands for their number; else the first other one.
pub fn repeated(
    alloc: Global,
    server: &mut Server<TestDisk>,
    count: u64,
    pairs: &str,
) -> Result<String> {
    let (front, back) = pairs.split_once('#').unwrap_or((pairs, ""));
    let mut first = String::new(alloc);
    for number in 0..count {
        let numbered = format!(in alloc; "{front}{number}{back}")?;
        let body = told(alloc, server, numbered.as_bytes())?;
        if number == 0 {
            first.push_str(body.as_str())?;
        } else if body.as_str() != first.as_str() {
            return Ok(body);
        }
    }
    Ok(first)
}

/// The body of the reply to a request, for which at most so many tiles may be fetched.
pub fn fetching(
    alloc: Global,
    server: &mut Server<TestDisk>,
    most: u64,
    pairs: &str,
) -> Result<String> {
    let before = server.fetched();
    let body = told(alloc, server, pairs.as_bytes())?;
    let fetched = server.fetched().saturating_sub(before);
    if fetched > most {
        bail!("{fetched} tiles are fetched");
    }
    Ok(body)
}

/// How many tiles are fetched at most in a step, and in all steps of a job; and in how many steps some are.
#[derive(Clone, Copy)]
struct TileCounts {
    most: u64,
    all: u64,
    steps: u64,
}

impl TileCounts {
    /// Counts a step that fetched so many tiles.
    fn add(&mut self, fetched: u64) {
        self.most = self.most.max(fetched);
        self.all = self.all.saturating_add(fetched);
        self.steps = self.steps.saturating_add(fetched.min(1));
    }

    /// Whether these are allowed where no more may be fetched, and in no fewer steps.
    fn are_within(&self, wanted: &TileCounts) -> bool {
        self.most <= wanted.most && self.all <= wanted.all && self.steps >= wanted.steps
    }
}

/// Reads the three numbers and the job behind them.
fn read_counts(written: &str) -> Result<(TileCounts, &str)> {
    let (most, rest) = cut(written);
    let (all, rest) = cut(rest);
    let (steps, job) = cut(rest);
    let counts = TileCounts {
        most: number(most)?,
        all: number(all)?,
        steps: number(steps)?,
    };
    Ok((counts, job))
}

/// Steps a job by one unit, up to a thousand times, until it has none left; the number of tiles that are fetched is
/// held to what is written before the job.
pub fn stepping(alloc: Global, server: &mut Server<TestDisk>, written: &str) -> Result<String> {
    let (wanted, job) = read_counts(written)?;
    let pairs = format!(in alloc; "request=StepJob&job={job}&units=1")?;
    let mut counts = TileCounts {
        most: 0,
        all: 0,
        steps: 0,
    };
    for _step in 0..1000 {
        let before = server.fetched();
        let body = told(alloc, server, pairs.as_bytes())?;
        counts.add(server.fetched().saturating_sub(before));
        if body.as_str() == "left 0\n" && counts.are_within(&wanted) {
            return Ok(body);
        }
    }
    bail!("the job has units left, or other tiles are fetched")
}
