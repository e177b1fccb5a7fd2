//! Sessions on devices that become full: what they answer, and what the next session finds.

use crate::disks::Site;
use crate::sessions::{Connection, connections_of, streams_of};
use crate::storage::disks::TestDisk;
use anyhow::{Context, Result};
use coverage_server::{SessionFault, serve_session};
use std::alloc::Global;
use std::str;
use test_rows::{Answer, cut_at, number};

/// How many bytes a block has.
const BLOCK: u64 = 4096;

/// How many bytes so many blocks and these bytes are.
fn room_of(blocks: u64, more: u64) -> u64 {
    blocks.saturating_mul(BLOCK).saturating_add(more)
}

/// Adds the bodies of the replies of a text.
fn say_bodies(answer: &mut Answer, replies: &str) {
    for reply in replies.split("HTTP/1.1 ") {
        if let Some((_, body)) = reply.split_once("\r\n\r\n") {
            answer.say(body);
        }
    }
}

/// Adds the bodies of what was written for connections.
fn say_replies(answer: &mut Answer, connections: &[Connection<'_>]) {
    for (_, sink) in connections {
        match str::from_utf8(sink.inner.text()) {
            Ok(replies) => say_bodies(answer, replies),
            Err(_) => answer.wrong("a reply is no text"),
        }
    }
}

/// Adds why a session gave no disk.
fn say_fault(answer: &mut Answer, fault: &SessionFault<TestDisk>) {
    match fault {
        SessionFault::NotOpened(_, fault) => answer.refusal(fault.refusal().number()),
        SessionFault::NotClosed(_, fault) => {
            answer.say("not closed: ");
            answer.refusal(fault.refusal().number());
        }
    }
}

/// Serves the connections on a device of so many bytes that holds these, and adds what was answered. What it holds
/// then, where the session was closed.
fn served(
    alloc: Global,
    bytes: Vec<u8>,
    room: u64,
    connections: &mut [Connection<'_>],
    answer: &mut Answer,
) -> Option<Vec<u8>> {
    let outcome = serve_session(alloc, TestDisk::new(bytes, 0, 0, room), connections);
    say_replies(answer, connections);
    match outcome {
        Ok(disk) => Some(disk.into_bytes()),
        Err(fault) => {
            say_fault(answer, &fault);
            None
        }
    }
}

impl Site {
    /// What a session answers on an empty device of so many bytes, and the next one on what it left.
    fn on_device(&self, alloc: Global, room: u64) -> Result<Answer> {
        let written = streams_of(alloc, self.writes.as_str())?;
        let asked = streams_of(alloc, self.later.as_str())?;
        let mut writes = connections_of(alloc, written.as_slice(), 0)?;
        let mut later = connections_of(alloc, asked.as_slice(), 0)?;
        let mut answer = Answer::new(alloc);
        if let Some(left) = served(alloc, Vec::new(alloc), room, &mut writes, &mut answer) {
            answer.say("closed: ");
            let _left = served(alloc, left, u64::MAX, &mut later, &mut answer);
        }
        Ok(answer)
    }

    /// What both sessions answer, where it is the same on devices of each number of blocks from `LEAST` to less than
    /// `MOST` and of `MORE` bytes besides, which stand as `LEAST..MOST+MORE`; else what first differs.
    pub fn on_devices(&self, alloc: Global, rooms: &str) -> Result<String> {
        let (blocks, more) = cut_at(rooms, '+');
        let (least, most) = blocks.split_once("..").context("no bounds")?;
        let (least, most, more) = (number(least)?, number(most)?, number(more)?);
        let expected = self.on_device(alloc, room_of(least, more))?;
        for blocks in least.saturating_add(1)..most {
            let found = self.on_device(alloc, room_of(blocks, more))?;
            if found.as_str() != expected.as_str() {
                return found.into_text();
            }
        }
        expected.into_text()
    }
}
