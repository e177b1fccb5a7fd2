//! A script while growths are refused: what is refused for want of memory is asked again, and has to come then.

use crate::growths::counts::{Counts, Part, Wrong};
use crate::growths::refusing::{refuse, was_one_refused};
use crate::growths::scripted::{REPLY_BEHIND, Script, Step};
use arr_core::Refusal;
use coverage_server::{ConnectionEnd, NotClosed, Server};
use disk_face::Disk;
use http_front::PieceReader;
use std::alloc::{AllocError, Global};
use stream_face::Watched;

const NO_MEMORY: &str =
    "HTTP/1.1 503 Service Unavailable\r\nContent-Type: text/plain\r\nContent-Length: 20\r\n\r\nrefused 90 NoMemory\n";

const DISK_FAULT: &str =
    "HTTP/1.1 500 Internal Server Error\r\nContent-Type: text/plain\r\nContent-Length: 21\r\n\r\nrefused 91 DiskFault\n";

/// How many bytes the replies to the stream of a step have at most.
const ROOM: usize = 1 << 20;

/// A turn: which growths are refused in it, whether one was, and how often that was told.
#[derive(Drop)]
pub struct Turn {
    pub first: u32,
    count: u16,
    /// Whether the disk takes memory, so that 91 may stand for a growth too.
    is_in_memory: bool,
    pub is_met: bool,
    pub counts: Counts,
    /// What is written for a step, in memory that is taken before growths are refused.
    sink: Watched<Vec<u8>>,
}

/// What stands behind the first reply in what was written, and before it the refusal that this is, where it is not the
/// reply that is given.
fn parted<'a>(written: &'a [u8], reply: &str) -> Option<(Option<Refusal>, &'a [u8])> {
    if let Some(behind) = written.strip_prefix(reply.as_bytes()) {
        return Some((None, behind));
    }
    if let Some(behind) = written.strip_prefix(NO_MEMORY.as_bytes()) {
        return Some((Some(Refusal::NoMemory), behind));
    }
    let behind = written.strip_prefix(DISK_FAULT.as_bytes())?;
    Some((Some(Refusal::DiskFault), behind))
}

impl Turn {
    /// A turn in which so many growths are refused, from the one of this number on.
    pub fn new(
        alloc: Global,
        first: u32,
        count: u16,
        is_in_memory: bool,
    ) -> Result<Turn, AllocError> {
        Ok(Turn {
            first,
            count,
            is_in_memory,
            is_met: false,
            counts: Counts::new(),
            sink: Watched::new(Vec::with_capacity(alloc, ROOM)?),
        })
    }

    /// Counts a refusal, where it may stand for one of the growths.
    fn count(&mut self, part: Part, refusal: Refusal) -> Result<(), Wrong> {
        let is_of_disk = refusal == Refusal::DiskFault && self.is_in_memory;
        let is_of_growth = refusal == Refusal::NoMemory || is_of_disk;
        if !is_of_growth || self.counts.all() >= u64::from(self.count) {
            let refusal = Some(refusal);
            return Err(Wrong { part, refusal });
        }
        self.counts.count(part);
        Ok(())
    }

    /// Opens the store of a disk, which comes back where that is refused.
    fn open<D: Disk + Drop>(&mut self, alloc: Global, disk: D) -> Result<Server<D>, Wrong> {
        let part = Part::Opening;
        let mut disk = disk;
        for _attempt in 0..=self.count {
            match Server::open(alloc, disk) {
                Ok(server) => return Ok(server),
                Err(refused) => {
                    self.count(part, refused.fault.refusal())?;
                    disk = refused.disk;
                }
            }
        }
        Err(Wrong {
            part,
            refusal: Some(Refusal::NoMemory),
        })
    }

    /// Counts the refusal of a close, and gives the server back.
    fn take_back<D: Disk + Drop>(&mut self, refused: NotClosed<D>) -> Result<Server<D>, Wrong> {
        let NotClosed { server, fault } = refused;
        match self.count(Part::Close, fault.refusal()) {
            Ok(()) => Ok(server),
            Err(wrong) => {
                drop(server);
                Err(wrong)
            }
        }
    }

    /// Closes the store of a server, which comes back where that is refused.
    fn close<D: Disk + Drop>(&mut self, server: Server<D>) -> Result<D, Wrong> {
        let mut server = server;
        for _attempt in 0..=self.count {
            match server.close() {
                Ok(disk) => return Ok(disk),
                Err(refused) => server = self.take_back(refused)?,
            }
        }
        drop(server);
        Err(Wrong {
            part: Part::Close,
            refusal: Some(Refusal::NoMemory),
        })
    }

    /// Whether what was written is the reply of a step; else it is a refusal that may stand for one of the growths.
    /// Behind it stands the reply to the message behind, which may be refused so too.
    fn is_replied(&mut self, part: Part, step: &Step) -> Result<bool, Wrong> {
        let other = Wrong {
            part,
            refusal: None,
        };
        let Some((refusal, behind)) = parted(self.sink.inner.as_slice(), step.reply.as_str()) else {
            return Err(other);
        };
        if behind == NO_MEMORY.as_bytes() {
            self.count(part, Refusal::NoMemory)?;
        } else if behind != REPLY_BEHIND.as_bytes() {
            return Err(other);
        }
        if let Some(refusal) = refusal {
            self.count(part, refusal)?;
        }
        Ok(refusal.is_none())
    }

    /// Sends the stream of a step until its reply comes.
    fn ask<D: Disk + Drop>(
        &mut self,
        server: &mut Server<D>,
        place: usize,
        step: &Step,
    ) -> Result<(), Wrong> {
        let part = Part::Step(place);
        for _attempt in 0..=self.count {
            self.sink.inner.clear();
            let mut source = Watched::new(PieceReader::new(step.stream.as_bytes(), 0, usize::MAX));
            let end = server.serve_connection(&mut source, &mut self.sink);
            if end == ConnectionEnd::Finished && self.is_replied(part, step)? {
                return Ok(());
            }
        }
        Err(Wrong {
            part,
            refusal: None,
        })
    }

    /// Sends the streams of all steps.
    fn ask_all<D: Disk + Drop>(
        &mut self,
        server: &mut Server<D>,
        script: &Script,
    ) -> Result<(), Wrong> {
        for place in 0..script.steps.len() {
            self.ask(server, place, &script.steps[place])?;
        }
        Ok(())
    }

    /// Opens the store of a disk, asks what the script has, and closes it.
    fn played<D: Disk + Drop>(
        &mut self,
        alloc: Global,
        disk: D,
        script: &Script,
    ) -> Result<D, Wrong> {
        let mut server = self.open(alloc, disk)?;
        match self.ask_all(&mut server, script) {
            Ok(()) => self.close(server),
            Err(wrong) => {
                drop(server);
                Err(wrong)
            }
        }
    }

    /// The same, while growths are refused.
    pub fn play<D: Disk + Drop>(
        &mut self,
        alloc: Global,
        disk: D,
        script: &Script,
    ) -> Result<D, Wrong> {
        refuse(alloc, self.first, self.count);
        let outcome = self.played(alloc, disk, script);
        self.is_met = was_one_refused(alloc);
        outcome
    }
}
