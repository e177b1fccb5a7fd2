//! Servers that are opened on named files, and closed.

use crate::growths::Script;
use crate::storage::disks::TestDisk;
use crate::storage::site;
use anyhow::{Context, Result};
use block_file::NotOpened;
use coverage_server::Server;
use std::alloc::Global;
use test_rows::{refusal, yes};

/// What the rows of storage speak to, the server that the others speak to or the disk whose opening was refused, a
/// request that tells the server's state, sessions, and a script.
#[derive(Drop)]
pub struct Site {
    pub storage: site::Site,
    pub server: Option<Server<TestDisk>>,
    refused: Option<TestDisk>,
    /// The pairs of a request and the body of its reply.
    pub probe: Option<(String, String)>,
    /// The streams of a session on devices, and those of the session behind it.
    pub writes: String,
    pub later: String,
    pub script: Script,
}

impl Site {
    pub fn new(alloc: Global) -> Site {
        Site {
            storage: site::Site::new(alloc),
            server: None,
            refused: None,
            probe: None,
            writes: String::new(alloc),
            later: String::new(alloc),
            script: Script::new(alloc, Vec::new(alloc)),
        }
    }

    /// Keeps a server that was opened, and else the disk, and gives the number of the refusal.
    fn keep_opened(
        &mut self,
        opened: Result<Server<TestDisk>, NotOpened<TestDisk>>,
    ) -> Option<u16> {
        match opened {
            Ok(server) => {
                self.server = Some(server);
                None
            }
            Err(refused) => {
                self.refused = Some(refused.disk);
                Some(refused.fault.refusal().number())
            }
        }
    }

    /// Opens the server of a disk, which stays where it is refused.
    fn open_on(&mut self, alloc: Global, disk: TestDisk) -> Result<String> {
        self.server = None;
        match self.keep_opened(Server::open(alloc, disk)) {
            None => Ok(String::from_str(alloc, "ok")?),
            Some(number) => refusal(alloc, number),
        }
    }

    /// Opens the server of a file on a disk whose call of a number fails and whose read of a number lies, or none for
    /// 0.
    pub fn open(&mut self, alloc: Global, fails: u64, lies: u64, words: &str) -> Result<String> {
        let bytes = self.storage.files.bytes(alloc, words)?;
        self.open_on(alloc, TestDisk::new(bytes, fails, lies, u64::MAX))
    }

    /// Opens the server of the disk whose opening was refused, where it was.
    pub fn reopen(&mut self, alloc: Global) -> Result<String> {
        match self.refused.take() {
            Some(disk) => self.open_on(alloc, disk),
            None => Ok(String::from_str(alloc, "ok")?),
        }
    }

    /// Closes the server, and gives the bytes of its disk. Where that is refused the server stays, and the number of
    /// the refusal is given.
    fn closed(&mut self) -> Option<Result<Vec<u8>, u16>> {
        match self.server.take()?.close() {
            Ok(disk) => Some(Ok(disk.into_bytes())),
            Err(refused) => {
                let number = refused.fault.refusal().number();
                self.server = Some(refused.server);
                Some(Err(number))
            }
        }
    }

    /// Closes the server; the file `closed` has the bytes of its disk then. Where that is refused the server stays.
    pub fn close(&mut self, alloc: Global) -> Result<String> {
        match self.closed().context("no server")? {
            Ok(bytes) => {
                self.storage.files.put(alloc, "closed", bytes)?;
                Ok(String::from_str(alloc, "ok")?)
            }
            Err(number) => refusal(alloc, number),
        }
    }

    /// Whether the file `closed` has the bytes of another one.
    pub fn is_closed(&mut self, alloc: Global, words: &str) -> Result<String> {
        let closed = self.storage.files.bytes(alloc, "closed")?;
        let other = self.storage.files.bytes(alloc, words)?;
        yes(alloc, closed.as_slice() == other.as_slice())
    }
}
