//! What a closing writes behind the cells: the metadata and the header.

ghost use Rattle.std.specs.Prelude.{◌<◌, ◌≤◌, length, IsErr, IsErrOf, IfOk, OnOk};
ghost use Rattle.block_file.specs.State.{free_of};
ghost use Rattle.block_file.specs.Words.{OnlyHeader, WritesHeader, HoldsChain};
ghost use Rattle.block_file.specs.Format.{chain_blocks};
ghost use Rattle.block_file.specs.Growth.{GrowsBy};
ghost use Rattle.raster_store.specs.Words.{OnBlocks, TellsFault, SameCoverages, Stays, Keeps};
ghost use Rattle.raster_store.specs.Snapshots.{KeepsSnapshots};

use super::RasterStore;
use block_file::{Blocks, CloseFault, State, write_chain};
use disk_face::DiskFault;

impl<B: Blocks> RasterStore<B> {
    /// Writes the metadata as a chain into blocks that stay free, and gives the first of them. As many have to be free
    /// as it fills. Refused for memory, or for a fault of the disk.
    pub fn write_metadata(&mut self, metadata: &[u8]) -> Result<u32, CloseFault>
        requires some { 0 < length metadata.now }
        requires room { chain_blocks (length metadata.now) ≤ free_of (B.state self.old.blocks) }
        ensures chain { IfOk result (λ first. HoldsChain first metadata.now (B.state self.new.blocks)) }
        ensures frame { Stays B.state self.old self.new }
        ensures grows { OnBlocks B.state (GrowsBy (chain_blocks (length metadata.now))) self.old self.new }
        ensures intact { Keeps B.state self.old self.new }
        ensures snapshots { KeepsSnapshots B.state self.old self.new }
        ensures told { TellsFault (IsErrOf result CloseFault.DiskFault) B.state self.old self.new }
    {
        write_chain(&mut self.blocks, metadata)
    }

    /// Writes the header of the file below, as its blocks do.
    pub fn write_header(&mut self, state: State, first: u32, length: u64) -> Result<(), DiskFault>
        ensures written { OnOk result (OnBlocks B.state (WritesHeader state first length) self.old self.new) }
        ensures frame { OnBlocks B.state OnlyHeader self.old self.new }
        ensures same { SameCoverages B.state self.old self.new }
        ensures intact { Keeps B.state self.old self.new }
        ensures snapshots { KeepsSnapshots B.state self.old self.new }
        ensures told { TellsFault (IsErr result) B.state self.old self.new }
    {
        self.blocks.write_header(state, first, length)
    }
}
