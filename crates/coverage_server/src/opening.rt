//! A disk is opened: its metadata is read, its blocks are claimed, its coverages attached, and then its header tells
//! that it is open.
ghost use Rattle.std.specs.Prelude.{◌≡◌, ◌+◌, [], ℕ, IsTrue, IfOk, IfErr, OnOk};
ghost use Rattle.block_file.specs.State.{times};
ghost use Rattle.block_file.specs.Uses.{IsFresh};
ghost use Rattle.block_file.specs.View.{IsOpened, IsOfVersion};
ghost use Rattle.metadata.specs.Metadata.{AreCounted, indexes_of};
ghost use Rattle.raster_store.specs.Views.{listed_all, listed_fields};
ghost use Rattle.coverage_server.specs.Disk.{AreTiles, disk_view};
ghost use Rattle.coverage_server.specs.Opening.{IsListed, IsUnread, ClaimsListed, CannotClaim, ClaimsRead};
ghost use Rattle.coverage_server.specs.Opening.{Attaches, MayAttachAll, ListsFile, ShowsFile, GivesBack};
ghost use Rattle.coverage_server.specs.Opening.{Departs, IsNoLayout, TellsAttach};
ghost use Rattle.tile_store.specs.declared.fault.Fault.TheVariants as device;
ghost use Rattle.coverage_server.specs.Sessions.{IsOpenedFrom, LeavesUnopened};

use crate::cells::AskedCells;
use crate::coverages::Coverages;
use crate::server::Server;
use block_file::{BlockFile, Blocks, CHAIN_BYTES, NotOpened, OpenFault, Opened};
use catalogue::Catalogue;
use disk_face::Disk;
use file_bytes::{ReadError, Version};
use job_desk::JobDesk;
use metadata::{Metadata, read_metadata};
use page_pool::PagePool;
use raster_store::{Fault, RasterStore};
use std::alloc::{AllocError, Global};
use tile_exec::Workspace;
use tile_index::TileIndex;

/// How many pages of a file are kept.
const PAGES: usize = 256;

/// Puts the blocks that the indexes of fields list behind others.
fn push_blocks(fields: &[TileIndex], blocks: &mut Vec<u32>) -> Result<(), AllocError>
    ensures { OnOk result ((k : ℕ) → times blocks.new.items k ≡ times blocks.old.items k + listed_fields fields.now k) }
{
    for index in fields {
        index.push_blocks(blocks)?;
    }
    Ok(())
}

/// The blocks that indexes list.
fn blocks_of(alloc: Global, indexes: &[Vec<TileIndex>]) -> Result<Vec<u32>, AllocError>
    ensures { IfOk result (λ blocks. (k : ℕ) → times blocks.items k ≡ listed_all (indexes_of indexes.now) k) }
{
    let mut blocks = Vec::new(alloc);
    for fields in indexes {
        push_blocks(fields, &mut blocks)?;
    }
    Ok(blocks)
}

/// The catalogue and the indexes that metadata has in a file of a version. Without a byte there are none.
fn read_layout(alloc: Global, version: Version, metadata: &[u8]) -> Result<Metadata, OpenFault>
    ensures listed { IfOk result (λ m. IsListed version metadata.now m.catalogue (indexes_of m.indexes.items)) }
    ensures refused { IfErr result (Departs (IsUnread version metadata.now)) }
{
    if metadata.is_empty() {
        return Ok(Metadata {
            catalogue: Catalogue::new(alloc),
            indexes: Vec::new(alloc),
        });
    }
    match read_metadata(alloc, version, metadata) {
        Ok(layout) => Ok(layout),
        Err(ReadError::Damaged) => Err(OpenFault::Damaged),
        Err(ReadError::NoMemory) => Err(OpenFault::NoMemory),
    }
}

/// Puts the blocks that indexes list in use.
fn claim_listed<D: Disk>(
    alloc: Global,
    file: &mut BlockFile<D>,
    indexes: &[Vec<TileIndex>],
) -> Result<(), OpenFault>
    ensures claims { OnOk result (ClaimsListed (indexes_of indexes.now) file.old.marks file.new.marks) }
    ensures refused { IfErr result (Departs (CannotClaim (indexes_of indexes.now) file.old.marks)) }
    ensures content { file.new.content ≡ file.old.content }
    ensures failures { file.new.failures ≡ file.old.failures }
    ensures overreads { file.new.overreads ≡ file.old.overreads }
    ensures honest { file.new.honest ≡ file.old.honest }
{
    let blocks = blocks_of(alloc, indexes)?;
    match file.claim(&blocks) {
        Ok(()) => Ok(()),
        Err(_) => Err(OpenFault::Damaged),
    }
}

/// The catalogue and the indexes that metadata has, whose blocks are in use then. As many blocks stay free as the
/// metadata takes; a disk that is not honest may lack them.
fn claim_layout<D: Disk>(
    alloc: Global,
    file: &mut BlockFile<D>,
    version: Version,
    metadata: &[u8],
) -> Result<Metadata, OpenFault>
    requires opened { IsTrue file.old.honest → IsOpened file.old.content metadata.now file.old.marks }
    requires version { IsTrue file.old.honest → IsOfVersion version file.old.content }
    requires fresh { IsFresh file.old.marks }
    ensures claims { IfOk result (ClaimsRead version metadata.now file.old.marks file.new.marks) }
    ensures refused { IfErr result (IsNoLayout file.old) }
    ensures content { file.new.content ≡ file.old.content }
    ensures failures { file.new.failures ≡ file.old.failures }
    ensures overreads { file.new.overreads ≡ file.old.overreads }
    ensures honest { file.new.honest ≡ file.old.honest }
{
    let layout = read_layout(alloc, version, metadata)?;
    if let Err(fault) = claim_listed(alloc, file, &layout.indexes) {
        return Err(fault);
    }
    if metadata.len().div_ceil(CHAIN_BYTES) > file.free() as usize {
        return Err(OpenFault::Damaged);
    }
    Ok(layout)
}

/// Why coverages are not attached. The disk is not asked then, and room is never wanting.
fn attach_fault(fault: Fault) -> OpenFault
    requires disk { fault ≡ device.DiskFault → ⊥ }
    requires room { fault ≡ device.NoRoom → ⊥ }
    ensures { TellsAttach fault result }
{
    match fault {
        Fault::NoMemory => OpenFault::NoMemory,
        Fault::DiskFault => unreachable!(),
        Fault::NoRoom => unreachable!(),
        Fault::Damaged => OpenFault::Damaged,
    }
}

/// Attaches the coverages of a catalogue, in order, to cells without one.
fn attach_all<B: Blocks>(
    cells: &mut RasterStore<B>,
    catalogue: &Catalogue,
    indexes: Vec<Vec<TileIndex>>,
) -> Result<(), OpenFault>
    requires coverages { cells.old.coverages ≡ [] }
    requires indexes { cells.old.indexes ≡ [] }
    requires unheld { cells.old.snapshots ≡ [] }
    requires counted { AreCounted catalogue.now (indexes_of indexes.items) }
    requires blocks { MayAttachAll (B.state cells.old.blocks) (indexes_of indexes.items) }
    ensures listed { OnOk result
        (Attaches (B.state cells.old.blocks) catalogue.now (indexes_of indexes.items) cells.new) }
    ensures unheld { cells.new.snapshots ≡ [] }
    ensures fetched { cells.new.fetched ≡ cells.old.fetched }
    ensures refused { IfErr result (Departs (AreTiles catalogue.now (indexes_of indexes.items) → ⊥)) }
    ensures blocks { cells.new.blocks ≡ cells.old.blocks }
{
    let _catalogue = catalogue.len();
    let mut place = 0usize;
    for fields in indexes {
        if let Err(fault) = cells.attach(catalogue.at(place), fields) {
            return Err(attach_fault(fault));
        }
        place += 1;
    }
    Ok(())
}

/// The coverages of a file that was opened. Nothing is written.
fn coverages_of<D: Disk>(alloc: Global, opened: Opened<D>) -> Result<Coverages<D>, NotOpened<D>>
    requires opened { IsTrue opened.file.honest → IsOpened opened.file.content opened.metadata.items opened.file.marks }
    requires version { IsTrue opened.file.honest → IsOfVersion opened.version opened.file.content }
    requires fresh { IsFresh opened.file.marks }
    ensures lists { IfOk result (ListsFile opened.file) }
    ensures shows { IfOk result (ShowsFile opened.file) }
    ensures refused { IfErr result (λ refused. IsNoLayout opened.file refused.fault) }
    ensures disk { IfErr result (λ refused. GivesBack opened.file (disk_view D.Disk refused.disk)) }
{
    let Opened {
        mut file,
        version,
        metadata,
    } = opened;
    let Metadata { catalogue, indexes } = match claim_layout(alloc, &mut file, version, &metadata) {
        Ok(layout) => layout,
        Err(fault) => {
            return Err(NotOpened {
                disk: file.into_disk(),
                fault,
            });
        }
    };
    let pool = PagePool::new(alloc, file, PAGES);
    let mut cells = RasterStore::new(alloc, pool);
    match attach_all(&mut cells, &catalogue, indexes) {
        Ok(()) => Ok(Coverages::new(catalogue, cells)),
        Err(fault) => Err(NotOpened {
            disk: cells.into_blocks().into_file().into_disk(),
            fault,
        }),
    }
}

impl<D: Disk> Server<D> {
    /// Opens the store of a disk, a file of either version; one without a byte holds the empty store. Once it has given
    /// a server, the header tells an open file of version 2, and an open file until a close.
    ///
    /// The refusals, with the disk, in this order: not a store, not closed, and damaged for any other departure from
    /// the format: of the chain, the catalogue or an index, a tile beyond its domain, and a block that is listed
    /// twice, is the header or one of the metadata's, or lies past the end. Want of memory and a fault of the disk may
    /// come at any time. Nothing is written before the metadata is accepted, and then the header alone.
    pub fn open(alloc: Global, disk: D) -> Result<Server<D>, NotOpened<D>>
        ensures opened { IfOk result (λ server. IsTrue (D.honest disk)
            → IsOpenedFrom (D.content disk) server.coverages) }
        ensures desk { IfOk result (λ server. server.desk ≡ record { jobs = []; next = Some 1 }) }
        ensures unheld { IfOk result (λ server. server.coverages.held ≡ []) }
        ensures honest { IfOk result (λ server. server.coverages.honest ≡ D.honest disk) }
        ensures failures { IfOk result (λ server. server.coverages.failures ≡ D.failures disk) }
        ensures overreads { IfOk result (λ server. server.coverages.overreads ≡ (disk_view D.Disk disk).overreads) }
        ensures fetched { IfOk result (λ server. server.coverages.fetched ≡ 0) }
        ensures refused { IfErr result (λ left. LeavesUnopened D.Disk disk left.fault left.disk) }
    {
        let opened = BlockFile::open(alloc, disk)?;
        let mut coverages = coverages_of(alloc, opened)?;
        match coverages.write_open() {
            Ok(()) => Ok(Server {
                cells: AskedCells::new(alloc, coverages),
                desk: JobDesk::new(alloc),
                workspace: Workspace::new(alloc),
            }),
            Err(_) => Err(NotOpened {
                disk: coverages.into_disk(),
                fault: OpenFault::DiskFault,
            }),
        }
    }
}
