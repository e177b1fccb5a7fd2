//! A server is closed: the metadata is written, then the header, and the disk comes out.
ghost use Rattle.std.specs.Prelude.{◌≡◌, ◌++◌, IsErrOf, IfOk, IfErr, IsTrue, OnOk};
ghost use Rattle.block_file.specs.Format.{KeepsHeader};
ghost use Rattle.disk_face.specs.Disk.{Tells};
ghost use Rattle.metadata.specs.Metadata.{indexes_bytes};
ghost use Rattle.coverage_server.specs.Closing.{metadata_held, WritesHeld};
ghost use Rattle.coverage_server.specs.Damage.{KeepsSpelled};
ghost use Rattle.coverage_server.specs.Disk.{disk_view};
ghost use Rattle.coverage_server.specs.Growing.{GrowsToClose};
ghost use Rattle.coverage_server.specs.Sessions.{IsClosedTo, IsNotClosed, IsLeft};
ghost use Rattle.coverage_server.specs.Views.{IsSound, IsUnchanged, without_jobs};

use crate::cells::AskedCells;
use crate::coverages::Coverages;
use crate::server::Server;
use block_file::CloseFault;
use disk_face::Disk;
use metadata::push_part;
use std::alloc::{AllocError, Global};
use tile_exec::Workspace;
use tile_store::FieldIndex;

/// A server that was not closed, and why. It has its store, and may be closed again.
#[derive(Drop)]
pub struct NotClosed<D: Disk> {
    pub server: Server<D>,
    pub fault: CloseFault,
}

/// Puts the indexes of the fields of a coverage behind the others.
fn push_indexes(alloc: Global, fields: &[FieldIndex], bytes: &mut Vec<u8>) -> Result<(), AllocError>
    ensures { OnOk result (bytes.new.items ≡ bytes.old.items ++ indexes_bytes fields.now) }
{
    for field in fields {
        let index = field.index().to_bytes(alloc)?;
        push_part(bytes, &index)?;
    }
    Ok(())
}

/// The metadata: the catalogue, and the indexes of each coverage.
fn metadata_of<D: Disk>(alloc: Global, coverages: &Coverages<D>) -> Result<Vec<u8>, AllocError>
    ensures { IfOk result (λ bytes. bytes.items ≡ metadata_held coverages.now) }
{
    let mut bytes = coverages.catalogue_part(alloc)?;
    for place in 0..coverages.len() {
        push_indexes(alloc, coverages.indexes(place), &mut bytes)?;
    }
    Ok(bytes)
}

/// Writes the metadata, and then the header of a closed file.
fn write_closed<D: Disk>(alloc: Global, coverages: &mut Coverages<D>) -> Result<(), CloseFault>
    ensures written { OnOk result (WritesHeld coverages.old coverages.new) }
    ensures unchanged { IsUnchanged coverages.old coverages.new }
    ensures sound { IsSound coverages.old → IsSound coverages.new }
    ensures spelled { IsTrue coverages.old.honest → KeepsSpelled coverages.old coverages.new }
    ensures honest { coverages.new.honest ≡ coverages.old.honest }
    ensures told { Tells (IsErrOf result CloseFault.DiskFault) coverages.old.failures coverages.new.failures }
    ensures overreads { coverages.new.overreads ≡ coverages.old.overreads }
    ensures grows { GrowsToClose coverages.old coverages.new.content }
    ensures header { IsErrOf result CloseFault.NoMemory → KeepsHeader coverages.old.content coverages.new.content }
{
    let metadata = metadata_of(alloc, coverages)?;
    coverages.write_metadata(&metadata)
}

impl<D: Disk> Server<D> {
    /// Writes the metadata into free blocks, and then the header of a closed file, so that the disk lists the store,
    /// and holds it where its tiles are intact, and gives the disk. Refused for memory, or where the disk has counted a
    /// failure, with the server.
    pub fn close(self) -> Result<D, NotClosed<D>>
        ensures closed { IfOk result (λ disk. IsClosedTo self.coverages (disk_view D.Disk disk)) }
        ensures refused { IfErr result (λ refused. IsNotClosed refused.fault self.coverages refused.server.coverages) }
        ensures desk { IfErr result (λ refused. refused.server.desk ≡ self.desk) }
    {
        let Server {
            mut cells,
            desk,
            workspace,
        } = self;
        let alloc = cells.alloc;
        match write_closed(alloc, &mut cells.coverages) {
            Ok(()) => {
                let AskedCells {
                    alloc: _,
                    coverages,
                    job: _,
                    places: _,
                } = cells;
                Ok(coverages.into_disk())
            }
            Err(fault) => Err(NotClosed {
                server: Server {
                    cells,
                    desk,
                    workspace,
                },
                fault,
            }),
        }
    }

    /// Lets go what memory holds beside the coverages, so that a close may find some: the jobs, what is held for them,
    /// what units work in, and the tiles and pages that are kept, of which none is kept from now on. Takes no memory.
    pub fn let_go(&mut self)
        ensures { self.new ≡ without_jobs self.old }
    {
        self.desk.let_go();
        self.workspace = Workspace::new(self.cells.alloc);
        self.cells.coverages.let_go();
    }

    /// Closes as `close` does. Where memory was wanting it lets go what `let_go` does, and closes once more; where that
    /// is refused too, its fault is the one that is told.
    pub fn close_with_retry(self) -> Result<D, NotClosed<D>>
        ensures closed { IfOk result (λ disk. IsClosedTo self.coverages (disk_view D.Disk disk)) }
        ensures left { IfErr result (λ refused. IsLeft refused.fault self refused.server) }
    {
        match self.close() {
            Ok(disk) => Ok(disk),
            Err(refused) => match refused.fault {
                CloseFault::NoMemory => {
                    let mut server = refused.server;
                    server.let_go();
                    server.close()
                }
                CloseFault::DiskFault => Err(refused),
            },
        }
    }
}
