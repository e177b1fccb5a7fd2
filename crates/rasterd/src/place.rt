//! Where a store is.
ghost use Rattle.std.specs.Prelude.{◌≡◌, IfErr, OnOk, codes};
ghost use Rattle.rasterd.specs.Places.{IsEmptyMemory};
ghost use Rattle.rasterd.specs.Statuses.{ReportsUnopened};

use crate::session::not_opened;
use arr_core::Refusal;
use disk_face::{FileDisk, MemoryDisk, StdFile};
use stream_face::Sink;

/// The disk of a store: in memory, or over a file.
#[derive(Drop)]
pub enum Place {
    Memory(MemoryDisk),
    File(FileDisk<StdFile>),
}

/// The disk that the name of a file means: `-` is an empty one in memory, and any other file is made where there is
/// none. Where it cannot be opened a line of `errors` says so; then gives the status of that.
pub fn open_place<E: Sink>(rt: &HostRuntime, file: &str, errors: &mut E) -> Result<Place, u8>
    ensures refused { IfErr result (λ s. ReportsUnopened Refusal.DiskFault s (E.view errors.old) (E.view errors.new)) }
    ensures memory { file.now ≡ codes "-" → IsEmptyMemory result }
    ensures quiet { OnOk result (errors.new ≡ errors.old) }
{
    if file == "-" {
        return Ok(Place::Memory(MemoryDisk::new(Vec::new(rt.alloc()))));
    }
    match FileDisk::open(rt, file) {
        Ok(disk) => Ok(Place::File(disk)),
        Err(_) => Err(not_opened(errors, Refusal::DiskFault)),
    }
}
