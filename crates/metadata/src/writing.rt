//! Metadata as bytes.

ghost use Rattle.std.specs.Prelude.{◌≡◌, ◌++◌, IfOk, OnOk};
ghost use Rattle.catalogue.specs.Bytes.{catalogue_bytes};
ghost use Rattle.metadata.specs.Metadata.{part_bytes};

use byteorder::{ByteOrder, LittleEndian};
use catalogue::Catalogue;
use std::alloc::{AllocError, Global};

/// The first part of the metadata: the bytes of the catalogue behind their length.
pub fn catalogue_part(alloc: Global, catalogue: &Catalogue) -> Result<Vec<u8>, AllocError>
    ensures { IfOk result (λ bytes. bytes.items ≡ part_bytes (catalogue_bytes catalogue.now)) }
{
    let written = catalogue.to_bytes(alloc)?;
    let mut bytes = Vec::new(alloc);
    push_part(&mut bytes, &written)?;
    Ok(bytes)
}

/// Puts the bytes of an index behind the others, after their length.
pub fn push_part(bytes: &mut Vec<u8>, index: &[u8]) -> Result<(), AllocError>
    ensures { OnOk result (bytes.new.items ≡ bytes.old.items ++ part_bytes index.now) }
{
    let mut length = [0; 8];
    LittleEndian::write_u64(&mut length, index.len() as u64);
    bytes.extend_from_slice(&length)?;
    bytes.extend_from_slice(index)?;
    Ok(())
}
