//! Metadata read from its bytes.

ghost use Rattle.std.specs.Prelude.{◌≡◌, length, IfOk, IsErrOf, MatchOption};
ghost use Rattle.byteorder.specs.Endian.{little_bytes};
ghost use Rattle.file_bytes.specs.Codes.{IsRead, NoneIsRead};
ghost use Rattle.metadata.specs.Metadata.{indexes_of, IsMetadata, IsOfVersion, AreOfNoMetadata, AreOfNoOther};
ghost use Rattle.metadata.specs.Parts.{catalogue_part_bytes, index_part_bytes, IsCatalogueIn, IsIndexIn, IsPartRead, NoPartIsRead};
ghost use Rattle.metadata.specs.Parts.{AreFieldsRead, NoFieldsAreRead, AreIndexesRead, NoIndexesAreRead};

use byteorder::{ByteOrder, LittleEndian};
use catalogue::Catalogue;
use file_bytes::{ReadError, Reader, Version};
use std::alloc::Global;
use tile_index::TileIndex;

/// A catalogue, and for each coverage in order the index of each of its fields.
#[derive(Drop)]
pub struct Metadata {
    pub catalogue: Catalogue,
    pub indexes: Vec<Vec<TileIndex>>,
}

/// The length that these bytes write, the lowest first.
fn length_of(bytes: &[u8]) -> u64
    requires { length bytes.now ≡ 8 }
    ensures { bytes.now ≡ little_bytes 8 result }
{
    LittleEndian::read_u64(bytes)
}

/// The bytes of the next part, which stand behind their length in 64 bits: none where that length
/// is cut short or points past the end.
fn read_part<'a>(bytes: &mut Reader<'a>) -> Option<&'a [u8]>
    ensures { MatchOption result (NoPartIsRead bytes.old) (λ part. IsPartRead bytes.old part.now bytes.new) }
{
    let length = length_of(bytes.take(8)?);
    if length > bytes.len() as u64 {
        return None;
    }
    let part = bytes.take(length as usize)?;
    Some(part)
}

/// The catalogue of a file of a version that the next part is.
fn read_catalogue(
    alloc: Global,
    version: Version,
    bytes: &mut Reader,
) -> Result<Catalogue, ReadError>
    ensures read { IfOk result
        (λ held. IsRead (IsCatalogueIn version) catalogue_part_bytes bytes.old held bytes.new) }
    ensures damaged { IsErrOf result ReadError.Damaged
        → NoneIsRead (IsCatalogueIn version) catalogue_part_bytes bytes.old }
{
    let Some(part) = read_part(bytes) else {
        return Err(ReadError::Damaged);
    };
    Catalogue::from_bytes(alloc, version, part)
}

/// The index of a file of a version that the next part is.
fn read_index(alloc: Global, version: Version, bytes: &mut Reader) -> Result<TileIndex, ReadError>
    ensures read { IfOk result (λ index. IsRead (IsIndexIn version) index_part_bytes bytes.old index bytes.new) }
    ensures damaged { IsErrOf result ReadError.Damaged
        → NoneIsRead (IsIndexIn version) index_part_bytes bytes.old }
{
    let Some(part) = read_part(bytes) else {
        return Err(ReadError::Damaged);
    };
    TileIndex::from_bytes(alloc, version, part)
}

/// The indexes of the next `count` fields.
fn read_fields(
    alloc: Global,
    version: Version,
    bytes: &mut Reader,
    count: usize,
) -> Result<Vec<TileIndex>, ReadError>
    ensures read { IfOk result (λ indexes. AreFieldsRead version count bytes.old indexes.items bytes.new) }
    ensures damaged { IsErrOf result ReadError.Damaged → NoFieldsAreRead version count bytes.old }
{
    let mut indexes = Vec::new(alloc);
    for _ in 0..count {
        let index = read_index(alloc, version, bytes)?;
        indexes.push(index)?;
    }
    Ok(indexes)
}

/// For each coverage of a catalogue in order, the indexes of its fields.
fn read_indexes(
    alloc: Global,
    version: Version,
    bytes: &mut Reader,
    catalogue: &Catalogue,
) -> Result<Vec<Vec<TileIndex>>, ReadError>
    ensures read { IfOk result (λ m. AreIndexesRead version catalogue.now bytes.old (indexes_of m.items) bytes.new) }
    ensures damaged { IsErrOf result ReadError.Damaged → NoIndexesAreRead version catalogue.now bytes.old }
{
    let mut indexes = Vec::new(alloc);
    for place in 0..catalogue.len() {
        let count = catalogue.at(place).fields.len();
        let fields = read_fields(alloc, version, bytes, count)?;
        indexes.push(fields)?;
    }
    Ok(indexes)
}

/// The metadata whose bytes these are in a file of a version: `Damaged` where they are those of none. Version 1 has
/// neither raw tiles nor more than four axes.
pub fn read_metadata(alloc: Global, version: Version, bytes: &[u8]) -> Result<Metadata, ReadError>
    ensures read { IfOk result (λ m. IsMetadata bytes.now m.catalogue (indexes_of m.indexes.items)) }
    ensures version { IfOk result (λ m. IsOfVersion version m.catalogue (indexes_of m.indexes.items)) }
    ensures only { IfOk result (λ m. AreOfNoOther version bytes.now m.catalogue (indexes_of m.indexes.items)) }
    ensures damaged { IsErrOf result ReadError.Damaged → AreOfNoMetadata version bytes.now }
{
    let mut rest = Reader::new(bytes);
    let catalogue = read_catalogue(alloc, version, &mut rest)?;
    let indexes = read_indexes(alloc, version, &mut rest, &catalogue)?;
    if rest.len() != 0 {
        return Err(ReadError::Damaged);
    }
    Ok(Metadata { catalogue, indexes })
}
