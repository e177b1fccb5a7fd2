//! Bytes as a catalogue.

ghost use Rattle.std.specs.Prelude.{◌≡◌, ◌≢◌, ◌≤◌, ◌<◌, ◌↔◌, ℕ, List, length, flat_map, All, IfOk, OnOk, IsErrOf, IsTrue, MatchOption};
ghost use Rattle.arr_core.specs.declared.cell.FieldType.{FieldType};
ghost use Rattle.arr_core.specs.declared.signature.Signature.{Signature};
ghost use Rattle.arr_core.specs.Limits.{max_coverages};
ghost use Rattle.arr_core.specs.Names.{IsName};
ghost use Rattle.arr_core.specs.Fields.{IsField};
ghost use Rattle.file_bytes.specs.Codes.{IsRead, NoneIsRead};
ghost use Rattle.catalogue.specs.Signatures.{IsAxis, IsCoverageDomain, AreCoverageFields, IsSignature, IsCatalogue, HaveAxesOf};
ghost use Rattle.catalogue.specs.Bytes.{name_bytes, type_number, axis_bytes, domain_bytes, field_bytes, fields_bytes, signature_bytes, catalogue_bytes};
ghost use Rattle.catalogue.specs.Reading.{AreMany, AreManyRead, AreOfNoCatalogue, AreOfNoOther};

use crate::catalogue::Catalogue;
use arr_core::domain::MAX_AXES;
use arr_core::{
    Axis, Domain, Field, FieldType, Fields, MAX_COVERAGES, MAX_FIELDS, Name, NameError, Signature,
};
use file_bytes::{ReadError, Reader, Version};
use std::alloc::Global;
use std::str::from_utf8;

/// The most axes that a domain has in a file of version 1.
const MAX_AXES_OF_ONE: usize = 4;

/// The name of these bytes.
#[tactic(auto, using(crate::proofs::Names::name_utf8))]
fn name_of(alloc: Global, bytes: &[u8]) -> Result<Name, ReadError>
    ensures same { IfOk result (λ name. name ≡ bytes.now) }
    ensures named { OnOk result (IsName bytes.now) }
    ensures damaged { IsErrOf result ReadError.Damaged → ¬ IsName bytes.now }
{
    let Ok(text) = from_utf8(bytes) else {
        return Err(ReadError::Damaged);
    };
    match Name::new(alloc, text) {
        Ok(name) => Ok(name),
        Err(NameError::BadName) => Err(ReadError::Damaged),
        Err(NameError::NoMemory) => Err(ReadError::NoMemory),
    }
}

/// The next name.
fn read_name(alloc: Global, bytes: &mut Reader) -> Result<Name, ReadError>
    ensures read { IfOk result (λ name. IsRead IsName name_bytes bytes.old name bytes.new) }
    ensures damaged { IsErrOf result ReadError.Damaged → NoneIsRead IsName name_bytes bytes.old }
{
    let Some(length) = bytes.read_u8() else {
        return Err(ReadError::Damaged);
    };
    let Some(text) = bytes.take(usize::from(length)) else {
        return Err(ReadError::Damaged);
    };
    let name = name_of(alloc, text)?;
    Ok(name)
}

/// What is read from the bytes of a catalogue, alone or in lists.
trait Readable: Sized + Drop {
    ghost is_value: { Self → Type 0 };

    ghost code: { Self → List ℕ };

    /// The next one.
    fn read(alloc: Global, bytes: &mut Reader) -> Result<Self, ReadError>
        ensures read { IfOk result (λ part. IsRead is_value code bytes.old part bytes.new) }
        ensures damaged { IsErrOf result ReadError.Damaged → NoneIsRead is_value code bytes.old };
}

/// The next `count` parts.
fn read_list<T: Readable>(
    alloc: Global,
    bytes: &mut Reader,
    count: u32,
) -> Result<Vec<T>, ReadError>
    ensures read { IfOk result (λ list. AreManyRead T.is_value T.code count bytes.old list.items bytes.new) }
    ensures damaged { IsErrOf result ReadError.Damaged
        → NoneIsRead (AreMany T.is_value count) (flat_map T.code) bytes.old }
{
    let mut list = Vec::new(alloc);
    for _ in 0..count {
        let part = T::read(alloc, bytes)?;
        list.push(part)?;
    }
    Ok(list)
}

impl Readable for Axis {
    ghost is_value = { IsAxis };

    ghost code = { axis_bytes };

    #[tactic(auto, unfolding(crate::specs::Bytes::axis_bytes))]
    fn read(alloc: Global, bytes: &mut Reader) -> Result<Axis, ReadError> {
        let name = read_name(alloc, bytes)?;
        let Some(lo) = bytes.read_i32() else {
            return Err(ReadError::Damaged);
        };
        let Some(hi) = bytes.read_i32() else {
            return Err(ReadError::Damaged);
        };
        Ok(Axis { name, lo, hi })
    }
}

/// The next domain of a coverage.
#[tactic(auto, unfolding(crate::specs::Bytes::domain_bytes))]
fn read_domain(alloc: Global, bytes: &mut Reader) -> Result<Domain, ReadError>
    ensures read { IfOk result (λ domain. IsRead IsCoverageDomain domain_bytes bytes.old domain bytes.new) }
    ensures damaged { IsErrOf result ReadError.Damaged → NoneIsRead IsCoverageDomain domain_bytes bytes.old }
{
    let Some(count) = bytes.read_u8() else {
        return Err(ReadError::Damaged);
    };
    if count == 0 {
        return Err(ReadError::Damaged);
    }
    if usize::from(count) > MAX_AXES {
        return Err(ReadError::Damaged);
    }
    let axes = read_list(alloc, bytes, u32::from(count))?;
    match Domain::new(axes) {
        Ok(domain) => Ok(domain),
        Err(_) => Err(ReadError::Damaged),
    }
}

/// The type of a field with a number.
fn type_of(number: u8) -> Option<FieldType>
    ensures { MatchOption result ((kind : FieldType) → type_number kind ≢ number) (λ kind. type_number kind ≡ number) }
{
    match number {
        0 => Some(FieldType::Bool),
        1 => Some(FieldType::U8),
        2 => Some(FieldType::I16),
        3 => Some(FieldType::I32),
        4 => Some(FieldType::I64),
        _ => None,
    }
}

impl Readable for Field {
    ghost is_value = { IsField };

    ghost code = { field_bytes };

    #[tactic(auto, unfolding(crate::specs::Bytes::field_bytes))]
    fn read(alloc: Global, bytes: &mut Reader) -> Result<Field, ReadError> {
        let name = read_name(alloc, bytes)?;
        let Some(number) = bytes.read_u8() else {
            return Err(ReadError::Damaged);
        };
        let Some(kind) = type_of(number) else {
            return Err(ReadError::Damaged);
        };
        Ok(Field { name, kind })
    }
}

/// The next fields of a coverage.
#[tactic(auto, unfolding(crate::specs::Bytes::fields_bytes))]
fn read_fields(alloc: Global, bytes: &mut Reader) -> Result<Fields, ReadError>
    ensures read { IfOk result (λ fields. IsRead AreCoverageFields fields_bytes bytes.old fields bytes.new) }
    ensures damaged { IsErrOf result ReadError.Damaged → NoneIsRead AreCoverageFields fields_bytes bytes.old }
{
    let Some(count) = bytes.read_u8() else {
        return Err(ReadError::Damaged);
    };
    if usize::from(count) > MAX_FIELDS {
        return Err(ReadError::Damaged);
    }
    let list = read_list(alloc, bytes, u32::from(count))?;
    let fields = Fields::new(list);
    if !fields.are_fields() {
        return Err(ReadError::Damaged);
    }
    Ok(fields)
}

impl Readable for Signature {
    ghost is_value = { IsSignature };

    ghost code = { signature_bytes };

    #[tactic(auto, unfolding(crate::specs::Bytes::signature_bytes))]
    fn read(alloc: Global, bytes: &mut Reader) -> Result<Signature, ReadError> {
        let name = read_name(alloc, bytes)?;
        let domain = read_domain(alloc, bytes)?;
        let fields = read_fields(alloc, bytes)?;
        Ok(Signature {
            name,
            domain,
            fields,
        })
    }
}

/// The catalogue of signatures.
fn catalogue_of(alloc: Global, signatures: Vec<Signature>) -> Result<Catalogue, ReadError>
    requires few { length signatures.items ≤ max_coverages }
    requires each { All IsSignature signatures.items }
    ensures same { IfOk result (λ held. held ≡ signatures.items) }
    ensures catalogue { IfOk result (λ held. IsCatalogue held) }
    ensures damaged { IsErrOf result ReadError.Damaged → ¬ IsCatalogue signatures.items }
{
    let mut catalogue = Catalogue::new(alloc);
    for signature in signatures {
        if catalogue.holds(&signature.name) {
            return Err(ReadError::Damaged);
        }
        catalogue.push(signature)?;
    }
    let _count = catalogue.len();
    Ok(catalogue)
}

/// The next catalogue.
#[tactic(auto, unfolding(crate::specs::Bytes::catalogue_bytes))]
fn read_catalogue(alloc: Global, bytes: &mut Reader) -> Result<Catalogue, ReadError>
    ensures read { IfOk result (λ held. IsRead IsCatalogue catalogue_bytes bytes.old held bytes.new) }
    ensures damaged { IsErrOf result ReadError.Damaged → NoneIsRead IsCatalogue catalogue_bytes bytes.old }
{
    let Some(count) = bytes.read_u32() else {
        return Err(ReadError::Damaged);
    };
    if count as usize > MAX_COVERAGES {
        return Err(ReadError::Damaged);
    }
    let signatures = read_list(alloc, bytes, count)?;
    let catalogue = catalogue_of(alloc, signatures)?;
    Ok(catalogue)
}

impl Catalogue {
    /// Whether its domains have no more axes than those of a file of a version.
    fn has_axes_of(&self, version: Version) -> bool
        ensures { IsTrue result ↔ HaveAxesOf version self.now }
    {
        match version {
            Version::One => self.signatures.values().all(|signature| signature.domain.axes().len()
                <= MAX_AXES_OF_ONE),
            Version::Two => true,
        }
    }

    /// The catalogue whose bytes these are in a file of a version: `Damaged` where they are those of none.
    pub fn from_bytes(alloc: Global, version: Version, bytes: &[u8]) -> Result<Catalogue, ReadError>
        ensures read { IfOk result (λ held. bytes.now ≡ catalogue_bytes held) }
        ensures catalogue { IfOk result (λ held. IsCatalogue held) }
        ensures version { IfOk result (λ held. HaveAxesOf version held) }
        ensures only { IfOk result (λ held. AreOfNoOther bytes.now held) }
        ensures damaged { IsErrOf result ReadError.Damaged → AreOfNoCatalogue version bytes.now }
    {
        let mut rest = Reader::new(bytes);
        let catalogue = read_catalogue(alloc, &mut rest)?;
        if rest.len() != 0 {
            return Err(ReadError::Damaged);
        }
        if !catalogue.has_axes_of(version) {
            return Err(ReadError::Damaged);
        }
        Ok(catalogue)
    }
}
