//! A catalogue as bytes.

ghost use Rattle.std.specs.Prelude.{◌≡◌, ◌<◌, [], ◌∷◌, ◌++◌, length, IfOk, OnOk};
ghost use Rattle.catalogue.specs.Signatures.{IsCatalogue};
ghost use Rattle.catalogue.specs.Bytes.{name_bytes, type_number, axis_bytes, domain_bytes, field_bytes, fields_bytes, signature_bytes, catalogue_bytes};

use crate::catalogue::Catalogue;
use arr_core::{Axis, Field, FieldType, Name, Signature};
use file_bytes::{push_i32, push_u32};
use std::alloc::{AllocError, Global};

/// Writes one byte after the others.
fn push_u8(bytes: &mut Vec<u8>, byte: u8) -> Result<(), AllocError>
    ensures { OnOk result (bytes.new.items ≡ bytes.old.items ++ byte ∷ []) }
{
    bytes.push(byte)?;
    Ok(())
}

/// Writes a name after the bytes.
#[tactic(auto, using(crate::proofs::Names::name_short))]
fn push_name(bytes: &mut Vec<u8>, name: &Name) -> Result<(), AllocError>
    ensures { OnOk result (bytes.new.items ≡ bytes.old.items ++ name_bytes name.now) }
{
    let text = name.as_str().as_bytes();
    push_u8(bytes, text.len() as u8)?;
    bytes.extend_from_slice(text)?;
    Ok(())
}

/// The number of a field's type.
pub fn type_number(kind: FieldType) -> u8
    ensures { result ≡ type_number kind }
{
    match kind {
        FieldType::Bool => 0,
        FieldType::U8 => 1,
        FieldType::I16 => 2,
        FieldType::I32 => 3,
        FieldType::I64 => 4,
    }
}

/// Writes an axis after the bytes.
#[tactic(auto, unfolding(crate::specs::Bytes::axis_bytes))]
fn push_axis(bytes: &mut Vec<u8>, axis: &Axis) -> Result<(), AllocError>
    ensures { OnOk result (bytes.new.items ≡ bytes.old.items ++ axis_bytes axis.now) }
{
    push_name(bytes, &axis.name)?;
    push_i32(bytes, axis.lo)?;
    push_i32(bytes, axis.hi)?;
    Ok(())
}

/// Writes axes after the bytes: how many there are, and each in turn.
#[tactic(auto, unfolding(crate::specs::Bytes::domain_bytes))]
fn push_axes(bytes: &mut Vec<u8>, axes: &[Axis]) -> Result<(), AllocError>
    requires { length axes.now < 256 }
    ensures { OnOk result (bytes.new.items ≡ bytes.old.items ++ domain_bytes axes.now) }
{
    push_u8(bytes, axes.len() as u8)?;
    for axis in axes {
        push_axis(bytes, axis)?;
    }
    Ok(())
}

/// Writes a field after the bytes.
#[tactic(auto, unfolding(crate::specs::Bytes::field_bytes))]
fn push_field(bytes: &mut Vec<u8>, field: &Field) -> Result<(), AllocError>
    ensures { OnOk result (bytes.new.items ≡ bytes.old.items ++ field_bytes field.now) }
{
    push_name(bytes, &field.name)?;
    push_u8(bytes, type_number(field.kind))?;
    Ok(())
}

/// Writes fields after the bytes: how many there are, and each in turn.
#[tactic(auto, unfolding(crate::specs::Bytes::fields_bytes))]
fn push_fields(bytes: &mut Vec<u8>, fields: &[Field]) -> Result<(), AllocError>
    requires { length fields.now < 256 }
    ensures { OnOk result (bytes.new.items ≡ bytes.old.items ++ fields_bytes fields.now) }
{
    push_u8(bytes, fields.len() as u8)?;
    for field in fields {
        push_field(bytes, field)?;
    }
    Ok(())
}

/// Writes a signature after the bytes.
#[tactic(auto, unfolding(crate::specs::Bytes::signature_bytes))]
fn push_signature(bytes: &mut Vec<u8>, signature: &Signature) -> Result<(), AllocError>
    requires { length signature.now.fields < 256 }
    ensures { OnOk result (bytes.new.items ≡ bytes.old.items ++ signature_bytes signature.now) }
{
    push_name(bytes, &signature.name)?;
    push_axes(bytes, signature.domain.axes())?;
    push_fields(bytes, signature.fields.as_slice())?;
    Ok(())
}

impl Catalogue {
    /// The bytes of the catalogue: how many coverages there are in 32 bits, and for each its name,
    /// its axes and its fields. `from_bytes` gives the catalogue back.
    pub fn to_bytes(&self, alloc: Global) -> Result<Vec<u8>, AllocError>
        ensures written { IfOk result (λ bytes. bytes.items ≡ catalogue_bytes self.now) }
        ensures catalogue { IsCatalogue self.now }
    {
        let count = self.len();
        let mut bytes = Vec::with_capacity(alloc, self.bytes_len() as usize)?;
        push_u32(&mut bytes, count as u32)?;
        for signature in self.signatures.values() {
            push_signature(&mut bytes, signature)?;
        }
        Ok(bytes)
    }
}
