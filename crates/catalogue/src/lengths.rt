//! How many bytes the parts of a catalogue are written in.

ghost use Rattle.std.specs.Prelude.{◌≡◌, ℕ, List, ◌+◌, ◌*◌, ◌^◌, ◌≤◌, ◌<◌, length, sum_by, All};
ghost use Rattle.arr_core.specs.Limits.{max_name, max_axes, max_fields};
ghost use Rattle.arr_core.specs.Names.{IsName};
ghost use Rattle.arr_core.specs.Fields.{AreFields, IsField};
ghost use Rattle.catalogue.specs.Signatures.{IsAxis, IsSignature};
ghost use Rattle.catalogue.specs.Bytes.{name_bytes, axis_bytes, field_bytes, signature_bytes};

use arr_core::{Axis, Field, Name, Signature};

/// Of a name: at most 65 bytes.
#[tactic(auto, using(crate::proofs::Names::name_short))]
fn name_len(name: &Name) -> u64
    ensures value { result ≡ length (name_bytes name.now) }
    ensures small { result ≤ max_name + 1 }
    ensures named { IsName name.now }
{
    1 + name.as_str().len() as u64
}

/// Of a number of 32 bits.
fn bound_len(bound: i32) -> u64
    ensures { result ≡ 4 }
{
    bound.to_le_bytes().len() as u64
}

/// What stands in the lists of a coverage.
trait Measured {
    ghost is_value: { Self → Type 0 };

    ghost code: { Self → List ℕ };

    ghost most: { ℕ };

    /// Of the part: at most `most` bytes.
    fn bytes_len(&self) -> u64
        ensures value { result ≡ length (code self.now) }
        ensures small { result ≤ most }
        ensures part { is_value self.now };
}

impl Measured for Axis {
    ghost is_value = { IsAxis };

    ghost code = { axis_bytes };

    ghost most = { max_name + 9 };

    #[tactic(auto, using(crate::proofs::ByteCounts::axis_length))]
    fn bytes_len(&self) -> u64 {
        name_len(&self.name) + bound_len(self.lo) + bound_len(self.hi)
    }
}

impl Measured for Field {
    ghost is_value = { IsField };

    ghost code = { field_bytes };

    ghost most = { max_name + 2 };

    #[tactic(auto, using(crate::proofs::ByteCounts::field_length))]
    fn bytes_len(&self) -> u64 {
        name_len(&self.name) + 1
    }
}

/// Of parts in turn.
fn list_len<T: Measured>(list: &[T]) -> u64
    requires { T.most * length list.now < 2 ^ 64 }
    ensures value { result ≡ sum_by (λ x. length (T.code x)) list.now }
    ensures small { result ≤ T.most * length list.now }
    ensures each { All T.is_value list.now }
{
    let mut total = 0;
    for part in list {
        total += part.bytes_len();
    }
    total
}

/// Of a signature: at most 1,561 bytes.
#[tactic(auto, using(crate::proofs::ByteCounts::signature_length))]
pub fn signature_len(signature: &Signature) -> u64
    requires axes { 1 ≤ length signature.now.domain }
    requires fields { AreFields signature.now.fields }
    ensures value { result ≡ length (signature_bytes signature.now) }
    ensures small { result ≤ (max_name + 3) + max_axes * (max_name + 9) + max_fields * (max_name + 2) }
    ensures signature { IsSignature signature.now }
{
    let axes = signature.domain.axes();
    let fields = signature.fields.as_slice();
    name_len(&signature.name) + 1 + list_len(axes) + 1 + list_len(fields)
}
