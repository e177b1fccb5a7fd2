//! Looking names up.

ghost use Rattle.std.specs.Prelude.{◌≡◌};
ghost use Rattle.std.specs.Str.{bytes_eq};
ghost use Rattle.arr_core.specs.Domains.{axis_place};
ghost use Rattle.wcps_types.specs.Names.{coverage_place, name_place, is_name_of};

use arr_core::{Axis, Signature};
use wcps_text::QueryName;

/// Whether two lists of bytes are the same.
fn are_same_bytes(a: &[u8], b: &[u8]) -> bool
    ensures { result ≡ bytes_eq a.now b.now }
{
    match a {
        [] => b.is_empty(),
        [x, xs @ ..] => match b {
            [] => false,
            [y, ys @ ..] => *x == *y && are_same_bytes(xs, ys),
        },
    }
}

/// Whether two texts are the same. A look-up compares a name with up to hundreds of others, of which most differ from
/// it in their length or at an end.
pub fn is_same(a: &str, b: &str) -> bool
    ensures { result ≡ bytes_eq a.now b.now }
{
    a.len() == b.len()
        && a.as_bytes().last() == b.as_bytes().last()
        && are_same_bytes(a.as_bytes(), b.as_bytes())
}

/// The place of the axis of that name.
pub fn axis_place(axes: &[Axis], name: &QueryName) -> Option<usize>
    ensures { result ≡ axis_place name.now axes.now }
{
    axes.iter()
        .position(|axis| is_same(axis.name.as_str(), name.as_str()))
}

/// The place of the coverage of that name.
pub fn coverage_place(coverages: &[Signature], name: &QueryName) -> Option<usize>
    ensures { result ≡ coverage_place name.now coverages.now }
{
    coverages
        .iter()
        .position(|coverage| is_same(coverage.name.as_str(), name.as_str()))
}

/// The place of a name in a list.
pub fn name_place(names: &[QueryName], name: &QueryName) -> Option<usize>
    ensures { result ≡ name_place name.now names.now }
{
    names
        .iter()
        .position(|n| is_same(n.as_str(), name.as_str()))
}

/// Whether an optional name is that one.
pub fn is_name_of(own: &Option<QueryName>, name: &QueryName) -> bool
    ensures { result ≡ is_name_of name.now own.now }
{
    match own {
        Some(own) => is_same(own.as_str(), name.as_str()),
        None => false,
    }
}
