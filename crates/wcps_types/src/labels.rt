//! The labels of the fields of a value.

ghost use Rattle.std.specs.Prelude.{◌≡◌};
ghost use Rattle.wcps_types.specs.Labels.{labels_in};
ghost use Rattle.wcps_types.specs.Shapes.{the_boolean};

use arr_core::Field;
use wcps_text::QueryName;

/// One field: its name if it has one, and whether it is Boolean.
#[derive(Drop)]
pub struct Label {
    pub name: Option<QueryName>,
    pub boolean: bool,
}

/// The labels of all fields, in order. Those of a coverage stay in its signature.
#[derive(Drop)]
pub enum Labels<'a> {
    /// One field without a name, and whether it is Boolean.
    Unnamed(bool),
    /// Fields of a coverage.
    Fields(&'a [Field]),
    /// Fields with labels of their own.
    Listed(Vec<Label>),
}

/// Whether the only field is Boolean, where there is one alone.
pub fn the_boolean(labels: &Labels) -> Option<bool>
    ensures { result ≡ the_boolean (labels_in labels.now) }
{
    match labels {
        Labels::Unnamed(boolean) => Some(*boolean),
        Labels::Fields(fields) => match fields {
            [field] => Some(field.kind.is_bool()),
            [] | [_, _, ..] => None,
        },
        Labels::Listed(list) => match list.as_slice() {
            [label] => Some(label.boolean),
            [] | [_, _, ..] => None,
        },
    }
}
