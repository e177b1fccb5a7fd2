//! Whether two folds of zones have their keys at the same place.

ghost use Rattle.std.specs.Prelude.{◌≡◌, IsTrue};

use crate::shapes::Shape;
use crate::zones::{Role, Zones};
use wcps_text::BinaryOperator;

/// Whether two operations are the same.
fn same_operator(a: BinaryOperator, b: BinaryOperator) -> bool
    ensures { IsTrue result → a ≡ b }
{
    a == b
}

/// Whether two bodies are made of an equation in the same way.
fn same_shape(a: Shape, b: Shape) -> bool
    ensures { IsTrue result → a ≡ b }
{
    match a {
        Shape::Alone => match b {
            Shape::Alone => true,
            _ => false,
        },
        Shape::First(x) => match b {
            Shape::First(y) => same_operator(x, y),
            _ => false,
        },
        Shape::Second(x) => match b {
            Shape::Second(y) => same_operator(x, y),
            _ => false,
        },
    }
}

/// Whether two equations stand at the same place.
fn same_role(a: Role, b: Role) -> bool
    ensures { IsTrue result → a ≡ b }
{
    match a {
        Role::Condition => match b {
            Role::Condition => true,
            _ => false,
        },
        Role::Within(x) => match b {
            Role::Within(y) => same_shape(x, y),
            _ => false,
        },
    }
}

/// Whether two equations, and their keys, stand at the same place.
pub fn same_zones(a: Zones, b: Zones) -> bool
    ensures { IsTrue result → a ≡ b }
{
    if a.key_first != b.key_first {
        return false;
    }
    same_role(a.role, b.role)
}
