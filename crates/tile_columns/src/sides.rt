//! Where the bodies of a fold of zones lie: both sides of its equation, and what stands beside it.

ghost use Rattle.std.specs.Prelude.{◌≡◌, ◌<◌, ◌≤◌, option_copied, IfSome};
ghost use Rattle.plan_ir.specs.Bodies.{body_view, condition_view};
ghost use Rattle.plan_ir.specs.declared.Body.{size-Body};
ghost use Rattle.plan_ir.specs.declared.Fold.{size-Fold};
ghost use Rattle.tile_columns.specs.Shapes.{operand, equation_by, other_by, HasOperands, IsOfShape};
ghost use Rattle.tile_columns.specs.Zones.{side, other_of, HasEquation};

use crate::shapes::Shape;
use crate::zones::{Role, Zones};
use plan_ir::{Body, Fold};

/// The left or the right operand of a body that has two.
fn operand_of(body: &Body, left: bool) -> &Body
    requires { HasOperands (body_view body.now) }
    ensures operand { body_view result.now ≡ operand left (body_view body.now) }
    ensures smaller { size-Body result.now < size-Body body.now }
{
    match body {
        Body::Op2(_, l, r) => {
            if left {
                return l;
            }
            r
        }
        _ => unreachable!(),
    }
}

/// The equation of a body of a shape.
fn equation_of(body: &Body, shape: Shape) -> &Body
    requires { IsOfShape shape (body_view body.now) }
    ensures equation { body_view result.now ≡ equation_by shape (body_view body.now) }
    ensures small { size-Body result.now ≤ size-Body body.now }
{
    match shape {
        Shape::Alone => body,
        Shape::First(_) => operand_of(body, true),
        Shape::Second(_) => operand_of(body, false),
    }
}

/// Its other operand, if it has one.
fn beside(body: &Body, shape: Shape) -> Option<&Body>
    requires { IsOfShape shape (body_view body.now) }
    ensures other { condition_view (option_copied result) ≡ other_by shape (body_view body.now) }
    ensures smaller { IfSome result (λ other. size-Body other.now < size-Body body.now) }
{
    match shape {
        Shape::Alone => None,
        Shape::First(_) => Some(operand_of(body, false)),
        Shape::Second(_) => Some(operand_of(body, true)),
    }
}

/// The left or the right side of the equation of a fold of zones.
pub(crate) fn side_of(fold: &Fold, zones: Zones, left: bool) -> &Body
    requires { HasEquation fold.now zones }
    ensures side { body_view result.now ≡ side zones left fold.now }
    ensures smaller { size-Body result.now < size-Fold fold.now }
{
    match zones.role {
        Role::Condition => match &fold.condition {
            None => unreachable!(),
            Some(condition) => operand_of(condition, left),
        },
        Role::Within(shape) => operand_of(equation_of(&fold.body, shape), left),
    }
}

/// The other body of a fold of zones, if it has one beside the equation.
pub(crate) fn other_of(fold: &Fold, zones: Zones) -> Option<&Body>
    requires { HasEquation fold.now zones }
    ensures other { condition_view (option_copied result) ≡ other_of fold.now zones }
    ensures smaller { IfSome result (λ other. size-Body other.now < size-Fold fold.now) }
{
    match zones.role {
        Role::Condition => Some(&fold.body),
        Role::Within(shape) => beside(&fold.body, shape),
    }
}
