//! Bodies whose closed folds become passes. A body is rewritten in its place.

ghost use Rattle.std.specs.Prelude.{◌≡◌, ◌≤◌, ◌+◌, ◌^◌, [], ◌∷◌, IfOk, OnOk, OnErr};
ghost use Rattle.plan_ir.specs.Bodies.{body_view};
ghost use Rattle.plan_ir.specs.Plans.{pass_view};
ghost use Rattle.plan_rewrite.specs.HoistedParts.{body_hoisted, inner_pass, inner_passes};
ghost use Rattle.plan_rewrite.specs.Views.{pass_in, passes_in, Gains};

use crate::hoisting::closed::shift_fold;
use plan_ir::{Body, Fold, fold_is_from};
use std::alloc::AllocError;
use std::mem;
use wcps_mean::place_at;

/// What is around a body: the place of each old register, and how many variables there are.
#[derive(Clone, Copy)]
pub struct Around<'a> {
    pub regs: &'a [usize],
    pub depth: usize,
}

impl<'a> Around<'a> {
    /// The same under so many variables more. A list of so many that they cannot be counted finds no memory.
    pub fn under(&self, more: usize) -> Result<Around<'a>, AllocError>
        ensures value { IfOk result (λ a. (a.regs ≡ self.now.regs) × (a.depth ≡ self.now.depth + more)) }
        ensures no_memory { OnErr result (2 ^ 64 ≤ self.now.depth + more) }
    {
        let depth = self.depth.checked_add(more).ok_or(AllocError)?;
        Ok(Around {
            regs: self.regs,
            depth,
        })
    }
}

/// Puts the closed folds of a body at the end of the passes, the innermost first, and their registers in their places.
#[cycle(hoist)]
pub fn hoist_body(at: &Around, e: &mut Body, passes: &mut Vec<Fold>) -> Result<(), AllocError>
    ensures body { OnOk result (body_view e.new ≡ (body_hoisted at.now passes.old e.old).body) }
    ensures passes { OnOk result (passes_in passes.new ≡ (body_hoisted at.now passes.old e.old).passes) }
{
    match e {
        Body::Reg(k) => {
            *k = place_at(at.regs, *k);
            Ok(())
        }
        Body::Op1(_, e) => hoist_body(at, e, passes),
        Body::Op2(_, l, r) => {
            hoist_body(at, l, passes)?;
            hoist_body(at, r, passes)
        }
        Body::Bind {
            position,
            interval: _,
            body,
        } => {
            hoist_body(at, position, passes)?;
            hoist_body(&at.under(1)?, body, passes)
        }
        Body::Fold(f) => {
            hoist_fold(at, f, passes)?;
            if fold_is_from(at.depth, f) {
                shift_fold(at.depth, f);
                let place = passes.len();
                match mem::replace(e, Body::Reg(place)) {
                    Body::Fold(pass) => push_pass(passes, pass)?,
                    _ => unreachable!(),
                }
            }
            Ok(())
        }
        _ => Ok(()),
    }
}

/// The same of the condition and the body of a fold, which itself stays.
#[cycle(hoist)]
pub fn hoist_fold(at: &Around, f: &mut Fold, passes: &mut Vec<Fold>) -> Result<(), AllocError>
    ensures pass { OnOk result (pass_view f.new ≡ inner_pass at.now passes.old f.old) }
    ensures passes { OnOk result (passes_in passes.new ≡ inner_passes at.now passes.old f.old) }
{
    let inner = at.under(f.domain.axes().len())?;
    if let Some(c) = &mut f.condition {
        hoist_body(&inner, c, passes)?;
    }
    hoist_body(&inner, &mut f.body, passes)
}

/// Puts a pass at the end.
fn push_pass(passes: &mut Vec<Fold>, pass: Box<Fold>) -> Result<(), AllocError>
    ensures { OnOk result (Gains pass_view passes.old passes.new (pass_in pass ∷ [])) }
{
    passes.push(Box::into_inner(pass))?;
    Ok(())
}
