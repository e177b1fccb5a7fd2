//! What the parts of a request stand for: domains and fields, or the refusal that they get.
ghost use Rattle.std.specs.Prelude.{◌≡◌, IfOk, IfErr, FitsSigned};
ghost use Rattle.std.specs.Int.{w32};
ghost use Rattle.std.specs.Option.{SomeIff};
ghost use Rattle.coverage_server.specs.Machine.{FitBounds, SpellDomain, axis_of, axes_of};
ghost use Rattle.coverage_server.specs.Writing.{GivesAxes, IsRefusedFor};

use crate::error::AnswerError;
use arr_core::{Axis, Domain, Field, Fields, MAX_BOUND, Refusal};
use kvp_front::Interval;
use std::alloc::{AllocError, Global};

/// A bound of 32 bits.
fn bound(number: i64) -> Option<i32>
    ensures { SomeIff result (FitsSigned w32 number) number }
{
    if -MAX_BOUND - 1 <= number && number <= MAX_BOUND {
        Some(number as i32)
    } else {
        None
    }
}

/// The axis that an interval spells, or nothing where a bound does not fit 32 bits.
fn axis_of(alloc: Global, interval: &Interval) -> Result<Option<Axis>, AllocError>
    ensures { IfOk result (λ o. SomeIff o (FitBounds interval.now) (axis_of interval.now)) }
{
    match bound(interval.lo) {
        None => Ok(None),
        Some(lo) => match bound(interval.hi) {
            None => Ok(None),
            Some(hi) => {
                let name = interval.axis.copy(alloc)?;
                Ok(Some(Axis { name, lo, hi }))
            }
        },
    }
}

/// The axes that intervals spell, or nothing where a bound does not fit 32 bits.
fn axes_of(alloc: Global, intervals: &[Interval]) -> Result<Option<Vec<Axis>>, AllocError>
    ensures { IfOk result (GivesAxes intervals.now) }
{
    let mut axes = Vec::new(alloc);
    for interval in intervals {
        match axis_of(alloc, interval)? {
            None => return Ok(None),
            Some(axis) => axes.push(axis)?,
        }
    }
    Ok(Some(axes))
}

/// The domain that intervals spell, or the refusal of intervals that spell none.
pub fn domain_of(
    alloc: Global,
    intervals: &[Interval],
    refusal: Refusal,
) -> Result<Domain, AnswerError>
    ensures ok { IfOk result (λ d. SpellDomain intervals.now × (d ≡ axes_of intervals.now)) }
    ensures err { IfErr result (IsRefusedFor refusal (¬ (SpellDomain intervals.now))) }
{
    match axes_of(alloc, intervals)? {
        None => Err(AnswerError::Named(refusal)),
        Some(axes) => match Domain::new(axes) {
            Ok(domain) => Ok(domain),
            Err(_) => Err(AnswerError::Named(refusal)),
        },
    }
}

/// A copy of fields.
pub fn copied_fields(alloc: Global, fields: &[Field]) -> Result<Fields, AllocError>
    ensures { IfOk result (λ f. f ≡ fields.now) }
{
    let mut list = Vec::new(alloc);
    for field in fields {
        let copy = field.copy(alloc)?;
        list.push(copy)?;
    }
    Ok(Fields::new(list))
}
