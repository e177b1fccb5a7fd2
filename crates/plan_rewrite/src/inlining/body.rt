//! Bodies whose binds are inlined where they can be: a literal inside the interval as a constant, a variable whose own
//! interval lies inside as that variable. A body is rewritten in its place.

ghost use Rattle.std.specs.Prelude.{◌≡◌, ◌++◌, [], ◌∷◌, IfOk, OnOk, map};
ghost use Rattle.std.specs.Option.{option_copied};
ghost use Rattle.plan_ir.specs.Bodies.{body_view};
ghost use Rattle.plan_ir.specs.Plans.{pass_view};
ghost use Rattle.plan_rewrite.specs.Inlining.{index_for, literal, constant_in, variable_in, stand_in, inlining, inlined_fold};

use crate::variables::{index_at, variable, with_interval, with_levels, with_spans};
use plan_ir::{Body, Fold, Index, Interval};
use std::alloc::{AllocError, Global};
use std::mem;
use wcps_mean::{Outcome, coordinate_in, operate};

/// Inlines the binds of a body, which gets the variables of `scope`, each by its interval; `env` has an index for each
/// variable of the old one.
#[cycle(inline)]
pub fn inline_body(
    alloc: Global,
    env: &[Index],
    scope: &[Interval],
    e: &mut Body,
) -> Result<(), AllocError>
    ensures { OnOk result (body_view e.new ≡ inlining env.now scope.now (body_view e.old)) }
{
    match e {
        Body::Lit(_) | Body::Reg(_) => Ok(()),
        Body::Var(k) => {
            let inlined = variable(index_at(env, *k));
            put(e, inlined);
            Ok(())
        }
        Body::Op1(_, e) => inline_body(alloc, env, scope, e),
        Body::Op2(_, l, r) => {
            inline_body(alloc, env, scope, l)?;
            inline_body(alloc, env, scope, r)
        }
        Body::Read {
            coverage: _,
            field: _,
            indexes,
        } => {
            move_indexes(env, indexes);
            Ok(())
        }
        Body::Table {
            domain: _,
            items: _,
            indexes,
        } => {
            move_indexes(env, indexes);
            Ok(())
        }
        Body::Bind {
            position,
            interval,
            body,
        } => {
            inline_body(alloc, env, scope, position)?;
            match stand_in(scope, *interval, position) {
                Some(i) => {
                    inline_under(alloc, env, i, scope, body)?;
                    let inlined = mem::replace(&mut **body, Body::Lit(0));
                    put(e, inlined);
                    Ok(())
                }
                None => {
                    let inner = with_interval(alloc, scope, *interval)?;
                    inline_under(alloc, env, Index::Var(scope.len()), &inner, body)
                }
            }
        }
        Body::Fold(f) => inline_fold(alloc, env, scope, f),
    }
}

/// The same of a body under one old variable more, for which an index stands.
#[cycle(inline)]
fn inline_under(
    alloc: Global,
    env: &[Index],
    i: Index,
    scope: &[Interval],
    e: &mut Body,
) -> Result<(), AllocError>
    ensures { OnOk result (body_view e.new ≡ inlining (env.now ++ i ∷ []) scope.now (body_view e.old)) }
{
    let inner = with_index(alloc, env, i)?;
    inline_body(alloc, &inner, scope, e)
}

/// Puts a body in the place of another.
fn put(e: &mut Body, body: Body)
    ensures { body_view e.new ≡ body_view body }
{
    *e = body;
}

/// The same of a fold under the variables of `scope`.
#[cycle(inline)]
pub fn inline_fold(
    alloc: Global,
    env: &[Index],
    scope: &[Interval],
    f: &mut Fold,
) -> Result<(), AllocError>
    ensures { OnOk result (pass_view f.new ≡ inlined_fold env.now scope.now (pass_view f.old)) }
{
    let inner = with_levels(alloc, env, scope, f.domain.axes())?;
    let more = with_spans(alloc, scope, f.domain.axes())?;
    if let Some(c) = &mut f.condition {
        inline_body(alloc, &inner, &more, c)?;
    }
    inline_body(alloc, &inner, &more, &mut f.body)
}

/// Puts in the place of each index the one that stands for it.
#[tactic(auto, using(crate::proofs::Loops::mapped_more))]
fn move_indexes(env: &[Index], indexes: &mut [Index])
    ensures { indexes.new ≡ map (index_for env.now) indexes.old }
{
    for index in indexes.iter_mut() {
        *index = index_for(env, *index);
    }
}

/// The index that stands for an index.
fn index_for(env: &[Index], i: Index) -> Index
    ensures { result ≡ index_for env.now i }
{
    match i {
        Index::Const(z) => Index::Const(z),
        Index::Var(k) => index_at(env, k),
    }
}

/// The number of a literal, which may have signs.
fn literal(e: &Body) -> Option<i64>
    ensures { result ≡ literal (body_view e.now) }
{
    match e {
        Body::Lit(z) => Some(*z),
        Body::Op1(op, e) => match literal(e) {
            None => None,
            Some(z) => match operate(*op, Outcome::Value(z)) {
                Outcome::Value(x) => Some(x),
                Outcome::Fault(_) => None,
            },
        },
        _ => None,
    }
}

/// A constant inside an interval.
fn constant_in(interval: Interval, number: Option<i64>) -> Option<Index>
    ensures { result ≡ constant_in interval.lo interval.hi number }
{
    match number {
        None => None,
        Some(z) => match coordinate_in(Outcome::Value(z), interval.lo, interval.hi) {
            Ok(z) => Some(Index::Const(z)),
            Err(_) => None,
        },
    }
}

/// A variable all of whose numbers, of which there are some, lie inside an interval.
fn variable_in(interval: Interval, k: usize, own: Option<&Interval>) -> Option<Index>
    ensures { result ≡ variable_in interval.lo interval.hi k (option_copied own.entry) }
{
    match own {
        None => None,
        Some(own) => {
            if own.lo <= own.hi && (interval.lo <= own.lo && own.hi <= interval.hi) {
                Some(Index::Var(k))
            } else {
                None
            }
        }
    }
}

/// What a position is inlined as.
pub fn stand_in(scope: &[Interval], interval: Interval, position: &Body) -> Option<Index>
    ensures { result ≡ stand_in scope.now interval.lo interval.hi (body_view position.now) }
{
    match position {
        Body::Lit(z) => constant_in(interval, Some(*z)),
        Body::Var(k) => variable_in(interval, *k, scope.get(*k)),
        Body::Op1(_, _) => constant_in(interval, literal(position)),
        _ => None,
    }
}

/// One index more.
fn with_index(alloc: Global, env: &[Index], i: Index) -> Result<Vec<Index>, AllocError>
    ensures { IfOk result (λ v. v.items ≡ env.now ++ i ∷ []) }
{
    let mut list = env.to_vec(alloc)?;
    list.push(i)?;
    Ok(list)
}
