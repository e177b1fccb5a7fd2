//! Which variables a body uses.

ghost use Rattle.std.specs.Prelude.{◌≡◌, ◌&&◌};
ghost use Rattle.std.specs.List.{list_all};
ghost use Rattle.plan_ir.specs.Bodies.{body_view};
ghost use Rattle.plan_ir.specs.Plans.{pass_view};
ghost use Rattle.plan_ir.specs.Units.{index_below};
ghost use Rattle.plan_ir.specs.Variables.{index_from, is_from, is_below};

use crate::body::{Body, Fold, Index};

/// Whether no variable of a body is one of the first `n`.
#[cycle(from)]
pub fn is_from(n: usize, e: &Body) -> bool
    ensures { result ≡ is_from n (body_view e.now) }
{
    match e {
        Body::Lit(_) => true,
        Body::Var(k) => n <= *k,
        Body::Reg(_) => true,
        Body::Op1(_, e) => is_from(n, e),
        Body::Op2(_, l, r) => is_from(n, l) && is_from(n, r),
        Body::Read {
            coverage: _,
            field: _,
            indexes,
        } => indexes_from(n, indexes),
        Body::Table {
            domain: _,
            items: _,
            indexes,
        } => indexes_from(n, indexes),
        Body::Bind {
            position,
            interval: _,
            body,
        } => is_from(n, position) && is_from(n, body),
        Body::Fold(f) => fold_is_from(n, f),
    }
}

/// The same of the condition and the body of a fold.
#[cycle(from)]
pub fn fold_is_from(n: usize, f: &Fold) -> bool
    ensures { result ≡ (is_from n (pass_view f.now).condition && is_from n (pass_view f.now).body) }
{
    match &f.condition {
        None => is_from(n, &f.body),
        Some(c) => is_from(n, c) && is_from(n, &f.body),
    }
}

/// The same of indexes.
fn indexes_from(n: usize, indexes: &[Index]) -> bool
    ensures { result ≡ list_all (index_from n) indexes.now }
{
    match indexes {
        [] => true,
        [index, rest @ ..] => index_from(n, *index) && indexes_from(n, rest),
    }
}

/// The same of an index.
fn index_from(n: usize, index: Index) -> bool
    ensures { result ≡ index_from n index }
{
    match index {
        Index::Const(_) => true,
        Index::Var(k) => n <= k,
    }
}

/// Whether every variable of a body is one of the first `n`, and the body has no bind and no fold, which have variables
/// of their own.
#[cycle(below)]
pub fn is_below(n: usize, e: &Body) -> bool
    ensures { result ≡ is_below n (body_view e.now) }
{
    match e {
        Body::Lit(_) => true,
        Body::Var(k) => *k < n,
        Body::Reg(_) => true,
        Body::Op1(_, e) => is_below(n, e),
        Body::Op2(_, l, r) => is_below(n, l) && is_below(n, r),
        Body::Read {
            coverage: _,
            field: _,
            indexes,
        } => indexes_below(n, indexes),
        Body::Table {
            domain: _,
            items: _,
            indexes,
        } => indexes_below(n, indexes),
        Body::Bind {
            position: _,
            interval: _,
            body: _,
        } => false,
        Body::Fold(_) => false,
    }
}

/// The same of indexes.
fn indexes_below(n: usize, indexes: &[Index]) -> bool
    ensures { result ≡ list_all (index_below n) indexes.now }
{
    match indexes {
        [] => true,
        [index, rest @ ..] => index_below(n, *index) && indexes_below(n, rest),
    }
}

/// The same of an index.
fn index_below(n: usize, index: Index) -> bool
    ensures { result ≡ index_below n index }
{
    match index {
        Index::Const(_) => true,
        Index::Var(k) => k < n,
    }
}
