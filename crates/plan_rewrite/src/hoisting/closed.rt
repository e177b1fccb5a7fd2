//! Closed folds, which use no variable from outside them, and the passes that they become.

ghost use Rattle.std.specs.Prelude.{◌≡◌, map};
ghost use Rattle.plan_ir.specs.Bodies.{body_view};
ghost use Rattle.plan_ir.specs.Plans.{pass_view};
ghost use Rattle.plan_ir.specs.Variables.{index_without, without};
ghost use Rattle.plan_rewrite.specs.Hoisting.{pass_without};

use plan_ir::{Body, Fold, Index};

/// Takes away the first `n` variables of a body, of which it uses none.
#[cycle(shift)]
fn shift(n: usize, e: &mut Body)
    ensures { body_view e.new ≡ without n (body_view e.old) }
{
    match e {
        Body::Lit(_) | Body::Reg(_) => {}
        Body::Var(k) => *k = k.saturating_sub(n),
        Body::Op1(_, e) => shift(n, e),
        Body::Op2(_, l, r) => {
            shift(n, l);
            shift(n, r);
        }
        Body::Read {
            coverage: _,
            field: _,
            indexes,
        } => shift_indexes(n, indexes),
        Body::Table {
            domain: _,
            items: _,
            indexes,
        } => shift_indexes(n, indexes),
        Body::Bind {
            position,
            interval: _,
            body,
        } => {
            shift(n, position);
            shift(n, body);
        }
        Body::Fold(f) => shift_fold(n, f),
    }
}

/// The same of a fold.
#[cycle(shift)]
pub fn shift_fold(n: usize, f: &mut Fold)
    ensures { pass_view f.new ≡ pass_without n (pass_view f.old) }
{
    if let Some(c) = &mut f.condition {
        shift(n, c);
    }
    shift(n, &mut f.body);
}

/// The same of indexes.
#[tactic(auto, using(crate::proofs::Loops::mapped_more))]
fn shift_indexes(n: usize, indexes: &mut [Index])
    ensures { indexes.new ≡ map (index_without n) indexes.old }
{
    for index in indexes.iter_mut() {
        *index = index_without(n, *index);
    }
}

/// An index without the first `n` variables.
fn index_without(n: usize, index: Index) -> Index
    ensures { result ≡ index_without n index }
{
    match index {
        Index::Const(z) => Index::Const(z),
        Index::Var(k) => Index::Var(k.saturating_sub(n)),
    }
}
