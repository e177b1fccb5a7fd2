//! Where an expression is typed.

use crate::bound::Variables;
use crate::scope::Scope;
use arr_core::Signature;
use std::alloc::Global;

/// What the names of an expression stand for: the signatures of the coverages, the variables of the `for` list, each of
/// which stands for one of them, and the iterators in scope. What is made of the expression is allocated with `alloc`.
#[derive(Clone, Copy)]
pub struct Context<'s, 'a> {
    pub alloc: Global,
    pub coverages: &'s [&'a Signature],
    pub bound: &'s Variables,
    pub scope: &'s Scope<'s>,
}
