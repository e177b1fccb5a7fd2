//! Plans that are read from words.

use crate::answers::say_run;
use crate::words::aggregate;
use anyhow::{Context, Result, bail};
use arr_core::Domain;
use plan_ir::{Bind, Body, Combination, Field, Fold, Index, Interval, Item, Plan, Steps};
use std::alloc::{AllocError, Global};
use test_rows::{Answer, coordinate, cut, cut_at, domain, index, integer};
use wcps_mean::{CellError, Cells};
use wcps_text::BinaryOperator;

/// Every cell of every coverage is the same.
#[derive(Drop)]
struct Constant(i64);

impl Cells for Constant {
    ghost cells = { λ s c f p. s.0 };

    ghost kept = { λ _. tt };

    fn cell(&mut self, _: usize, _: usize, _: &[i32]) -> Result<i64, CellError> {
        Ok(self.0)
    }
}

/// What has been read of a plan: its steps but for the field of the item, and a stack of bodies.
#[derive(Drop)]
struct Reading {
    bodies: Vec<Body>,
    steps: Steps,
}

/// Adds an index, as `v0` or `c-5`.
fn add_index(list: &mut Vec<Index>, word: &str) -> Result<()> {
    list.push(match word.strip_prefix('v') {
        Some(level) => Index::Var(index(level)?),
        None => Index::Const(coordinate(word.trim_start_matches('c'))?),
    })?;
    Ok(())
}

/// Indexes, as `v0,c5`; `-` for none.
fn indexes(alloc: Global, words: &str) -> Result<Vec<Index>> {
    let mut list = Vec::new(alloc);
    if words != "-" {
        for word in words.split(',') {
            add_index(&mut list, word)?;
        }
    }
    Ok(list)
}

/// An interval, as `0:9`.
fn interval(word: &str) -> Result<Interval> {
    let (lo, hi) = cut_at(word, ':');
    Ok(Interval {
        lo: coordinate(lo)?,
        hi: coordinate(hi)?,
    })
}

/// A body without bodies of its own, by its name and what follows it.
fn leaf(alloc: Global, name: &str, rest: &str) -> Result<Body> {
    Ok(match name {
        "lit" => Body::Lit(integer(rest)?),
        "var" => Body::Var(index(rest)?),
        "reg" => Body::Reg(index(rest)?),
        "read" => Body::Read {
            coverage: 0,
            field: 0,
            indexes: indexes(alloc, rest)?,
        },
        _ => bail!("no such word"),
    })
}

impl Reading {
    /// Nothing but the domain of the item.
    fn new(alloc: Global, domain: Domain) -> Reading {
        Reading {
            bodies: Vec::new(alloc),
            steps: Steps {
                passes: Vec::new(alloc),
                condition: None,
                item: Item {
                    domain,
                    binds: Vec::new(alloc),
                    fields: Vec::new(alloc),
                },
            },
        }
    }

    fn push(&mut self, body: Body) -> Result<()> {
        self.bodies.push(body)?;
        Ok(())
    }

    fn pop(&mut self) -> Result<Body> {
        self.bodies.pop().context("no body")
    }

    fn pop_boxed(&mut self, alloc: Global) -> Result<Box<Body>> {
        Ok(Box::new(alloc, self.pop()?)?)
    }

    fn operation(&mut self, alloc: Global, op: BinaryOperator) -> Result<()> {
        let right = self.pop_boxed(alloc)?;
        let left = self.pop_boxed(alloc)?;
        self.push(Body::Op2(op, left, right))
    }

    /// A bind, as `0:9`: the body, and below it the position.
    fn bind(&mut self, alloc: Global, bounds: &str) -> Result<()> {
        let interval = interval(bounds)?;
        let body = self.pop_boxed(alloc)?;
        let position = self.pop_boxed(alloc)?;
        self.push(Body::Bind {
            position,
            interval,
            body,
        })
    }

    /// A bind of the item, as `0:9`.
    fn bound(&mut self, bounds: &str) -> Result<()> {
        let interval = interval(bounds)?;
        let position = self.pop()?;
        self.steps.item.binds.push(Bind { position, interval })?;
        Ok(())
    }

    /// A condition, where one is asked for.
    fn condition(&mut self, is_where: bool) -> Result<Option<Body>> {
        if !is_where {
            return Ok(None);
        }
        Ok(Some(self.pop()?))
    }

    /// A fold, as `sum@x(0:1)`: the body, and below it the condition, if there is one.
    fn made_fold(&mut self, alloc: Global, words: &str, is_where: bool) -> Result<Fold> {
        let (op, axes) = cut_at(words, '@');
        let op = aggregate(op)?;
        let domain = domain(alloc, axes)?;
        let body = self.pop()?;
        let condition = self.condition(is_where)?;
        Ok(Fold {
            op,
            domain,
            condition,
            body,
        })
    }

    fn fold(&mut self, alloc: Global, words: &str, is_where: bool) -> Result<()> {
        let fold = self.made_fold(alloc, words, is_where)?;
        self.push(Body::Fold(Box::new(alloc, fold)?))
    }

    fn pass(&mut self, alloc: Global, words: &str, is_where: bool) -> Result<()> {
        let fold = self.made_fold(alloc, words, is_where)?;
        self.steps.passes.push(fold)?;
        Ok(())
    }

    /// Takes the next word: a body, an operation, a fold or a pass, or a bind of the item.
    fn take(&mut self, alloc: Global, word: &str) -> Result<()> {
        let (name, rest) = cut_at(word, '@');
        match name {
            "+" => self.operation(alloc, BinaryOperator::Add),
            "*" => self.operation(alloc, BinaryOperator::Multiply),
            "bind" => self.bind(alloc, rest),
            "bound" => self.bound(rest),
            "fold" => self.fold(alloc, rest, false),
            "fold_where" => self.fold(alloc, rest, true),
            "pass" => self.pass(alloc, rest, false),
            "pass_where" => self.pass(alloc, rest, true),
            _ => self.push(leaf(alloc, name, rest)?),
        }
    }

    /// The steps, whose item has one field: the body that is left.
    fn finish(mut self) -> Result<Steps> {
        let body = self.pop()?;
        self.steps.item.fields.push(Field {
            boolean: false,
            body,
        })?;
        Ok(self.steps)
    }
}

/// The steps of `x(0:2) var@0`: the domain of the item, then the words.
fn steps(alloc: Global, axes: &str, words: &str) -> Result<Steps> {
    let mut reading = Reading::new(alloc, domain(alloc, axes)?);
    for word in words.split(' ') {
        reading.take(alloc, word)?;
    }
    reading.finish()
}

/// A plan of one combination.
fn plan(alloc: Global, steps: Steps) -> Result<Plan, AllocError> {
    let steps = Vec::from_array(alloc, [steps])?;
    let combination = Combination {
        steps: 0,
        coverages: Vec::new(alloc),
    };
    Ok(Plan {
        coverages: Vec::new(alloc),
        steps,
        combinations: Vec::from_array(alloc, [combination])?,
    })
}

/// The items of `7 x(0:2) var@0`: the number of all cells, the domain of the item, and its words; or their fault.
pub fn say_plan_run(alloc: Global, answer: &mut Answer, call: &str) -> Result<()> {
    let (number, rest) = cut(call);
    let (axes, words) = cut(rest);
    let mut cells = Constant(integer(number)?);
    let plan = plan(alloc, steps(alloc, axes, words)?)?;
    say_run(alloc, answer, &mut cells, &plan);
    Ok(())
}
