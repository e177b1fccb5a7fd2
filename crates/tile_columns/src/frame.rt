//! Frames: the numbers of a body's variables at each place of a column.

ghost use Rattle.std.specs.Prelude.{◌≡◌, ℕ, ◌+◌, ◌*◌, ◌<◌, ◌≤◌, ◌≤ℤ◌, ℤ, pos, List, [], ◌++◌, length, take, map, slice_index_or, replicate, IsTrue, IfSome, OnOk, IfOk};
ghost use Rattle.std.specs.List.{All};
ghost use Rattle.arr_core.specs.Limits.{max_tile};
ghost use Rattle.arr_core.specs.Domains.{points, count, AreOrdered};
ghost use Rattle.arr_core.specs.Tiles.{tile_boxes, tile_box};
ghost use Rattle.plan_ir.specs.Run.{number_at, numbers_at};
ghost use Rattle.tile_columns.specs.Frames.{turn, number_of, environment, HasPlaces, under, extended, turns, TellsAt, Adds, number_there, by_place, StayWhole};
ghost use Rattle.tile_columns.specs.Covering.{GoesOver};

use crate::covering::tile_covered;
use crate::numbers::fill_list;
use crate::tiling::push_tile;
use arr_core::{Axis, Domain, coordinate, distance};
use plan_ir::{Index, Interval};
use std::alloc::{AllocError, Global};
use std::marker::Model;

/// A variable at the places of a column.
#[derive(Drop)]
pub enum Variable {
    /// One number at every place.
    Const(i32),
    /// The coordinates of an axis from the first field to the second, each the third field's times, over and over.
    Axis(i32, i32, u64),
    /// A number for each place.
    Column(Vec<i32>),
}

/// The numbers of all variables at each of at most 4,096 places. It is seen as the list, place by place, of the numbers
/// of all variables, the outermost first.
#[derive(Drop)]
pub struct Frame {
    places: usize,
    variables: Vec<Variable>,
}

impl Model for Frame {
    ghost use Rattle.std.specs.Prelude.{List, ℤ};

    ghost Value = { List (List ℤ) };

    ghost use Rattle.tile_columns.specs.Frames.{environments, IsFrame};

    ghost view = { λ f. environments f.places f.variables.items };

    ghost invariant = { λ f. IsFrame f.places f.variables.items };
}

/// The coordinate of an axis at a place, where each comes so many times.
fn turn(lo: i32, hi: i32, every: u64, place: usize) -> i32
    requires ordered { lo ≤ℤ hi }
    requires some { 0 < every }
    ensures { result ≡ turn lo hi every place }
{
    coordinate(lo, hi, place as u64 / every % (distance(lo, hi) + 1))
}

impl Variable {
    /// The number at a place.
    fn at(&self, place: usize) -> i32
        requires { TellsAt place self.now }
        ensures { result ≡ number_of place self.now }
    {
        match self {
            Variable::Const(z) => *z,
            Variable::Axis(lo, hi, every) => turn(*lo, *hi, *every, place),
            Variable::Column(zs) => zs[place],
        }
    }

    /// Whether the numbers are the coordinates of an axis in turn.
    fn turns_as(&self, lo: i32, hi: i32, every: u64) -> bool
        ensures { IsTrue result → (place : ℕ) → number_of place self.now ≡ turn lo hi every place }
    {
        match self {
            Variable::Axis(from, to, times) => *from == lo && *to == hi && *times == every,
            _ => false,
        }
    }
}

/// Puts a variable at the end for each axis; the axes have `total` points, and the last one turns fastest.
fn push_axes(variables: &mut Vec<Variable>, axes: &[Axis], total: u64) -> Result<(), AllocError>
    requires ordered { AreOrdered axes.now }
    requires counted { total ≡ count axes.now }
    ensures numbers { OnOk result (Adds (turns axes.now) variables.old.items variables.new.items) }
    ensures whole { (n : ℕ) → StayWhole n variables.old.items variables.new.items }
{
    match axes {
        [] => Ok(()),
        [axis, rest @ ..] => {
            let every = total / axis.size();
            variables.push(Variable::Axis(axis.lo, axis.hi, every))?;
            push_axes(variables, rest, every)?;
            Ok(())
        }
    }
}

/// Puts a variable at the end for each number, which it has at every place.
fn push_numbers(variables: &mut Vec<Variable>, numbers: &[i32]) -> Result<(), AllocError>
    ensures numbers { OnOk result (Adds (λ _. numbers.now) variables.old.items variables.new.items) }
    ensures whole { (n : ℕ) → StayWhole n variables.old.items variables.new.items }
{
    for z in numbers {
        variables.push(Variable::Const(*z))?;
    }
    Ok(())
}

/// Puts a variable with a number for each place at the end.
fn push_each(variables: &mut Vec<Variable>, numbers: Vec<i32>) -> Result<(), AllocError>
    ensures numbers { OnOk result (Adds (number_there numbers.items) variables.old.items variables.new.items) }
    ensures whole { StayWhole (length numbers.items) variables.old.items variables.new.items }
{
    variables.push(Variable::Column(numbers))?;
    Ok(())
}

/// The number of a variable at a place, or 0 where there is no such variable.
fn number_at(variables: &[Variable], k: usize, place: usize) -> i32
    requires { All (TellsAt place) variables.now }
    ensures { result ≡ slice_index_or (environment variables.now place) k (pos 0) }
{
    match variables.get(k) {
        Some(variable) => variable.at(place),
        None => 0,
    }
}

/// Makes a list what an index stands for at each of so many places.
fn list_index(
    variables: &[Variable],
    places: usize,
    index: Index,
    numbers: &mut Vec<i64>,
) -> Result<(), AllocError>
    requires { All (HasPlaces places) variables.now }
    ensures { OnOk result (numbers.new.items ≡ by_place places (λ k. number_at (environment variables.now k) index)) }
{
    match index {
        Index::Const(z) => {
            fill_list(places, z as i64, numbers)?;
            Ok(())
        }
        Index::Var(k) => match variables.get(k) {
            Some(variable) => {
                variable.list(places, numbers)?;
                Ok(())
            }
            None => {
                fill_list(places, 0, numbers)?;
                Ok(())
            }
        },
    }
}

/// The number that a variable has at every place, if it is kept once.
fn constant_at(variables: &[Variable], k: usize) -> Option<i32>
    ensures { IfSome result (λ z. (place : ℕ) → slice_index_or (environment variables.now place) k (pos 0) ≡ z) }
{
    match variables.get(k) {
        Some(Variable::Const(z)) => Some(*z),
        _ => None,
    }
}

/// The bounds of a variable that turns as the coordinates of an axis, by its index.
pub(crate) fn bounds_at(variables: &[Variable], index: Index) -> Option<Interval> {
    match index {
        Index::Const(_) => None,
        Index::Var(k) => match variables.get(k) {
            Some(Variable::Axis(lo, hi, _)) => Some(Interval { lo: *lo, hi: *hi }),
            _ => None,
        },
    }
}

/// Whether an index stands for a variable that turns as the coordinates of an axis.
pub(crate) fn turns_as(variables: &[Variable], index: Index, lo: i32, hi: i32, every: u64) -> bool
    ensures { IsTrue result → (place : ℕ) → number_at (environment variables.now place) index ≡ turn lo hi every place }
{
    match index {
        Index::Const(_) => false,
        Index::Var(k) => match variables.get(k) {
            Some(variable) => variable.turns_as(lo, hi, every),
            None => false,
        },
    }
}

/// Whether the indexes turn as the coordinates of axes, which have `total` points.
fn turn_as(variables: &[Variable], indexes: &[Index], axes: &[Axis], total: u64) -> bool
    requires ordered { AreOrdered axes.now }
    requires counted { total ≡ count axes.now }
    ensures { IsTrue result → (k : ℕ) → numbers_at (environment variables.now k) indexes.now ≡ turns axes.now k }
{
    match axes {
        [] => indexes.is_empty(),
        [axis, rest @ ..] => match indexes {
            [] => false,
            [index, further @ ..] => {
                let each = total / axis.size();
                if !turns_as(variables, *index, axis.lo, axis.hi, each) {
                    return false;
                }
                turn_as(variables, further, rest, each)
            }
        },
    }
}

impl Frame {
    /// So many places, at most 4,096, without variables.
    pub fn of_places(alloc: Global, places: usize) -> Result<Frame, AllocError>
        requires { places ≤ max_tile }
        ensures { IfOk result (λ f. f ≡ replicate places []) }
    {
        let variables = Vec::new(alloc);
        Ok(Frame { places, variables })
    }

    /// The coordinates of a box of at most 4,096 points, in row-major order.
    pub fn of_box(alloc: Global, area: &Domain) -> Result<Frame, AllocError>
        requires { count area.now ≤ max_tile }
        ensures { IfOk result (λ f. f ≡ points area.now) }
    {
        Frame::of_box_under(alloc, &[], area)
    }

    /// The same numbers at every place, then the coordinates of a box of at most 4,096 points, in row-major order.
    pub fn of_box_under(alloc: Global, numbers: &[i32], area: &Domain) -> Result<Frame, AllocError>
        requires { count area.now ≤ max_tile }
        ensures { IfOk result (λ f. f ≡ map (λ p. numbers.now ++ p) (points area.now)) }
    {
        let places = area.points();
        let mut variables = Vec::new(alloc);
        push_numbers(&mut variables, numbers)?;
        push_axes(&mut variables, area.axes(), places)?;
        Ok(Frame {
            places: places as usize,
            variables,
        })
    }

    /// The coordinates of the box of a tile, in row-major order.
    pub fn of_tile(alloc: Global, domain: &Domain, tile: u64) -> Result<Frame, AllocError>
        requires { tile < length (tile_boxes domain.now) }
        ensures { IfOk result (λ f. f ≡ points (tile_box domain.now tile)) }
    {
        let mut variables = Vec::new(alloc);
        let behind = push_tile(&mut variables, domain.axes(), domain.tile_edge(), tile)?;
        Ok(Frame {
            places: behind.points as usize,
            variables,
        })
    }

    /// How many places there are.
    pub fn places(&self) -> usize
        ensures value { result ≡ length self.now }
        ensures few { result ≤ max_tile }
    {
        self.places
    }

    /// How many variables there are.
    pub fn depth(&self) -> usize
        ensures { All (λ (e : List ℤ). length e ≡ result) self.now }
    {
        self.variables.len()
    }

    /// The number of a variable at a place, or 0 where there is no such variable.
    pub fn number(&self, k: usize, place: usize) -> i32
        requires { place < length self.now }
        ensures { result ≡ slice_index_or (slice_index_or self.now place []) k (pos 0) }
    {
        number_at(&self.variables, k, place)
    }

    /// Makes a list what an index stands for at each place.
    pub(crate) fn list(&self, index: Index, numbers: &mut Vec<i64>) -> Result<(), AllocError>
        ensures { OnOk result (numbers.new.items ≡ map (λ e. number_at e index) self.now) }
    {
        list_index(&self.variables, self.places, index, numbers)?;
        Ok(())
    }

    /// The number that a variable has at every place, if it is kept once.
    pub(crate) fn constant(&self, k: usize) -> Option<i32>
        ensures { IfSome result (λ z. map (λ e. slice_index_or e k (pos 0)) self.now ≡ replicate (length self.now) z) }
    {
        constant_at(&self.variables, k)
    }

    /// The number of the tile of a domain over whose box the indexes go, point for point, if there is one.
    pub(crate) fn tile_under(&self, indexes: &[Index], domain: &Domain) -> Option<u64>
        ensures { IfSome result (GoesOver domain.now indexes.now self.now) }
    {
        let edge = domain.tile_edge();
        match tile_covered(&self.variables, indexes, domain.axes(), edge) {
            None => None,
            Some(tile) => {
                if tile.points != self.places as u64 {
                    return None;
                }
                Some(tile.number)
            }
        }
    }

    /// Whether the indexes go over the points of a box, in row-major order.
    pub(crate) fn goes_over(&self, indexes: &[Index], area: &Domain) -> bool
        ensures { IsTrue result → map (λ e. numbers_at e indexes.now) self.now ≡ points area.now }
    {
        let total = area.points();
        if self.places as u64 != total {
            return false;
        }
        turn_as(&self.variables, indexes, area.axes(), total)
    }

    /// Adds variables that have these numbers at every place.
    pub fn push_numbers(&mut self, numbers: &[i32]) -> Result<(), AllocError>
        ensures { OnOk result (self.new ≡ under self.old numbers.now) }
    {
        push_numbers(&mut self.variables, numbers)?;
        Ok(())
    }

    /// Adds a variable with a number for each place.
    pub fn push_column(&mut self, numbers: Vec<i32>) -> Result<(), AllocError>
        requires { length numbers.items ≡ length self.old }
        ensures { OnOk result (self.new ≡ extended self.old numbers.items) }
    {
        push_each(&mut self.variables, numbers)?;
        Ok(())
    }

    /// Leaves the first variables alone.
    pub fn truncate(&mut self, depth: usize)
        ensures { self.new ≡ map (take depth) self.old }
    {
        self.variables.truncate(depth);
    }

    /// The bounds of a variable that turns as the coordinates of an axis.
    pub(crate) fn bounds(&self, k: usize) -> Option<Interval> {
        bounds_at(&self.variables, Index::Var(k))
    }
}
