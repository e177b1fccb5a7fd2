//! The pattern of a fold of windows: its body is a cell so far away from a place, and its condition says where that
//! cell lies within bounds.

ghost use Rattle.std.specs.Prelude.{◌≡◌, ◌+◌, ◌*◌, ◌≤◌, [], ◌∷◌, IfSome, IsTrue};
ghost use Rattle.wcps_text.specs.declared.operator.BinaryOperator.TheVariants.{Add};
ghost use Rattle.wcps_text.specs.declared.operator.UnaryOperator.TheVariants.{Negate};
ghost use Rattle.wcps_mean.specs.declared.cell.Outcome.TheVariants.{Value};
ghost use Rattle.plan_ir.specs.declared.body.Index.TheVariants.{Var};
ghost use Rattle.plan_ir.specs.Bodies.{body_view, var, op1, op2};
ghost use Rattle.tile_columns.specs.Windows.{max_levels, Means, moved, low_edge, high_edge, either_edges, some_edges, edges, cell_tree, column_tree, window_tree, IsPattern};

use plan_ir::{Body, Fold, Index, Interval};
use wcps_text::{BinaryOperator, UnaryOperator};

/// Along an axis of windows: the variable of the places, and the bounds outside of which nothing is read.
#[derive(Clone, Copy)]
pub(crate) struct Sight {
    pub level: usize,
    pub bounds: Interval,
}

/// What is found of the body of a fold of windows: the coverage that it reads, by its place among those that are
/// chosen, the field by its place, and both axes.
#[derive(Clone, Copy)]
pub(crate) struct Pattern {
    pub coverage: usize,
    pub field: usize,
    pub rows: Sight,
    pub columns: Sight,
}

/// Edges of windows: bounds along the rows and along the columns.
#[derive(Clone, Copy)]
pub(crate) struct Edges {
    pub row_low: bool,
    pub row_high: bool,
    pub column_low: bool,
    pub column_high: bool,
}

/// How many variables the places around a fold of windows have at most.
const MAX_LEVELS: usize = 1024;

/// Whether a body is a variable.
fn is_variable(body: &Body, level: usize) -> bool
    ensures { IsTrue result → body_view body.now ≡ var level }
{
    match body {
        Body::Var(k) => *k == level,
        _ => false,
    }
}

/// Whether two operands are two variables.
fn are_variables(l: &Body, r: &Body, level: usize, own: usize) -> bool
    ensures { IsTrue result → op2 Add (body_view l.now) (body_view r.now) ≡ op2 Add (var level) (var own) }
{
    if !is_variable(l, level) {
        return false;
    }
    is_variable(r, own)
}

/// Whether a body is the sum of two variables.
fn is_sum(body: &Body, level: usize, own: usize) -> bool
    ensures { IsTrue result → body_view body.now ≡ op2 Add (var level) (var own) }
{
    match body {
        Body::Op2(op, l, r) => match op {
            BinaryOperator::Add => are_variables(l, r, level, own),
            _ => false,
        },
        _ => false,
    }
}

/// Whether a body is a number, below which stands a minus.
fn is_negated(body: &Body, z: i32) -> bool
    ensures { IsTrue result → Means (op1 Negate (body_view body.now)) (λ vars. Value z) }
{
    match body {
        Body::Lit(n) => *n == -(z as i64),
        _ => false,
    }
}

/// Whether a body is a number.
fn is_number(body: &Body, z: i32) -> bool
    ensures { IsTrue result → Means (body_view body.now) (λ vars. Value z) }
{
    match body {
        Body::Lit(n) => *n == z as i64,
        Body::Op1(op, e) => match op {
            UnaryOperator::Negate => is_negated(e, z),
            _ => false,
        },
        _ => false,
    }
}

/// Whether two operands are the sum of two variables, and a number.
fn are_compared(sum: &Body, number: &Body, level: usize, own: usize, z: i32) -> bool
    ensures sum { IsTrue result → Means (body_view sum.now) (moved level own) }
    ensures number { IsTrue result → Means (body_view number.now) (λ vars. Value z) }
{
    if !is_sum(sum, level, own) {
        return false;
    }
    is_number(number, z)
}

/// Whether a body is that the sum of two variables lies not below the lower bound of an axis.
fn is_low_edge(body: &Body, sight: Sight, own: usize) -> bool
    ensures { IsTrue result → Means (body_view body.now) (low_edge sight own) }
{
    match body {
        Body::Op2(op, l, r) => match op {
            BinaryOperator::GreaterEqual => are_compared(l, r, sight.level, own, sight.bounds.lo),
            BinaryOperator::LessEqual => are_compared(r, l, sight.level, own, sight.bounds.lo),
            _ => false,
        },
        _ => false,
    }
}

/// Whether a body is that the sum of two variables lies not above the upper bound of an axis.
fn is_high_edge(body: &Body, sight: Sight, own: usize) -> bool
    ensures { IsTrue result → Means (body_view body.now) (high_edge sight own) }
{
    match body {
        Body::Op2(op, l, r) => match op {
            BinaryOperator::LessEqual => are_compared(l, r, sight.level, own, sight.bounds.hi),
            BinaryOperator::GreaterEqual => are_compared(r, l, sight.level, own, sight.bounds.hi),
            _ => false,
        },
        _ => false,
    }
}

/// No edge of windows.
const NO_EDGES: Edges = Edges {
    row_low: false,
    row_high: false,
    column_low: false,
    column_high: false,
};

/// The edge of windows that a body is.
fn edge_of(body: &Body, pattern: &Pattern, depth: usize) -> Option<Edges>
    requires { depth ≤ max_levels }
    ensures { IfSome result (λ found. Means (body_view body.now) (some_edges pattern.now depth found)) }
{
    if is_low_edge(body, pattern.rows, depth) {
        return Some(Edges {
            row_low: true,
            ..NO_EDGES
        });
    }
    if is_high_edge(body, pattern.rows, depth) {
        return Some(Edges {
            row_high: true,
            ..NO_EDGES
        });
    }
    if is_low_edge(body, pattern.columns, depth + 1) {
        return Some(Edges {
            column_low: true,
            ..NO_EDGES
        });
    }
    if is_high_edge(body, pattern.columns, depth + 1) {
        return Some(Edges {
            column_high: true,
            ..NO_EDGES
        });
    }
    None
}

/// The edges that are among one or the other.
fn either_edges(a: Edges, b: Edges) -> Edges
    ensures { result ≡ either_edges a b }
{
    Edges {
        row_low: a.row_low || b.row_low,
        row_high: a.row_high || b.row_high,
        column_low: a.column_low || b.column_low,
        column_high: a.column_high || b.column_high,
    }
}

/// The edges of windows whose conjunction a body is.
fn edges_of(body: &Body, pattern: &Pattern, depth: usize) -> Option<Edges>
    requires { depth ≤ max_levels }
    ensures { IfSome result (λ found. Means (body_view body.now) (some_edges pattern.now depth found)) }
{
    match body {
        Body::Op2(op, l, r) => match op {
            BinaryOperator::And => {
                let left = edges_of(l, pattern, depth)?;
                let right = edges_of(r, pattern, depth)?;
                Some(either_edges(left, right))
            }
            _ => edge_of(body, pattern, depth),
        },
        _ => None,
    }
}

/// Whether a body is the conjunction of all edges of windows, in any order.
fn are_edges(body: &Body, pattern: &Pattern, depth: usize) -> bool
    requires { depth ≤ max_levels }
    ensures { IsTrue result → Means (body_view body.now) (edges pattern.now depth) }
{
    match edges_of(body, pattern, depth) {
        None => false,
        Some(found) => found.row_low && found.row_high && found.column_low && found.column_high,
    }
}

/// Whether an index is a variable.
fn stands_for(index: Index, level: usize) -> bool
    ensures { IsTrue result → index ≡ Var level }
{
    match index {
        Index::Const(_) => false,
        Index::Var(k) => k == level,
    }
}

/// Whether indexes are two variables, one level after the other.
fn are_next(indexes: &[Index], level: usize) -> bool
    requires { level ≤ 2 * max_levels }
    ensures { IsTrue result → indexes.now ≡ Var level ∷ Var (level + 1) ∷ [] }
{
    match indexes {
        [row, column] => {
            if !stands_for(*row, level) {
                return false;
            }
            stands_for(*column, level + 1)
        }
        _ => false,
    }
}

/// Whether a body is the cell of windows, at two variables.
fn is_cell(body: &Body, pattern: &Pattern, level: usize) -> bool
    requires { level ≤ 2 * max_levels }
    ensures { IsTrue result → body_view body.now ≡ cell_tree pattern.now level }
{
    match body {
        Body::Read {
            coverage,
            field,
            indexes,
        } => {
            if *coverage != pattern.coverage || *field != pattern.field {
                return false;
            }
            are_next(indexes, level)
        }
        _ => false,
    }
}

/// Whether a body is the cell of windows behind the bind of its columns.
fn is_behind_columns(body: &Body, pattern: &Pattern, depth: usize) -> bool
    requires { depth ≤ max_levels }
    ensures { IsTrue result → body_view body.now ≡ column_tree pattern.now depth }
{
    match body {
        Body::Bind {
            position,
            interval,
            body: inner,
        } => {
            if *interval != pattern.columns.bounds {
                return false;
            }
            if !is_sum(position, pattern.columns.level, depth + 1) {
                return false;
            }
            is_cell(inner, pattern, depth + 2)
        }
        _ => false,
    }
}

/// Whether a body is the cell of windows behind the binds of its rows and its columns.
fn is_behind_rows(body: &Body, pattern: &Pattern, depth: usize) -> bool
    requires { depth ≤ max_levels }
    ensures { IsTrue result → body_view body.now ≡ window_tree pattern.now depth }
{
    match body {
        Body::Bind {
            position,
            interval,
            body: inner,
        } => {
            if *interval != pattern.rows.bounds {
                return false;
            }
            if !is_sum(position, pattern.rows.level, depth) {
                return false;
            }
            is_behind_columns(inner, pattern, depth)
        }
        _ => false,
    }
}

/// The variable that a body is, or 0.
fn level_of(body: &Body) -> usize {
    match body {
        Body::Var(k) => *k,
        _ => 0,
    }
}

/// The variable that is the left operand of a body, or 0.
fn left_level(body: &Body) -> usize {
    match body {
        Body::Op2(_, l, _) => level_of(l),
        _ => 0,
    }
}

/// The pattern of windows that a body behind the bind of its rows may have.
fn likely_columns(body: &Body, rows: Sight) -> Option<Pattern> {
    match body {
        Body::Bind {
            position,
            interval,
            body: inner,
        } => {
            let columns = Sight {
                level: left_level(position),
                bounds: *interval,
            };
            likely_cell(inner, rows, columns)
        }
        _ => None,
    }
}

/// The pattern of windows that a body behind both binds may have.
fn likely_cell(body: &Body, rows: Sight, columns: Sight) -> Option<Pattern> {
    match body {
        Body::Read {
            coverage,
            field,
            ..
        } => Some(Pattern {
            coverage: *coverage,
            field: *field,
            rows,
            columns,
        }),
        _ => None,
    }
}

/// The pattern of windows that a body may have.
fn likely_pattern(body: &Body) -> Option<Pattern> {
    match body {
        Body::Bind {
            position,
            interval,
            body: inner,
        } => {
            let rows = Sight {
                level: left_level(position),
                bounds: *interval,
            };
            likely_columns(inner, rows)
        }
        _ => None,
    }
}

/// Whether a fold has a pattern, where the places around it have so many variables.
fn has_pattern(fold: &Fold, pattern: &Pattern, depth: usize) -> bool
    ensures { IsTrue result → IsPattern fold.now depth pattern.now }
{
    if depth > MAX_LEVELS {
        return false;
    }
    if pattern.rows.level >= depth || pattern.columns.level >= depth {
        return false;
    }
    if !is_behind_rows(&fold.body, pattern, depth) {
        return false;
    }
    match &fold.condition {
        None => false,
        Some(condition) => are_edges(condition, pattern, depth),
    }
}

/// The pattern of a fold of windows, where the places around it have so many variables.
pub(crate) fn pattern_of(fold: &Fold, depth: usize) -> Option<Pattern>
    ensures { IfSome result (IsPattern fold.now depth) }
{
    let pattern = likely_pattern(&fold.body)?;
    if !has_pattern(fold, &pattern, depth) {
        return None;
    }
    Some(pattern)
}
