//! The operators of the language: one set of words from the syntax tree to the value of a cell.

/// An operation on one value.
#[derive(Clone, Copy, Debug, PartialEq, Eq)]
pub enum UnaryOperator {
    /// `-e`
    Negate,
    /// `+e`
    Plus,
    /// `not e`
    Not,
    /// `abs(e)`
    Absolute,
}

/// An operation on two values. All but `Bit` stand between their operands.
#[derive(Clone, Copy, Debug, PartialEq, Eq)]
pub enum BinaryOperator {
    Multiply,
    Divide,
    Add,
    Subtract,
    Less,
    LessEqual,
    Greater,
    GreaterEqual,
    Equal,
    NotEqual,
    And,
    Or,
    Xor,
    /// `bit(l, r)`: the bit of the left operand whose number is the right one.
    Bit,
}

/// What a condenser or a reduction makes of values.
#[derive(Clone, Copy, Debug, PartialEq, Eq)]
pub enum Aggregate {
    /// The exact sum, tested.
    Sum,
    /// The exact product, tested.
    Product,
    Greatest,
    Least,
    /// Whether all are true.
    Every,
    /// Whether some one is true.
    Any,
    /// How many are true.
    Count,
    /// The floor of the exact sum over the number of points.
    Average,
}
