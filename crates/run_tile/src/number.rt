//! The numbers of the two widths that cells are held in.

ghost use Rattle.std.specs.Prelude.{◌≡◌, ℤ, FitsSigned};
ghost use Rattle.std.specs.Int.{w32};

/// A number that a cell is held as.
pub(crate) trait Number: Copy {
    ghost number: { Self → ℤ };

    ghost HasRoom: { ℤ → Type 0 };

    /// The number in this width.
    fn of(value: i64) -> Self
        requires { HasRoom value }
        ensures { number result ≡ value };
}

impl Number for i64 {
    ghost number = { λ z. z };

    ghost HasRoom = { λ _. Unit };

    #[inline(always)]
    fn of(value: i64) -> i64 {
        value
    }
}

impl Number for i32 {
    ghost number = { λ z. z };

    ghost HasRoom = { λ z. FitsSigned w32 z };

    #[inline(always)]
    fn of(value: i64) -> i32 {
        value as i32
    }
}
