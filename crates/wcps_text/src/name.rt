//! Names that a syntax tree owns.

ghost use Rattle.std.specs.Prelude.{◌≡◌, IfOk, string_bytes};

use std::alloc::{AllocError, Global};
use std::marker::Model;

/// A name of a query, of a variable, an axis, a field or a coverage. A variable's `$` is part of it.
#[derive(Debug, Drop)]
pub struct QueryName {
    text: String,
}

impl Model for QueryName {
    ghost use Rattle.std.specs.Prelude.{List, ℕ, string_bytes};

    ghost Value = { List ℕ };

    ghost view = { λ n. string_bytes n.text };
}

impl QueryName {
    /// A name of its own with these bytes.
    pub fn new(alloc: Global, text: &str) -> Result<QueryName, AllocError>
        ensures { IfOk result (λ n. n ≡ text.now) }
    {
        Ok(QueryName {
            text: String::from_str(alloc, text)?,
        })
    }

    /// The name's text.
    pub fn as_str(&self) -> &str
        ensures { result.now ≡ self.now }
    {
        self.text.as_str()
    }
}
