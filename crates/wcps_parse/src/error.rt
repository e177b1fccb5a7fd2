//! Why tokens are no query.

ghost use Rattle.std.specs.Prelude.{◌≡◌};
ghost use Rattle.wcps_parse.specs.Refusals.{refusal_of};
ghost use Rattle.wcps_parse.specs.declared.error.ParseError.TheVariants.{NoMemory};

use arr_core::Refusal;
use std::alloc::{AllocError, AllocFailed};

/// Why tokens were not parsed.
#[derive(Debug, Drop, thiserror::Error)]
pub enum ParseError {
    /// The tokens spell no query.
    #[error("the tokens spell no query")]
    BadSyntax,
    /// Too many brackets are open at once, too many forms stand in the query, or its tree is too high.
    #[error("the query is too deep")]
    TooDeep,
    /// Memory ran out. It says nothing of the tokens.
    #[error("out of memory")]
    NoMemory,
}

impl ParseError {
    /// The refusal that a reply gives for it.
    pub fn refusal(&self) -> Refusal
        ensures { result ≡ refusal_of self.now }
    {
        match self {
            ParseError::BadSyntax => Refusal::BadSyntax,
            ParseError::TooDeep => Refusal::TooDeep,
            ParseError::NoMemory => Refusal::NoMemory,
        }
    }
}

impl From<AllocError> for ParseError {
    ghost from_gives = { λ _ e. e ≡ NoMemory };

    fn from(_e: AllocError) -> ParseError {
        ParseError::NoMemory
    }
}

impl<T: Drop> From<AllocFailed<T>> for ParseError {
    ghost from_gives = { λ _ e. e ≡ NoMemory };

    fn from(_e: AllocFailed<T>) -> ParseError {
        ParseError::NoMemory
    }
}
