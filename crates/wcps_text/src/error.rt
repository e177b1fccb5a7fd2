//! Why a text has no tokens.

ghost use Rattle.std.specs.Prelude.{◌≡◌};
ghost use Rattle.wcps_text.specs.Refusals.{refusal_of};
ghost use Rattle.wcps_text.specs.declared.error.LexError.TheVariants.{NoMemory};

use arr_core::Refusal;
use std::alloc::{AllocError, AllocFailed};

/// Why a text was not cut into tokens.
#[derive(Debug, Drop, thiserror::Error)]
pub enum LexError {
    /// Bytes that begin no token, a string without its end, or a name that is too long.
    #[error("no token is written so")]
    BadToken,
    /// A number above 9223372036854775807.
    #[error("the number is too large")]
    NumberTooLarge,
    /// Memory ran out. It says nothing of the text.
    #[error("out of memory")]
    NoMemory,
}

impl LexError {
    /// The refusal that a reply gives for it.
    pub fn refusal(&self) -> Refusal
        ensures { result ≡ refusal_of self.now }
    {
        match self {
            LexError::BadToken => Refusal::BadToken,
            LexError::NumberTooLarge => Refusal::NumberTooLarge,
            LexError::NoMemory => Refusal::NoMemory,
        }
    }
}

impl From<AllocError> for LexError {
    ghost from_gives = { λ _ e. e ≡ NoMemory };

    fn from(_e: AllocError) -> LexError {
        LexError::NoMemory
    }
}

impl<T: Drop> From<AllocFailed<T>> for LexError {
    ghost from_gives = { λ _ e. e ≡ NoMemory };

    fn from(_e: AllocFailed<T>) -> LexError {
        LexError::NoMemory
    }
}
