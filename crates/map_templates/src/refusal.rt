//! Why a template is not expanded.

use arr_core::Refusal;
use std::alloc::AllocError;
use thiserror::Error;

/// A refusal of a template.
#[derive(Clone, Copy, PartialEq, Eq, Debug)]
pub enum ExpandRefusal {
    /// No template of that name.
    NoSuchTemplate,
    /// No coverage of the name that a layer gives.
    NoSuchCoverage,
    /// A parameter that is missing, or that does not suit the coverages.
    BadParameter,
}

impl ExpandRefusal {
    ghost use Rattle.std.specs.Prelude.{◌≡◌};
    ghost use Rattle.map_templates.specs.Refusals.{refusal_of};

    /// The refusal that a reply gives for it.
    pub fn refusal(self) -> Refusal
        ensures { result ≡ refusal_of self }
    {
        match self {
            ExpandRefusal::NoSuchTemplate => Refusal::NoSuchTemplate,
            ExpandRefusal::NoSuchCoverage => Refusal::NoSuchCoverage,
            ExpandRefusal::BadParameter => Refusal::BadParameter,
        }
    }
}

/// Why `expand` gave no text.
#[derive(Debug, Drop, Error)]
pub enum ExpandError {
    /// The first refusal of the template.
    #[error("the template is refused")]
    Refused(ExpandRefusal),
    /// No memory was left.
    #[error("out of memory")]
    NoMemory,
}

impl From<AllocError> for ExpandError {
    ghost use Rattle.std.specs.Prelude.{◌≡◌};
    ghost use Rattle.map_templates.specs.declared.refusal.ExpandError.TheVariants.{NoMemory};

    ghost from_gives = { λ _ e. e ≡ NoMemory };

    fn from(_error: AllocError) -> ExpandError {
        ExpandError::NoMemory
    }
}
