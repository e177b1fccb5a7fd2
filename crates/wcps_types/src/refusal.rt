//! Why a query has no type.

use arr_core::Refusal;
use std::alloc::{AllocError, AllocFailed};
use thiserror::Error;

/// A refusal of a query by its names, types or limits.
#[derive(Clone, Copy, PartialEq, Eq, Debug)]
pub enum TypeRefusal {
    /// No such coverage.
    NoSuchCoverage,
    /// A variable that stands for no coverage, which no text spells.
    BadSyntax,
    /// A variable that is neither bound by `for` nor an iterator in scope.
    UnknownName,
    /// A variable that is taken, or a field that is named twice.
    NameTaken,
    /// No field of that name.
    NoSuchField,
    /// No axis of that name.
    NoSuchAxis,
    /// An axis that is named twice in a bracket or in an iterator list.
    AxisTwice,
    /// Operands with axes on unlike domains.
    DomainMismatch,
    /// A trim that is not inside its axis.
    TrimOutside,
    /// A value with axes where a scalar must stand.
    NeedsScalar,
    /// An integer where a Boolean must stand.
    NeedsBoolean,
    /// A Boolean where an integer must stand.
    NeedsInteger,
    /// A value with other than one field.
    NeedsOneField,
    /// A value list of another length than its box has points.
    ListLength,
    /// A value with axes that is returned without `encode`.
    MustEncode,
    /// An interval with its lower bound above its upper one or with a bound beyond 32 bits, or a box with too many axes
    /// or points.
    BadInterval,
    /// More work than is allowed.
    TooMuchWork,
    /// More result cells than are allowed.
    ResultTooLarge,
    /// More combinations of coverages than are allowed.
    TooManyCombinations,
}

impl TypeRefusal {
    ghost use Rattle.std.specs.Prelude.{◌≡◌};
    ghost use Rattle.wcps_types.specs.Refusals.{refusal_of};

    /// The refusal that a reply gives for it.
    pub fn refusal(self) -> Refusal
        ensures { result ≡ refusal_of self }
    {
        match self {
            TypeRefusal::NoSuchCoverage => Refusal::NoSuchCoverage,
            TypeRefusal::BadSyntax => Refusal::BadSyntax,
            TypeRefusal::UnknownName => Refusal::UnknownName,
            TypeRefusal::NameTaken => Refusal::NameTaken,
            TypeRefusal::NoSuchField => Refusal::NoSuchField,
            TypeRefusal::NoSuchAxis => Refusal::NoSuchAxis,
            TypeRefusal::AxisTwice => Refusal::AxisTwice,
            TypeRefusal::DomainMismatch => Refusal::DomainMismatch,
            TypeRefusal::TrimOutside => Refusal::TrimOutside,
            TypeRefusal::NeedsScalar => Refusal::NeedsScalar,
            TypeRefusal::NeedsBoolean => Refusal::NeedsBoolean,
            TypeRefusal::NeedsInteger => Refusal::NeedsInteger,
            TypeRefusal::NeedsOneField => Refusal::NeedsOneField,
            TypeRefusal::ListLength => Refusal::ListLength,
            TypeRefusal::MustEncode => Refusal::MustEncode,
            TypeRefusal::BadInterval => Refusal::BadInterval,
            TypeRefusal::TooMuchWork => Refusal::TooMuchWork,
            TypeRefusal::ResultTooLarge => Refusal::ResultTooLarge,
            TypeRefusal::TooManyCombinations => Refusal::TooManyCombinations,
        }
    }
}

/// Why `check` gave no typed query.
#[derive(Debug, Drop, Error)]
pub enum CheckError {
    /// The first refusal of the query.
    #[error("the query is refused")]
    Refused(TypeRefusal),
    /// No memory was left.
    #[error("out of memory")]
    NoMemory,
}

impl From<AllocError> for CheckError {
    ghost use Rattle.std.specs.Prelude.{◌≡◌};
    ghost use Rattle.wcps_types.specs.declared.refusal.CheckError.TheVariants.{NoMemory};

    ghost from_gives = { λ _ e. e ≡ NoMemory };

    fn from(_error: AllocError) -> CheckError {
        CheckError::NoMemory
    }
}

impl<T: Drop> From<AllocFailed<T>> for CheckError {
    ghost use Rattle.std.specs.Prelude.{◌≡◌};
    ghost use Rattle.wcps_types.specs.declared.refusal.CheckError.TheVariants.{NoMemory};

    ghost from_gives = { λ _ e. e ≡ NoMemory };

    fn from(_error: AllocFailed<T>) -> CheckError {
        CheckError::NoMemory
    }
}
