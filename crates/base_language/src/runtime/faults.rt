//! Why a call of this crate or of those above has no answer.
use super::errors::Error;
use crate::grammar::Rule;
use std::alloc::{AllocError, AllocFailed};
use thiserror::Error as DeriveError;

/// Why a call has no answer.
#[derive(Debug, Drop, DeriveError)]
pub enum Fault {
    /// Allocation failure.
    #[error("out of memory")]
    Memory(AllocError),
    /// The text is at fault, as these errors say.
    #[error("grammar error")]
    Grammar(Vec<Error<Rule>>),
}

impl From<AllocError> for Fault {
    ghost use Rattle.std.specs.Prelude.{◌≡◌, alloc_error};
    ghost use Rattle.base_language.specs.declared.runtime.faults.Fault.TheVariants.{Memory};

    ghost from_gives = { λ _ fault. fault ≡ Memory alloc_error };

    fn from(refused: AllocError) -> Fault {
        Fault::Memory(refused)
    }
}

impl<T: Drop> From<AllocFailed<T>> for Fault {
    ghost use Rattle.std.specs.Prelude.{◌≡◌, alloc_error};
    ghost use Rattle.base_language.specs.declared.runtime.faults.Fault.TheVariants.{Memory};

    ghost from_gives = { λ _ fault. fault ≡ Memory alloc_error };

    fn from(refused: AllocFailed<T>) -> Fault {
        Fault::Memory(refused.into())
    }
}
