//! Why a declaration gave no commands.

ghost use Rattle.std.specs.Prelude.{◌≡◌};
ghost use Rattle.kg_declare.specs.declared.error.DeclareError.TheVariants.{NoMemory as OutOfMemory};

use kg_message::Response;
use kg_text::NoMemory;
use std::alloc::{AllocError, AllocFailed};

/// Why a declaration gave no commands.
#[derive(Drop)]
pub enum DeclareError {
    /// It is refused, with the reply that a request would have.
    Refused(Response),
    NoMemory,
}

impl From<NoMemory> for DeclareError {
    ghost from_gives = { λ _ e. e ≡ OutOfMemory };

    fn from(_: NoMemory) -> DeclareError {
        DeclareError::NoMemory
    }
}

impl From<AllocError> for DeclareError {
    ghost from_gives = { λ _ e. e ≡ OutOfMemory };

    fn from(_: AllocError) -> DeclareError {
        DeclareError::NoMemory
    }
}

impl<T: Drop> From<AllocFailed<T>> for DeclareError {
    ghost from_gives = { λ _ e. e ≡ OutOfMemory };

    fn from(_: AllocFailed<T>) -> DeclareError {
        DeclareError::NoMemory
    }
}
