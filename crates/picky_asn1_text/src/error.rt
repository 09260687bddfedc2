// Why bytes or a text aren't taken.
ghost use Rattle.std.specs.Prelude.{◌≡◌};
ghost use Rattle.picky_asn1_text.specs.declared.error.CharSetError.TheVariants.{OutOfMemory};

use std::alloc::{AllocError, AllocFailed};

/// Why bytes or a text aren't a string of a character set.
#[derive(Debug, Drop, PartialEq, Eq, thiserror::Error)]
pub enum CharSetError {
    /// The bytes aren't in the set.
    #[error("invalid charset")]
    Invalid,
    /// Memory was wanting.
    #[error("out of memory")]
    OutOfMemory,
}

impl From<AllocError> for CharSetError {
    ghost from_gives = { λ _ e. e ≡ OutOfMemory };

    fn from(_error: AllocError) -> CharSetError {
        CharSetError::OutOfMemory
    }
}

impl<T: Drop> From<AllocFailed<T>> for CharSetError {
    ghost from_gives = { λ _ e. e ≡ OutOfMemory };

    fn from(_error: AllocFailed<T>) -> CharSetError {
        CharSetError::OutOfMemory
    }
}
