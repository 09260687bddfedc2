// Faults of reading and writing.
use picky_asn1_tag::Tag;
use std::alloc::{AllocError, AllocFailed};

/// Why bytes are no value, or a value has no bytes. Reading answers the fault at the first bad place; of one
/// value the causes are looked at in this order.
#[derive(Debug, Drop, PartialEq, Eq, thiserror::Error)]
pub enum DerError {
    /// The tag, a length byte or a byte of the contents is missing.
    #[error("the bytes end inside a value")]
    Truncated,
    /// Another tag stands there.
    #[error("expected the tag {expected}, got {got}")]
    WrongTag {
        /// The tag that was asked for.
        expected: Tag,
        /// The tag that stands there.
        got: Tag,
    },
    /// The length is 80 or FF, has more than eight length bytes, or isn't in its fewest bytes.
    #[error("a length that isn't definite or isn't the shortest")]
    BadLength,
    /// Reading: the tag has several bytes, or the contents are outside the type. Writing: the value has no encoding.
    #[error("the value is outside its type")]
    BadValue,
    /// Bytes follow the value or the last field.
    #[error("bytes after the value")]
    TrailingBytes,
    /// More than 256 readers are nested.
    #[error("values are nested too deep")]
    TooDeep,
    /// Memory ran out.
    #[error("out of memory")]
    OutOfMemory,
}

impl From<AllocError> for DerError {
    ghost use Rattle.std.specs.Prelude.{◌≡◌};
    ghost use Rattle.picky_der.specs.declared.fault.DerError.TheVariants.{OutOfMemory};

    ghost from_gives = { λ _ fault. fault ≡ OutOfMemory };

    fn from(_error: AllocError) -> DerError {
        DerError::OutOfMemory
    }
}

impl<T: Drop> From<AllocFailed<T>> for DerError {
    ghost use Rattle.std.specs.Prelude.{◌≡◌};
    ghost use Rattle.picky_der.specs.declared.fault.DerError.TheVariants.{OutOfMemory};

    ghost from_gives = { λ _ fault. fault ≡ OutOfMemory };

    fn from(_error: AllocFailed<T>) -> DerError {
        DerError::OutOfMemory
    }
}
