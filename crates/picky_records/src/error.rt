// Why a records document isn't read.
ghost use Rattle.std.specs.Prelude.{◌≡◌};
ghost use Rattle.picky_records.specs.declared.error.RecordFault.TheVariants.{OutOfMemory};

use std::alloc::{AllocError, AllocFailed};
use thiserror::Error;

/// Why a records document isn't read: the fault of its first bad line, with the line's number from 1.
#[derive(Debug, Drop, Error)]
pub enum RecordFault {
    /// The line is of no form, a key in it can't be read, or it lacks its LF.
    #[error("line {line} is no record")]
    BadLine { line: u64 },
    /// The keys and the algorithm of the line don't belong to one family.
    #[error("line {line} mixes families of keys")]
    Family { line: u64 },
    /// The line contradicts its own key or an earlier line.
    #[error("line {line} contradicts another record")]
    Conflict { line: u64 },
    /// Memory ran out.
    #[error("out of memory")]
    OutOfMemory,
}

impl From<AllocError> for RecordFault {
    ghost from_gives = { λ _ e. e ≡ OutOfMemory };

    fn from(_error: AllocError) -> RecordFault {
        RecordFault::OutOfMemory
    }
}

impl<T: Drop> From<AllocFailed<T>> for RecordFault {
    ghost from_gives = { λ _ e. e ≡ OutOfMemory };

    fn from(_error: AllocFailed<T>) -> RecordFault {
        RecordFault::OutOfMemory
    }
}
