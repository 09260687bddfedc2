// Why a date isn't read, written or converted.
ghost use Rattle.std.specs.Prelude.{◌≡◌};
ghost use Rattle.picky_asn1_date.specs.declared.error.DateError.TheVariants.{OutOfMemory};

use std::alloc::{AllocError, AllocFailed};

/// Why a date isn't read, written or converted.
#[derive(Debug, Drop, PartialEq, Eq, thiserror::Error)]
pub enum DateError {
    /// The form, or the calendar, doesn't have the year.
    #[error("year out of range")]
    YearOutOfRange,
    /// The text isn't digits and `Z` of the form's length.
    #[error("bad date text")]
    BadDateText,
    /// The parts are out of range, or the day isn't in the month.
    #[error("no such date")]
    NoSuchDate,
    /// Memory was wanting.
    #[error("out of memory")]
    OutOfMemory,
}

impl From<AllocError> for DateError {
    ghost from_gives = { λ _ e. e ≡ OutOfMemory };

    fn from(_error: AllocError) -> DateError {
        DateError::OutOfMemory
    }
}

impl<T: Drop> From<AllocFailed<T>> for DateError {
    ghost from_gives = { λ _ e. e ≡ OutOfMemory };

    fn from(_error: AllocFailed<T>) -> DateError {
        DateError::OutOfMemory
    }
}
