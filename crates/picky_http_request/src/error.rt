// Errors of requests.
ghost use Rattle.std.specs.Prelude.{◌≡◌, IfOk};
ghost use Rattle.picky_http_request.specs.Answers.{request_fault};

use std::alloc::{AllocError, AllocFailed, Global};
use thiserror::Error;

/// Why a request has no answer.
#[derive(Debug, Drop, Error)]
pub enum HttpRequestError {
    /// A value of the header that was asked for, whose name is kept as it was asked, has a byte that is
    /// neither a tab nor visible ASCII nor a space.
    #[error("couldn't convert the value of header {key} to a text")]
    HeaderValueToStr { key: String },
    /// There is no request.
    #[error("unexpected error: {reason}")]
    Unexpected { reason: &'static str },
    #[error("out of memory")]
    OutOfMemory,
}

impl HttpRequestError {
    /// A copy, in memory of its own.
    pub fn clone(&self, alloc: Global) -> Result<HttpRequestError, AllocError>
        ensures { IfOk result (λ copy. request_fault copy ≡ request_fault self.now) }
    {
        match self {
            HttpRequestError::HeaderValueToStr { key } => {
                let key = String::from_str(alloc, key)?;
                Ok(HttpRequestError::HeaderValueToStr { key })
            }
            HttpRequestError::Unexpected { reason } => Ok(HttpRequestError::Unexpected { reason }),
            HttpRequestError::OutOfMemory => Ok(HttpRequestError::OutOfMemory),
        }
    }
}

impl From<AllocError> for HttpRequestError {
    ghost use Rattle.picky_http_request.specs.declared.error.HttpRequestError.TheVariants.{OutOfMemory};

    ghost from_gives = { λ _ e. e ≡ OutOfMemory };

    fn from(_error: AllocError) -> HttpRequestError {
        HttpRequestError::OutOfMemory
    }
}

impl<T: Drop> From<AllocFailed<T>> for HttpRequestError {
    ghost use Rattle.picky_http_request.specs.declared.error.HttpRequestError.TheVariants.{OutOfMemory};

    ghost from_gives = { λ _ e. e ≡ OutOfMemory };

    fn from(_error: AllocFailed<T>) -> HttpRequestError {
        HttpRequestError::OutOfMemory
    }
}

/// Why bytes aren't read as a request head.
#[derive(Debug, Drop, Error)]
pub enum HeadFault {
    /// No prefix of the bytes is a request head with at most 100 header lines and a target in UTF-8.
    #[error("bad request head")]
    BadHead,
    #[error("out of memory")]
    OutOfMemory,
}

impl From<AllocError> for HeadFault {
    ghost use Rattle.picky_http_request.specs.declared.error.HeadFault.TheVariants.{OutOfMemory};

    ghost from_gives = { λ _ e. e ≡ OutOfMemory };

    fn from(_error: AllocError) -> HeadFault {
        HeadFault::OutOfMemory
    }
}
