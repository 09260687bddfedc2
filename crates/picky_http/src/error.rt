// Errors of HTTP signatures.
ghost use Rattle.std.specs.Prelude.{◌≡◌};

use picky_http_request::HttpRequestError;
use picky_key::{ProviderFault, SignatureAlgorithm, SignatureError};
use std::alloc::{AllocError, AllocFailed};
use thiserror::Error;

/// Why an HTTP signature isn't read, made or accepted. Moments are in seconds since 1970-01-01T00:00:00Z.
#[derive(Debug, Drop, Error)]
pub enum HttpSignatureError {
    /// The signature isn't strict base64 of its form.
    #[error("couldn't decode base64")]
    Base64Decoding,
    /// The moment plus the leeway is below `created`.
    #[error("signature not valid before {created}, now is {now}")]
    NotYetValid { created: u64, now: u64 },
    /// The moment less the leeway is above `expires`, which is `not_after`.
    #[error("signature expired at {not_after}, now is {now}")]
    Expired { not_after: u64, now: u64 },
    /// The signature isn't accepted.
    #[error("signature error: {source}")]
    Signature { source: SignatureError },
    /// The request has no answer for a line of the signing string.
    #[error("couldn't generate signing string: {source}")]
    SigningStringGeneration { source: HttpRequestError },
    /// A line of a signing string that was given has no colon, or covers `(created)` or `(expires)` without a number.
    #[error("signing string invalid in line {line}")]
    InvalidSigningString { line: String },
    /// An argument that is needed wasn't set.
    #[error("required builder argument missing: {arg}")]
    MissingBuilderArgument { arg: &'static str },
    /// The builder covers no part of the request.
    #[error("builder covers no headers")]
    BuilderEmptyHeaders,
    /// The builder covers parts, beside a signing string that was given.
    #[error("builder covers headers beside a signing string that was given")]
    BuilderHeadersProvidedWithPreGenerated,
    /// The header text has no such parameter, or a line covers one that isn't there.
    #[error("required parameter is missing: {parameter}")]
    MissingRequiredParameter { parameter: &'static str },
    /// The parameter is no number in `u64`.
    #[error("invalid parameter: {parameter}")]
    InvalidParameter { parameter: &'static str },
    /// The header text names another algorithm than the verifier's, or one that isn't of the key's family.
    #[error("incompatible algorithm: {value:?}")]
    IncompatibleAlgorithm { value: SignatureAlgorithm },
    #[error("out of memory")]
    OutOfMemory,
}

impl From<AllocError> for HttpSignatureError {
    ghost use Rattle.picky_http.specs.declared.error.HttpSignatureError.TheVariants.{OutOfMemory};

    ghost from_gives = { λ _ e. e ≡ OutOfMemory };

    fn from(_error: AllocError) -> HttpSignatureError {
        HttpSignatureError::OutOfMemory
    }
}

impl<T: Drop> From<AllocFailed<T>> for HttpSignatureError {
    ghost use Rattle.picky_http.specs.declared.error.HttpSignatureError.TheVariants.{OutOfMemory};

    ghost from_gives = { λ _ e. e ≡ OutOfMemory };

    fn from(_error: AllocFailed<T>) -> HttpSignatureError {
        HttpSignatureError::OutOfMemory
    }
}

impl From<ProviderFault> for HttpSignatureError {
    ghost use Rattle.picky_http.specs.declared.error.HttpSignatureError.TheVariants.{OutOfMemory};

    ghost from_gives = { λ _ e. e ≡ OutOfMemory };

    fn from(_fault: ProviderFault) -> HttpSignatureError {
        HttpSignatureError::OutOfMemory
    }
}

impl From<SignatureError> for HttpSignatureError {
    ghost use Rattle.picky_http.specs.Faults.{of_signature_error};

    ghost from_gives = { λ source e. e ≡ of_signature_error source };

    fn from(source: SignatureError) -> HttpSignatureError {
        match source {
            SignatureError::OutOfMemory => HttpSignatureError::OutOfMemory,
            source => HttpSignatureError::Signature { source },
        }
    }
}

impl From<HttpRequestError> for HttpSignatureError {
    ghost use Rattle.picky_http.specs.Faults.{of_request};

    ghost from_gives = { λ source e. e ≡ of_request source };

    fn from(source: HttpRequestError) -> HttpSignatureError {
        match source {
            HttpRequestError::OutOfMemory => HttpSignatureError::OutOfMemory,
            source => HttpSignatureError::SigningStringGeneration { source },
        }
    }
}
