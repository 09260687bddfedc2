// Errors of tokens.
ghost use Rattle.std.specs.Prelude.{◌≡◌};

use crate::date::JwtDate;
use picky_key::{ProviderFault, SignatureError};
use std::alloc::{AllocError, AllocFailed};
use thiserror::Error;

/// Why a signed token isn't accepted.
#[derive(Debug, Drop, Error)]
pub enum JwsError {
    /// The header isn't JSON, or its tree tells no header.
    #[error("JSON error")]
    Json,
    /// The signature isn't accepted.
    #[error("signature error: {source}")]
    Signature { source: SignatureError },
    /// The text, kept as `input`, isn't cut into a token's parts.
    #[error("input isn't a valid token string: {input}")]
    InvalidEncoding { input: String },
    /// A part isn't strict unpadded base64url.
    #[error("couldn't decode base64")]
    Base64Decoding,
    /// A number of the header is held as a float.
    #[error("a number of the header is a float")]
    Float,
    #[error("out of memory")]
    OutOfMemory,
}

/// Why a token or its claims aren't accepted.
#[derive(Debug, Drop, Error)]
pub enum JwtError {
    /// The signed token isn't accepted.
    #[error("JWS error: {source}")]
    Jws { source: JwsError },
    /// The payload isn't JSON, or its tree tells no value of the type of the claims.
    #[error("JSON error")]
    Json,
    /// A date of the claims isn't an integer in `i64`.
    #[error("registered claim {claim} has a bad type")]
    InvalidRegisteredClaimType { claim: &'static str },
    /// A claim that the validator requires isn't there.
    #[error("required claim {claim} is missing")]
    RequiredClaimMissing { claim: &'static str },
    /// `nbf`, in seconds, less the leeway is after the date.
    #[error("token not valid before {not_before}, now is {now}")]
    NotYetValid { not_before: i64, now: JwtDate },
    /// `exp`, in seconds, plus the leeway isn't after the date.
    #[error("token expired at {not_after}, now is {now}")]
    Expired { not_after: i64, now: JwtDate },
    /// A claim is required, and there is no date to compare it with.
    #[error("invalid validator: {description}")]
    InvalidValidator { description: &'static str },
    /// A number of the claims is held as a float.
    #[error("a number of the claims is a float")]
    Float,
    #[error("out of memory")]
    OutOfMemory,
}

impl From<AllocError> for JwsError {
    ghost use Rattle.picky_jose.specs.declared.error.JwsError.TheVariants.{OutOfMemory};

    ghost from_gives = { λ _ e. e ≡ OutOfMemory };

    fn from(_error: AllocError) -> JwsError {
        JwsError::OutOfMemory
    }
}

impl<T: Drop> From<AllocFailed<T>> for JwsError {
    ghost use Rattle.picky_jose.specs.declared.error.JwsError.TheVariants.{OutOfMemory};

    ghost from_gives = { λ _ e. e ≡ OutOfMemory };

    fn from(_error: AllocFailed<T>) -> JwsError {
        JwsError::OutOfMemory
    }
}

impl From<ProviderFault> for JwsError {
    ghost use Rattle.picky_jose.specs.declared.error.JwsError.TheVariants.{OutOfMemory};

    ghost from_gives = { λ _ e. e ≡ OutOfMemory };

    fn from(_fault: ProviderFault) -> JwsError {
        JwsError::OutOfMemory
    }
}

impl From<SignatureError> for JwsError {
    ghost use Rattle.picky_jose.specs.Faults.{jws_error_of};

    ghost from_gives = { λ source e. e ≡ jws_error_of source };

    fn from(source: SignatureError) -> JwsError {
        match source {
            SignatureError::OutOfMemory => JwsError::OutOfMemory,
            source => JwsError::Signature { source },
        }
    }
}

impl From<AllocError> for JwtError {
    ghost use Rattle.picky_jose.specs.declared.error.JwtError.TheVariants.{OutOfMemory};

    ghost from_gives = { λ _ e. e ≡ OutOfMemory };

    fn from(_error: AllocError) -> JwtError {
        JwtError::OutOfMemory
    }
}

impl From<JwsError> for JwtError {
    ghost use Rattle.picky_jose.specs.Faults.{jwt_error_of};

    ghost from_gives = { λ source e. e ≡ jwt_error_of source };

    fn from(source: JwsError) -> JwtError {
        match source {
            JwsError::OutOfMemory => JwtError::OutOfMemory,
            source => JwtError::Jws { source },
        }
    }
}
