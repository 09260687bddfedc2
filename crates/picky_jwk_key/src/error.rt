// Errors of JSON Web Keys.
ghost use Rattle.std.specs.Prelude.{◌≡◌, ◌↔◌, IsTrue, None};
ghost use Rattle.picky_jwk_key.specs.Refusals.{fault};

use std::alloc::{AllocError, AllocFailed};
use thiserror::Error;

/// Why a key or a set isn't read, or isn't converted.
#[derive(Debug, Drop, Error)]
pub enum JwkError {
    /// The text tells no key, or no set.
    #[error("JSON error")]
    Json,
    /// A text of the key isn't strict unpadded base64url.
    #[error("couldn't decode base64")]
    Base64Decoding,
    /// Nothing here makes public keys of this algorithm or curve; its name in words.
    #[error("unsupported algorithm: {algorithm}")]
    UnsupportedAlgorithm { algorithm: &'static str },
    /// The point of a public key isn't uncompressed.
    #[error("invalid EC public key: {cause}")]
    InvalidEcPublicKey { cause: &'static str },
    /// A coordinate doesn't fit the field of its curve.
    #[error("invalid EC point coordinates")]
    InvalidEcPointCoordinates,
    /// The bytes that `x` spells aren't a key of the curve.
    #[error("invalid Edwards public key: {cause}")]
    InvalidEdPublicKey { cause: &'static str },
    /// Memory ran out.
    #[error("out of memory")]
    OutOfMemory,
}

impl JwkError {
    /// Whether the error says that memory ran out.
    pub fn is_out_of_memory(&self) -> bool
        ensures { IsTrue result ↔ (fault self.now ≡ None) }
    {
        matches!(self, JwkError::OutOfMemory)
    }
}

impl From<AllocError> for JwkError {
    ghost use Rattle.std.specs.Prelude.{◌≡◌};
    ghost use Rattle.picky_jwk_key.specs.declared.error.JwkError.TheVariants.{OutOfMemory};

    ghost from_gives = { λ _ e. e ≡ OutOfMemory };

    fn from(_error: AllocError) -> JwkError {
        JwkError::OutOfMemory
    }
}

impl<T: Drop> From<AllocFailed<T>> for JwkError {
    ghost use Rattle.std.specs.Prelude.{◌≡◌};
    ghost use Rattle.picky_jwk_key.specs.declared.error.JwkError.TheVariants.{OutOfMemory};

    ghost from_gives = { λ _ e. e ≡ OutOfMemory };

    fn from(_error: AllocFailed<T>) -> JwkError {
        JwkError::OutOfMemory
    }
}
