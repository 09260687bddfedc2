// Errors of keys and signatures.
use picky_asn1_oid::ObjectIdentifier;
use picky_der::DerError;
use std::alloc::{AllocError, AllocFailed};
use thiserror::Error;

/// Why a signature isn't made, or isn't accepted.
#[derive(Debug, Drop, Error)]
pub enum SignatureError {
    /// The name has no signature algorithm.
    #[error("unsupported signature algorithm")]
    UnsupportedAlgorithm,
    /// The signature relation doesn't hold.
    #[error("bad signature")]
    BadSignature,
    /// The pair, or one of its numbers, isn't of its algorithm's size; both sizes in bytes.
    #[error("bad ECDSA signature size: expected {expected} bytes, got {got}")]
    Ec { expected: usize, got: usize },
    /// The provider gives no signature.
    #[error("no signature")]
    NoSignature,
    /// Memory ran out.
    #[error("out of memory")]
    OutOfMemory,
}

impl From<AllocError> for SignatureError {
    ghost use Rattle.std.specs.Prelude.{◌≡◌};
    ghost use Rattle.picky_key_der.specs.declared.error.SignatureError.TheVariants.{OutOfMemory};

    ghost from_gives = { λ _ e. e ≡ OutOfMemory };

    fn from(_error: AllocError) -> SignatureError {
        SignatureError::OutOfMemory
    }
}

impl<T: Drop> From<AllocFailed<T>> for SignatureError {
    ghost use Rattle.std.specs.Prelude.{◌≡◌};
    ghost use Rattle.picky_key_der.specs.declared.error.SignatureError.TheVariants.{OutOfMemory};

    ghost from_gives = { λ _ e. e ≡ OutOfMemory };

    fn from(_error: AllocFailed<T>) -> SignatureError {
        SignatureError::OutOfMemory
    }
}

/// Why a key isn't read, made or written.
#[derive(Debug, Drop, Error)]
pub enum KeyError {
    /// The bytes aren't the DER of a key, or a number isn't in its shortest spelling.
    #[error("bad DER: {0}")]
    Der(DerError),
    /// The algorithm isn't one of RSA, ECDSA and ECDH, Ed25519 and X25519, or a curve can't serve; its identifier.
    #[error("unsupported key algorithm")]
    UnsupportedAlgorithm { oid: ObjectIdentifier },
    /// The bytes of the key aren't of its algorithm's size; both sizes in bytes.
    #[error("bad key size: expected {expected} bytes, got {got}")]
    BadSize { expected: usize, got: usize },
    /// The point isn't 04 and two, or 02 or 03 and one, sizes of the curve's field.
    #[error("bad point")]
    BadPoint,
    /// The keys agree on nothing.
    #[error("no agreement")]
    NoAgreement,
    /// The keys aren't of one family.
    #[error("wrong key family")]
    WrongFamily,
    /// Memory ran out.
    #[error("out of memory")]
    OutOfMemory,
}

impl From<AllocError> for KeyError {
    ghost use Rattle.std.specs.Prelude.{◌≡◌};
    ghost use Rattle.picky_key_der.specs.declared.error.KeyError.TheVariants.{OutOfMemory};

    ghost from_gives = { λ _ e. e ≡ OutOfMemory };

    fn from(_error: AllocError) -> KeyError {
        KeyError::OutOfMemory
    }
}

impl<T: Drop> From<AllocFailed<T>> for KeyError {
    ghost use Rattle.std.specs.Prelude.{◌≡◌};
    ghost use Rattle.picky_key_der.specs.declared.error.KeyError.TheVariants.{OutOfMemory};

    ghost from_gives = { λ _ e. e ≡ OutOfMemory };

    fn from(_error: AllocFailed<T>) -> KeyError {
        KeyError::OutOfMemory
    }
}

impl From<DerError> for KeyError {
    ghost use Rattle.std.specs.Prelude.{◌≡◌};
    ghost use Rattle.picky_key_der.specs.Errors.{refused_as};

    ghost from_gives = { λ d e. e ≡ refused_as d };

    fn from(error: DerError) -> KeyError {
        match error {
            DerError::OutOfMemory => KeyError::OutOfMemory,
            error => KeyError::Der(error),
        }
    }
}
