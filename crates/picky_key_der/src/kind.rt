// What both keys of a pair share.
ghost use Rattle.std.specs.Prelude.{◌≡◌, ◌↔◌, IsTrue, IfOk};
ghost use Rattle.picky_key_der.specs.Kinds.{kind_of, same_kind};

use crate::{EdAlgorithm, NamedEcCurve, PublicKey, PublicKeyKind};
use std::alloc::{AllocError, Global};

/// What a private key is, which its public key shares: RSA, a curve, or an Edwards algorithm.
#[derive(Debug, Drop, PartialEq, Eq)]
pub enum PrivateKeyKind {
    /// An RSA key (RFC 8017 section 3.2).
    Rsa,
    /// A key on a curve over a prime field (SEC 1).
    Ec {
        /// The curve.
        curve: NamedEcCurve,
    },
    /// A key on an Edwards curve, or of X25519 (RFC 8410).
    Ed {
        /// The algorithm.
        algorithm: EdAlgorithm,
    },
}

impl PrivateKeyKind {
    /// A copy, in memory of its own.
    pub fn clone(&self, alloc: Global) -> Result<PrivateKeyKind, AllocError>
        ensures { IfOk result (λ copy. copy ≡ self.now) }
    {
        match self {
            PrivateKeyKind::Rsa => Ok(PrivateKeyKind::Rsa),
            PrivateKeyKind::Ec { curve } => Ok(PrivateKeyKind::Ec {
                curve: curve.clone(alloc)?,
            }),
            PrivateKeyKind::Ed { algorithm } => Ok(PrivateKeyKind::Ed {
                algorithm: *algorithm,
            }),
        }
    }

    /// Whether both are one kind: two curves without a name are one where their identifiers are.
    pub fn same(&self, other: &PrivateKeyKind) -> bool
        ensures means { IsTrue result ↔ (self.now ≡ other.now) }
        ensures value { result ≡ same_kind self.now other.now }
    {
        match (self, other) {
            (PrivateKeyKind::Rsa, PrivateKeyKind::Rsa) => true,
            (PrivateKeyKind::Ec { curve }, PrivateKeyKind::Ec { curve: other }) => {
                curve.same(other)
            }
            (PrivateKeyKind::Ed { algorithm }, PrivateKeyKind::Ed { algorithm: other }) => {
                algorithm.same(*other)
            }
            _ => false,
        }
    }

    /// Whether the public key is of this kind.
    pub fn is_of(&self, key: &PublicKey) -> bool
        ensures { result ≡ same_kind (kind_of key.now) self.now }
    {
        match (key.kind(), self) {
            (PublicKeyKind::Rsa { .. }, PrivateKeyKind::Rsa) => true,
            (PublicKeyKind::Ec { curve, .. }, PrivateKeyKind::Ec { curve: other }) => {
                curve.same(other)
            }
            (PublicKeyKind::Ed { algorithm, .. }, PrivateKeyKind::Ed { algorithm: other }) => {
                algorithm.same(*other)
            }
            _ => false,
        }
    }
}
