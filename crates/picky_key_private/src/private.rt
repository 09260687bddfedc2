// Private keys.
ghost use Rattle.std.specs.Prelude.{IsTrue};
ghost use Rattle.picky_key_private.specs.Parts.{part_fits};

use crate::part::{copy_part, same_part};
use crate::reading::{Said, read_said};
use picky_contract::Bytes;
use picky_key_der::{KeyError, PrivateKeyKind, PublicKey};
use std::alloc::{AllocError, Global};

/// A private key: its PKCS #8 bytes, what they say it is, and its public part where they have one. The part is of the
/// kind, and an RSA key has one.
#[derive(Debug, Drop)]
pub struct PrivateKey {
    bytes: Bytes,
    kind: PrivateKeyKind,
    public_part: Option<PublicKey>,
    pub ghost fits: { IsTrue (part_fits kind public_part) },
}

impl PrivateKey {
    ghost use Rattle.std.specs.Prelude.{◌≡◌, ◌↔◌, IsTrue, IfOk, option_copied};
    ghost use Rattle.picky_contract.specs.Refusals.{Meets, OkOrMemory};
    ghost use Rattle.picky_key_private.specs.declared.private.PrivateKey.{PrivateKey as Key};
    ghost use Rattle.picky_key_private.specs.Grammar.{IsPrivateKey};
    ghost use Rattle.picky_key_der.specs.Errors.{key_fault};
    ghost use Rattle.picky_key_private.specs.Private.{private_table};
    ghost use Rattle.picky_key_private.specs.Same.{same_private};

    // The key with a copy of the bytes.
    #[tactic(auto, unfolding(crate::specs::Private::private_table), using(crate::specs::laws::Reading::said_fits))]
    fn read(alloc: Global, bytes: &[u8]) -> Result<PrivateKey, KeyError>
        ensures { Meets (λ k. k) key_fault result (private_table bytes.now) }
    {
        let kept = Bytes::new(Vec::from_slice(alloc, bytes)?);
        let Said { kind, public_part } = read_said(alloc, bytes)?;
        Ok(PrivateKey {
            bytes: kept,
            kind,
            public_part,
        })
    }

    /// The key that the bytes spell, a PrivateKeyInfo and nothing after it (RFC 5958 section 2); it keeps a copy of them.
    ///
    /// The first of: `Der` where the outer value isn't one: version 0 or 1, algorithm, OCTET STRING, and attributes and a
    /// public key, which may be absent; `UnsupportedAlgorithm`; `Der` where the parameters, then what the octets hold, aren't
    /// of the algorithm, or then the bits of the public key of a key that isn't RSA aren't whole bytes; `BadSize` where an
    /// Edwards key, or then its public key, hasn't 32 bytes; `BadPoint` where the point beside the number, or then the one
    /// after the attributes, isn't one of a known curve.
    pub fn from_pkcs8(alloc: Global, bytes: &[u8]) -> Result<PrivateKey, KeyError>
        ensures found { IfOk result (λ k. IsPrivateKey bytes.now k) }
        ensures every { (key : Key) → IsPrivateKey bytes.now key → OkOrMemory (λ k. k) key_fault result key }
        ensures first { Meets (λ k. k) key_fault result (private_table bytes.now) }
    {
        PrivateKey::read(alloc, bytes)
    }

    /// The PKCS #8 bytes of the key, as they were read; without taking memory.
    pub fn to_pkcs8(&self) -> &[u8]
        ensures { result.now ≡ self.now.bytes }
    {
        self.bytes.as_slice()
    }

    /// What the key is, without taking memory.
    pub fn kind(&self) -> &PrivateKeyKind
        ensures { result.now ≡ self.now.kind }
    {
        &self.kind
    }

    /// The public key that stands in the bytes, if one does; without taking memory.
    ///
    /// An RSA key has one, its modulus and exponent. Of another key it is the one beside its number, or else the one after
    /// its attributes.
    pub fn public_part(&self) -> Option<&PublicKey>
        ensures { option_copied result ≡ self.now.public_part }
    {
        self.public_part.as_ref()
    }

    // Whether both have the same bytes, kind and public part.
    fn has_parts_of(&self, other: &PrivateKey) -> bool
        ensures { result ≡ same_private self.now other.now }
    {
        self.bytes.same(&other.bytes)
            && self.kind.same(&other.kind)
            && same_part(&self.public_part, &other.public_part)
    }

    /// Whether both are one key: the same bytes, kind and public part.
    #[tactic(auto, using(crate::specs::laws::Same::same_private_decides))]
    pub fn same(&self, other: &PrivateKey) -> bool
        ensures means { IsTrue result ↔ (self.now ≡ other.now) }
        ensures value { result ≡ same_private self.now other.now }
    {
        self.has_parts_of(other)
    }

    /// A copy, in memory of its own.
    pub fn clone(&self, alloc: Global) -> Result<PrivateKey, AllocError>
        ensures { IfOk result (λ copy. copy ≡ self.now) }
    {
        let bytes = self.bytes.clone(alloc)?;
        let kind = self.kind.clone(alloc)?;
        match copy_part(alloc, &self.public_part) {
            Ok(public_part) => Ok(PrivateKey {
                bytes,
                kind,
                public_part,
            }),
            Err(error) => {
                drop(kind);
                Err(error)
            }
        }
    }
}
