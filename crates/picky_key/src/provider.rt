// Who signs, wraps and agrees.
ghost use Rattle.std.specs.Prelude.{◌≡◌, ◌≢◌, ◌↔◌, ℕ, List, Option, Some, IsTrue, IfOk, option_map};
ghost use Rattle.picky_key.specs.declared.provider.ProviderFault.TheVariants.{OutOfMemory};
ghost use Rattle.picky_key_der.specs.declared.public.PublicKey.{PublicKey};
ghost use Rattle.picky_key_private.specs.declared.private.PrivateKey.{PrivateKey};
ghost use Rattle.picky_key.specs.declared.algorithm.SignatureAlgorithm.{SignatureAlgorithm};
ghost use Rattle.picky_key.specs.declared.provider.WrapScheme.{WrapScheme};
ghost use Rattle.picky_key_der.specs.declared.kind.PrivateKeyKind.TheVariants.{Rsa};
ghost use Rattle.picky_key_der.specs.Kinds.{kind_of};
ghost use Rattle.picky_key.specs.Exchange.{exchange_of};
ghost use Rattle.picky_key.specs.Family.{is_of_family};
ghost use Rattle.picky_key.specs.SignatureForms.{is_signature_for};

use crate::SignatureAlgorithm;
use picky_key_der::PublicKey;
use picky_key_private::PrivateKey;
use std::alloc::{AllocError, Global};

/// The one answer of a provider beside its meaning.
#[derive(Clone, Copy, Debug, PartialEq, Eq)]
pub enum ProviderFault {
    OutOfMemory,
}

impl From<AllocError> for ProviderFault {
    ghost from_gives = { λ _ fault. fault ≡ OutOfMemory };

    fn from(_: AllocError) -> ProviderFault {
        ProviderFault::OutOfMemory
    }
}

/// How a content key is wrapped under an RSA key.
#[derive(Clone, Copy, Debug, PartialEq, Eq)]
pub enum WrapScheme {
    /// RSAES-PKCS1-v1_5 (RFC 8017 section 7.2).
    RsaPkcs1v15,
    /// RSAES-OAEP with SHA-1 and MGF1 with SHA-1 (RFC 8017 section 7.1).
    RsaOaep,
    /// RSAES-OAEP with SHA-256 and MGF1 with SHA-256 (RFC 8017 section 7.1).
    RsaOaep256,
}

/// An ephemeral public key and the secret that it shares with its receiver.
#[derive(Debug, Drop)]
pub struct Ephemeral {
    /// The ephemeral public key.
    pub epk: PublicKey,
    /// The shared secret.
    pub secret: Vec<u8>,
}

/// A provider of key operations, known by seven meanings, each of which may be none. Each call answers its meaning, or wants
/// memory.
pub trait KeyProvider {
    /// The message is signed, under the key and with the algorithm, by the signature.
    ghost signs: { Self → PublicKey → SignatureAlgorithm → List ℕ → List ℕ → Type 0 };

    /// The public key of a private key.
    ghost public_of: { Self → PrivateKey → Option PublicKey };

    /// The content key that these bytes wrap under a private key, by a scheme.
    ghost unwrap: { Self → PrivateKey → WrapScheme → List ℕ → Option (List ℕ) };

    /// The secret that a private key shares with a peer.
    ghost agree: { Self → PrivateKey → PublicKey → Option (List ℕ) };

    /// The signature that signing a message gives.
    ghost sign_of: { Self → PrivateKey → SignatureAlgorithm → List ℕ → Option (List ℕ) };

    /// The bytes that wrapping a content key gives, by a scheme and a seed.
    ghost wrap_of: { Self → PublicKey → WrapScheme → List ℕ → List ℕ → Option (List ℕ) };

    /// The ephemeral key for a receiver, by a seed, and the secret that they share.
    ghost ephemeral_of: { Self → PublicKey → List ℕ → Option (PublicKey × List ℕ) };

    /// Whether the message is signed, under the key and with the algorithm, by the signature.
    fn verify(
        &self,
        alloc: Global,
        key: &PublicKey,
        algorithm: SignatureAlgorithm,
        message: &[u8],
        signature: &[u8],
    ) -> Result<bool, ProviderFault>
        ensures { IfOk result (λ holds. IsTrue holds ↔ signs self.now key.now algorithm message.now signature.now) };

    /// The signature of the message, if there is one: the bytes of RSASSA-PKCS1-v1_5 or Ed25519, or the DER of an ECDSA pair.
    fn sign(
        &self,
        alloc: Global,
        key: &PrivateKey,
        algorithm: SignatureAlgorithm,
        message: &[u8],
    ) -> Result<Option<Vec<u8>>, ProviderFault>
        ensures { IfOk result (λ r. option_map (λ v. v.items) r ≡ sign_of self.now key.now algorithm message.now) };

    /// The public key of the private key, if it is known.
    fn public_key_of(
        &self,
        alloc: Global,
        key: &PrivateKey,
    ) -> Result<Option<PublicKey>, ProviderFault>
        ensures { IfOk result (λ r. r ≡ public_of self.now key.now) };

    /// The content key that the bytes wrap, if they wrap one.
    fn unwrap_key(
        &self,
        alloc: Global,
        key: &PrivateKey,
        scheme: WrapScheme,
        wrapped: &[u8],
    ) -> Result<Option<Vec<u8>>, ProviderFault>
        ensures { IfOk result (λ r. option_map (λ v. v.items) r ≡ unwrap self.now key.now scheme wrapped.now) };

    /// The content key, wrapped, if it can be; the seed is 32 bytes of randomness.
    fn wrap_key(
        &self,
        alloc: Global,
        key: &PublicKey,
        scheme: WrapScheme,
        seed: &[u8; 32],
        content_key: &[u8],
    ) -> Result<Option<Vec<u8>>, ProviderFault>
        ensures { IfOk result (λ r. option_map (λ v. v.items) r ≡ wrap_of self.now key.now scheme seed.now content_key.now) };

    /// The secret that the private key shares with the peer, if they share one.
    fn agree(
        &self,
        alloc: Global,
        key: &PrivateKey,
        peer: &PublicKey,
    ) -> Result<Option<Vec<u8>>, ProviderFault>
        ensures { IfOk result (λ r. option_map (λ v. v.items) r ≡ agree self.now key.now peer.now) };

    /// An ephemeral key for the receiver and the secret that they share, if there is one; the seed is 32 bytes of randomness.
    fn ephemeral(
        &self,
        alloc: Global,
        receiver: &PublicKey,
        seed: &[u8; 32],
    ) -> Result<Option<Ephemeral>, ProviderFault>
        ensures { IfOk result (λ r. option_map exchange_of r ≡ ephemeral_of self.now receiver.now seed.now) };

    /// The relation holds only where the algorithm is of the key's family.
    ghost signs_in_family: { (p : Self) (k : PublicKey) (a : SignatureAlgorithm) (m s : List ℕ) → signs p k a m s → IsTrue (is_of_family a k) };

    /// What signing gives is signed under the key's public key.
    ghost sign_signs: { (p : Self) (k : PrivateKey) (a : SignatureAlgorithm) (m s : List ℕ)
        → sign_of p k a m ≡ Some s → (q : PublicKey) × (public_of p k ≡ Some q) × signs p q a m s };

    /// What signing gives isn't empty; for ECDSA it is the DER of a pair of numbers that are at least zero and fit the field
    /// of the public key.
    ghost sign_fits: { (p : Self) (k : PrivateKey) (a : SignatureAlgorithm) (m s : List ℕ) (q : PublicKey)
        → sign_of p k a m ≡ Some s → public_of p k ≡ Some q → IsTrue (is_signature_for a q s) };

    /// A public part is the public key.
    ghost own_part: { (p : Self) (k : PrivateKey) (q : PublicKey) → k.public_part ≡ Some q → public_of p k ≡ Some q };

    /// A public key is of its private key's kind: RSA, the same curve, or the same Edwards algorithm.
    ghost public_of_kind: { (p : Self) (k : PrivateKey) (q : PublicKey) → public_of p k ≡ Some q → kind_of q ≡ k.kind };

    /// What wrapping gives under a key's public key unwraps to the content key.
    ghost unwraps: { (p : Self) (k : PrivateKey) (q : PublicKey) (scheme : WrapScheme) (seed content_key wrapped : List ℕ)
        → public_of p k ≡ Some q → wrap_of p q scheme seed content_key ≡ Some wrapped → unwrap p k scheme wrapped ≡ Some content_key };

    /// The secret of an ephemeral key is what each private key of the receiver agrees on with it.
    ghost agrees: { (p : Self) (k : PrivateKey) (receiver epk : PublicKey) (seed secret : List ℕ)
        → public_of p k ≡ Some receiver → ephemeral_of p receiver seed ≡ Some (epk, secret) → agree p k epk ≡ Some secret };

    /// An ephemeral key has its receiver's curve or algorithm.
    ghost ephemeral_kind: { (p : Self) (receiver epk : PublicKey) (seed secret : List ℕ)
        → ephemeral_of p receiver seed ≡ Some (epk, secret) → kind_of epk ≡ kind_of receiver };

    /// The receiver of an ephemeral key has a curve or an algorithm: it is no RSA key.
    ghost ephemeral_curve: { (p : Self) (receiver epk : PublicKey) (seed secret : List ℕ)
        → ephemeral_of p receiver seed ≡ Some (epk, secret) → kind_of receiver ≢ Rsa };
}
