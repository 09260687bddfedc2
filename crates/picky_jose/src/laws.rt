//! Laws of tokens: each is the contract of a function without a body.
ghost use Rattle.std.specs.Prelude.{◌≡◌, ◌↔◌, ℕ, List, Some};
ghost use Rattle.picky_key_der.specs.declared.public.PublicKeyKind.{PublicKeyKind};
ghost use Rattle.picky_jwk_names.specs.declared.alg.JwsAlg.{JwsAlg};
ghost use Rattle.picky_jose.specs.Refusals.{Reading, TokenReading, signed_bytes};
ghost use Rattle.picky_jose.specs.Signatures.{IsVouched, signed_table};
ghost use Rattle.picky_jose.specs.Views.{Content};
ghost use Rattle.picky_jose.specs.Verified.{VerifiedContent};
ghost use Rattle.picky_jose.specs.Encoding.{SignedContent};

use picky_key::{KeyProvider, PrivateKey};

/// A text has one reading as a token at most.
pub fn reading_is_determined()
    ensures { (text : List ℕ) (x y : Reading) → TokenReading x text → TokenReading y text → y ≡ x }
{}

/// A signed token's text is determined by its bytes before the last dot and its signature.
pub fn text_is_determined()
    ensures { (x y : Reading) (s t : List ℕ) (r : TokenReading x s) (q : TokenReading y t) → signed_bytes q ≡ signed_bytes r → y.signature ≡ x.signature → t ≡ s }
{}

/// The signature of a token that was read is accepted exactly where the relation holds of the bytes
/// before its last dot, as they stand, and of what the text after it spells, under every name.
pub fn signature_is_that_of_the_reading<P: KeyProvider>(_provider: &P)
    ensures { (key : PublicKeyKind) (alg : JwsAlg) (text : List ℕ) (x : Reading) (r : TokenReading x text)
        → (signed_table (P.signs _provider.now) key alg text).gives tt
        ↔ IsVouched (P.signs _provider.now) key alg (signed_bytes r) x.signature }
{}

/// A token whose signature a private key's signing gives has its content verified, under that key's public key.
pub fn what_is_signed_verifies<P: KeyProvider>(_provider: &P, _private_key: &PrivateKey)
    ensures { (key : PublicKeyKind) (token : List ℕ) (x : Content) → P.public_of _provider.now _private_key.now ≡ Some key
        → SignedContent (P.sign_of _provider.now _private_key.now) token x
        → VerifiedContent (P.signs _provider.now) key token x }
{}
