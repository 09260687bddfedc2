// Signature algorithms of keys.
ghost use Rattle.std.specs.Prelude.{◌≡◌};
ghost use Rattle.picky_jwk_key.specs.Keys.{key_view};
ghost use Rattle.picky_ring.specs.Algorithms.{algorithm_of as of_name, algorithm_named, hash_of as of_curve, edwards_default as edwards, default_of as of_key, algorithm_asked as asked};

use picky_jwk_key::JwkKeyType;
use picky_jwk_names::{Jwa, JwkEcPublicKeyCurve, JwkEdPublicKeyAlgorithm, JwsAlg};
use picky_key::{HashAlgorithm, SignatureAlgorithm};

// The algorithm of a name.
fn algorithm_of(alg: JwsAlg) -> Option<SignatureAlgorithm>
    ensures { result ≡ of_name alg }
{
    match alg {
        JwsAlg::RS256 => Some(SignatureAlgorithm::RsaPkcs1v15(HashAlgorithm::SHA2_256)),
        JwsAlg::RS384 => Some(SignatureAlgorithm::RsaPkcs1v15(HashAlgorithm::SHA2_384)),
        JwsAlg::RS512 => Some(SignatureAlgorithm::RsaPkcs1v15(HashAlgorithm::SHA2_512)),
        JwsAlg::ES256 => Some(SignatureAlgorithm::Ecdsa(HashAlgorithm::SHA2_256)),
        JwsAlg::ES384 => Some(SignatureAlgorithm::Ecdsa(HashAlgorithm::SHA2_384)),
        JwsAlg::ES512 => Some(SignatureAlgorithm::Ecdsa(HashAlgorithm::SHA2_512)),
        JwsAlg::EdDSA | JwsAlg::ED25519 => Some(SignatureAlgorithm::Ed25519),
        _ => None,
    }
}

// The same of a name of any kind.
fn algorithm_of_any(alg: Jwa) -> Option<SignatureAlgorithm>
    ensures { result ≡ algorithm_named alg }
{
    match alg {
        Jwa::Sig(alg) => algorithm_of(alg),
        Jwa::Enc(_) => None,
        Jwa::CEKAlg(_) => None,
    }
}

fn hash_of(curve: JwkEcPublicKeyCurve) -> HashAlgorithm
    ensures { result ≡ of_curve curve }
{
    match curve {
        JwkEcPublicKeyCurve::P256 => HashAlgorithm::SHA2_256,
        JwkEcPublicKeyCurve::P384 => HashAlgorithm::SHA2_384,
        JwkEcPublicKeyCurve::P521 => HashAlgorithm::SHA2_512,
    }
}

fn edwards_default(crv: JwkEdPublicKeyAlgorithm) -> Option<SignatureAlgorithm>
    ensures { result ≡ edwards crv }
{
    match crv {
        JwkEdPublicKeyAlgorithm::Ed25519 => Some(SignatureAlgorithm::Ed25519),
        _ => None,
    }
}

// The algorithm of a key that names none, where its kind checks signatures.
pub fn default_of(key: &JwkKeyType) -> Option<SignatureAlgorithm>
    ensures { result ≡ of_key (key_view key.now) }
{
    match key {
        JwkKeyType::Rsa(_) => Some(SignatureAlgorithm::RsaPkcs1v15(HashAlgorithm::SHA2_256)),
        JwkKeyType::Ec(key) => Some(SignatureAlgorithm::Ecdsa(hash_of(key.crv))),
        JwkKeyType::Ed(key) => edwards_default(key.crv),
        JwkKeyType::Oct => None,
    }
}

// The algorithm of a key with this `alg` and this default.
pub fn algorithm_asked(alg: Option<Jwa>, default: SignatureAlgorithm) -> Option<SignatureAlgorithm>
    ensures { result ≡ asked alg default }
{
    match alg {
        Some(alg) => algorithm_of_any(alg),
        None => Some(default),
    }
}
