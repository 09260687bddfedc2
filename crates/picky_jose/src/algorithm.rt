// Names of JWS algorithms and signature algorithms (RFC 7518, section 3.1; RFC 8037, section 3.1).
ghost use Rattle.std.specs.Prelude.{◌≡◌, ok_or};
ghost use Rattle.picky_key_der.specs.declared.error.SignatureError.TheVariants.{UnsupportedAlgorithm};
ghost use Rattle.picky_jose.specs.Algorithms.{algorithm_of, name_of};

use picky_jwk_names::JwsAlg;
use picky_key::{HashAlgorithm, SignatureAlgorithm, SignatureError};

/// The signature algorithm of a name: of `RS256`, `RS384`, `RS512` RSASSA-PKCS1-v1_5, of `ES256`, `ES384`, `ES512` ECDSA, with
/// SHA-256, SHA-384, SHA-512; of `EdDSA` and `ED25519` Ed25519. Takes no memory.
///
/// `UnsupportedAlgorithm` exactly for all other names.
pub fn signature_algorithm_of(v: JwsAlg) -> Result<SignatureAlgorithm, SignatureError>
    ensures { result ≡ ok_or (algorithm_of v) UnsupportedAlgorithm }
{
    match v {
        JwsAlg::RS256 => Ok(SignatureAlgorithm::RsaPkcs1v15(HashAlgorithm::SHA2_256)),
        JwsAlg::RS384 => Ok(SignatureAlgorithm::RsaPkcs1v15(HashAlgorithm::SHA2_384)),
        JwsAlg::RS512 => Ok(SignatureAlgorithm::RsaPkcs1v15(HashAlgorithm::SHA2_512)),
        JwsAlg::ES256 => Ok(SignatureAlgorithm::Ecdsa(HashAlgorithm::SHA2_256)),
        JwsAlg::ES384 => Ok(SignatureAlgorithm::Ecdsa(HashAlgorithm::SHA2_384)),
        JwsAlg::ES512 => Ok(SignatureAlgorithm::Ecdsa(HashAlgorithm::SHA2_512)),
        JwsAlg::EdDSA | JwsAlg::ED25519 => Ok(SignatureAlgorithm::Ed25519),
        _ => Err(SignatureError::UnsupportedAlgorithm),
    }
}

/// The name of a signature algorithm, which for Ed25519 is `EdDSA`. Takes no memory.
///
/// `UnsupportedAlgorithm` exactly for RSASSA-PKCS1-v1_5 and ECDSA with another hash than SHA-256, SHA-384 and SHA-512.
pub fn jws_alg_of(v: SignatureAlgorithm) -> Result<JwsAlg, SignatureError>
    ensures { result ≡ ok_or (name_of v) UnsupportedAlgorithm }
{
    match v {
        SignatureAlgorithm::RsaPkcs1v15(HashAlgorithm::SHA2_256) => Ok(JwsAlg::RS256),
        SignatureAlgorithm::RsaPkcs1v15(HashAlgorithm::SHA2_384) => Ok(JwsAlg::RS384),
        SignatureAlgorithm::RsaPkcs1v15(HashAlgorithm::SHA2_512) => Ok(JwsAlg::RS512),
        SignatureAlgorithm::Ecdsa(HashAlgorithm::SHA2_256) => Ok(JwsAlg::ES256),
        SignatureAlgorithm::Ecdsa(HashAlgorithm::SHA2_384) => Ok(JwsAlg::ES384),
        SignatureAlgorithm::Ecdsa(HashAlgorithm::SHA2_512) => Ok(JwsAlg::ES512),
        SignatureAlgorithm::Ed25519 => Ok(JwsAlg::EdDSA),
        _ => Err(SignatureError::UnsupportedAlgorithm),
    }
}
