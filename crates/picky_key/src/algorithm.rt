// Algorithms by their names.
ghost use Rattle.std.specs.Prelude.{◌≡◌};
ghost use Rattle.picky_key.specs.Family.{is_of_family as is_of};
ghost use Rattle.picky_key.specs.Words.{algorithm_word};

use picky_key_der::{EdAlgorithm, NamedEcCurve, PublicKey, PublicKeyKind};

/// A hash of a signature algorithm.
#[allow(non_camel_case_types)]
#[derive(Clone, Copy, Debug, PartialEq, Eq, Hash)]
pub enum HashAlgorithm {
    MD5,
    SHA1,
    SHA2_224,
    SHA2_256,
    SHA2_384,
    SHA2_512,
    SHA3_384,
    SHA3_512,
}

/// A signature algorithm: RSASSA-PKCS1-v1_5 (RFC 8017, section 8.2) or ECDSA (FIPS 186-5, section 6)
/// with a hash, or Ed25519 (RFC 8032, section 5.1).
#[derive(Clone, Copy, Debug, PartialEq, Eq, Hash)]
pub enum SignatureAlgorithm {
    RsaPkcs1v15(HashAlgorithm),
    Ecdsa(HashAlgorithm),
    Ed25519,
}

impl SignatureAlgorithm {
    /// The word by which a records document and the program name the algorithm, as `rsa-sha256`.
    pub fn word(self) -> &'static str
        ensures { result.now ≡ algorithm_word self }
    {
        match self {
            SignatureAlgorithm::RsaPkcs1v15(HashAlgorithm::MD5) => "rsa-md5",
            SignatureAlgorithm::RsaPkcs1v15(HashAlgorithm::SHA1) => "rsa-sha1",
            SignatureAlgorithm::RsaPkcs1v15(HashAlgorithm::SHA2_224) => "rsa-sha224",
            SignatureAlgorithm::RsaPkcs1v15(HashAlgorithm::SHA2_256) => "rsa-sha256",
            SignatureAlgorithm::RsaPkcs1v15(HashAlgorithm::SHA2_384) => "rsa-sha384",
            SignatureAlgorithm::RsaPkcs1v15(HashAlgorithm::SHA2_512) => "rsa-sha512",
            SignatureAlgorithm::RsaPkcs1v15(HashAlgorithm::SHA3_384) => "rsa-sha3-384",
            SignatureAlgorithm::RsaPkcs1v15(HashAlgorithm::SHA3_512) => "rsa-sha3-512",
            SignatureAlgorithm::Ecdsa(HashAlgorithm::MD5) => "ecdsa-md5",
            SignatureAlgorithm::Ecdsa(HashAlgorithm::SHA1) => "ecdsa-sha1",
            SignatureAlgorithm::Ecdsa(HashAlgorithm::SHA2_224) => "ecdsa-sha224",
            SignatureAlgorithm::Ecdsa(HashAlgorithm::SHA2_256) => "ecdsa-sha256",
            SignatureAlgorithm::Ecdsa(HashAlgorithm::SHA2_384) => "ecdsa-sha384",
            SignatureAlgorithm::Ecdsa(HashAlgorithm::SHA2_512) => "ecdsa-sha512",
            SignatureAlgorithm::Ecdsa(HashAlgorithm::SHA3_384) => "ecdsa-sha3-384",
            SignatureAlgorithm::Ecdsa(HashAlgorithm::SHA3_512) => "ecdsa-sha3-512",
            SignatureAlgorithm::Ed25519 => "ed25519-sha512",
        }
    }

    /// Whether the algorithm is of the key's family: RSASSA-PKCS1-v1_5 of any hash is of RSA keys, ECDSA of any hash
    /// of keys on a known curve, Ed25519 of its own. Nothing is of an X25519 key or of a key on another curve.
    pub fn is_of_family(self, key: &PublicKey) -> bool
        ensures { result ≡ is_of self key.now }
    {
        matches!(
            (self, key.kind()),
            (
                SignatureAlgorithm::RsaPkcs1v15(_),
                PublicKeyKind::Rsa { .. }
            ) | (
                SignatureAlgorithm::Ecdsa(_),
                PublicKeyKind::Ec {
                    curve: NamedEcCurve::Known(_),
                    ..
                }
            ) | (
                SignatureAlgorithm::Ed25519,
                PublicKeyKind::Ed {
                    algorithm: EdAlgorithm::Ed25519,
                    ..
                }
            )
        )
    }
}
