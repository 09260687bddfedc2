// Names of algorithms and schemes.
ghost use Rattle.std.specs.Prelude.{◌≡◌};
ghost use Rattle.picky_records.specs.Reading.{algorithm_named, scheme_named};

use picky_key::{HashAlgorithm, SignatureAlgorithm, WrapScheme};

// The algorithm of a name.
pub(crate) fn algorithm_of(name: &str) -> Option<SignatureAlgorithm>
    ensures { result ≡ algorithm_named name.now }
{
    match name {
        "rsa-md5" => Some(SignatureAlgorithm::RsaPkcs1v15(HashAlgorithm::MD5)),
        "rsa-sha1" => Some(SignatureAlgorithm::RsaPkcs1v15(HashAlgorithm::SHA1)),
        "rsa-sha224" => Some(SignatureAlgorithm::RsaPkcs1v15(HashAlgorithm::SHA2_224)),
        "rsa-sha256" => Some(SignatureAlgorithm::RsaPkcs1v15(HashAlgorithm::SHA2_256)),
        "rsa-sha384" => Some(SignatureAlgorithm::RsaPkcs1v15(HashAlgorithm::SHA2_384)),
        "rsa-sha512" => Some(SignatureAlgorithm::RsaPkcs1v15(HashAlgorithm::SHA2_512)),
        "rsa-sha3-384" => Some(SignatureAlgorithm::RsaPkcs1v15(HashAlgorithm::SHA3_384)),
        "rsa-sha3-512" => Some(SignatureAlgorithm::RsaPkcs1v15(HashAlgorithm::SHA3_512)),
        "ecdsa-md5" => Some(SignatureAlgorithm::Ecdsa(HashAlgorithm::MD5)),
        "ecdsa-sha1" => Some(SignatureAlgorithm::Ecdsa(HashAlgorithm::SHA1)),
        "ecdsa-sha224" => Some(SignatureAlgorithm::Ecdsa(HashAlgorithm::SHA2_224)),
        "ecdsa-sha256" => Some(SignatureAlgorithm::Ecdsa(HashAlgorithm::SHA2_256)),
        "ecdsa-sha384" => Some(SignatureAlgorithm::Ecdsa(HashAlgorithm::SHA2_384)),
        "ecdsa-sha512" => Some(SignatureAlgorithm::Ecdsa(HashAlgorithm::SHA2_512)),
        "ecdsa-sha3-384" => Some(SignatureAlgorithm::Ecdsa(HashAlgorithm::SHA3_384)),
        "ecdsa-sha3-512" => Some(SignatureAlgorithm::Ecdsa(HashAlgorithm::SHA3_512)),
        "ed25519-sha512" => Some(SignatureAlgorithm::Ed25519),
        _ => None,
    }
}

// The scheme of a name.
pub(crate) fn scheme_of(name: &str) -> Option<WrapScheme>
    ensures { result ≡ scheme_named name.now }
{
    match name {
        "RSA1_5" => Some(WrapScheme::RsaPkcs1v15),
        "RSA-OAEP" => Some(WrapScheme::RsaOaep),
        "RSA-OAEP-256" => Some(WrapScheme::RsaOaep256),
        _ => None,
    }
}
