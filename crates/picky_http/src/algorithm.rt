// Algorithms of header texts by their names.
ghost use Rattle.std.specs.Prelude.{◌≡◌, IfOk, Some, None, IsSome, IsTrue, ◌↔◌};
ghost use Rattle.std.specs.Option.{option_map};
ghost use Rattle.picky_http.specs.Algorithms.{algorithm_view, algorithm_name, algorithm_named, algorithm_text, rsa_name, known_rsa, known_algorithm, custom_text, as_known as known_of, is_known as is_known_one};

use picky_key::{HashAlgorithm, SignatureAlgorithm};
use std::alloc::{AllocError, Global};

/// An algorithm of a header text (section 2.1.3): one that is known by its name, or any other text.
#[derive(Debug, Drop, PartialEq, Eq, Hash)]
pub enum HttpSigAlgorithm {
    Known(SignatureAlgorithm),
    Custom(String),
}

impl HttpSigAlgorithm {
    /// The algorithm that is known, or `None`.
    pub fn as_known(&self) -> Option<SignatureAlgorithm>
        ensures { result ≡ known_of (algorithm_view self.now) }
    {
        match self {
            HttpSigAlgorithm::Known(algorithm) => Some(*algorithm),
            HttpSigAlgorithm::Custom(_) => None,
        }
    }

    /// Whether it is one of the algorithms that are known by their names.
    pub fn is_known(&self) -> bool
        ensures { result ≡ is_known_one (algorithm_view self.now) }
    {
        matches!(self, HttpSigAlgorithm::Known(_))
    }

    /// The text of an algorithm that isn't known, or `None`.
    pub fn as_custom(&self) -> Option<&str>
        ensures { option_map (λ s. s.now) result ≡ custom_text (algorithm_view self.now) }
    {
        match self {
            HttpSigAlgorithm::Known(_) => None,
            HttpSigAlgorithm::Custom(text) => Some(text.as_str()),
        }
    }

    /// Whether it is any other text.
    pub fn is_custom(&self) -> bool
        ensures { IsTrue result ↔ IsSome (custom_text (algorithm_view self.now)) }
    {
        matches!(self, HttpSigAlgorithm::Custom(_))
    }

    /// The name of an algorithm that is known, or the other text.
    pub fn as_str(&self) -> &str
        ensures { result.now ≡ algorithm_text (algorithm_view self.now) }
    {
        match self {
            HttpSigAlgorithm::Known(algorithm) => name_of(*algorithm),
            HttpSigAlgorithm::Custom(text) => text.as_str(),
        }
    }

    /// A copy, in memory of its own.
    pub fn clone(&self, alloc: Global) -> Result<HttpSigAlgorithm, AllocError>
        ensures { IfOk result (λ copy. algorithm_view copy ≡ algorithm_view self.now) }
    {
        match self {
            HttpSigAlgorithm::Known(algorithm) => Ok(HttpSigAlgorithm::Known(*algorithm)),
            HttpSigAlgorithm::Custom(text) => {
                let text = String::from_str(alloc, text)?;
                Ok(HttpSigAlgorithm::Custom(text))
            }
        }
    }

    // The algorithm that a text names.
    pub(crate) fn from_text(alloc: Global, text: &str) -> Result<HttpSigAlgorithm, AllocError>
        ensures { IfOk result (λ a. algorithm_view a ≡ algorithm_named text.now) }
    {
        match known(text) {
            Some(algorithm) => Ok(HttpSigAlgorithm::Known(algorithm)),
            None => {
                let text = String::from_str(alloc, text)?;
                Ok(HttpSigAlgorithm::Custom(text))
            }
        }
    }
}

// The name of an algorithm.
fn name_of(algorithm: SignatureAlgorithm) -> &'static str
    ensures { result.now ≡ algorithm_name algorithm }
{
    match algorithm {
        SignatureAlgorithm::RsaPkcs1v15(hash) => rsa_name_of(hash),
        SignatureAlgorithm::Ecdsa(HashAlgorithm::SHA2_256) => "ecdsa-sha256",
        SignatureAlgorithm::Ecdsa(HashAlgorithm::SHA2_384) => "ecdsa-sha384",
        SignatureAlgorithm::Ecdsa(_) => "ECDSA unsupported algorithm",
        SignatureAlgorithm::Ed25519 => "ed25519-sha512",
    }
}

// The name of RSASSA-PKCS1-v1_5 with a hash.
fn rsa_name_of(hash: HashAlgorithm) -> &'static str
    ensures { result.now ≡ rsa_name hash }
{
    match hash {
        HashAlgorithm::MD5 => "rsa-md5",
        HashAlgorithm::SHA1 => "rsa-sha1",
        HashAlgorithm::SHA2_224 => "rsa-sha224",
        HashAlgorithm::SHA2_256 => "rsa-sha256",
        HashAlgorithm::SHA2_384 => "rsa-sha384",
        HashAlgorithm::SHA2_512 => "rsa-sha512",
        HashAlgorithm::SHA3_384 => "rsa-sha3-384",
        HashAlgorithm::SHA3_512 => "rsa-sha3-512",
    }
}

// The algorithm that a text names, where it is known.
fn known(text: &str) -> Option<SignatureAlgorithm>
    ensures { result ≡ known_algorithm text.now }
{
    match text {
        "ecdsa-sha256" => Some(SignatureAlgorithm::Ecdsa(HashAlgorithm::SHA2_256)),
        "ecdsa-sha384" => Some(SignatureAlgorithm::Ecdsa(HashAlgorithm::SHA2_384)),
        "ed25519-sha512" => Some(SignatureAlgorithm::Ed25519),
        _ => rsa_hash(text).map(SignatureAlgorithm::RsaPkcs1v15),
    }
}

// The hash of the algorithm of RSASSA-PKCS1-v1_5 that a text names.
fn rsa_hash(text: &str) -> Option<HashAlgorithm>
    ensures { result ≡ known_rsa text.now }
{
    match text {
        "rsa-md5" => Some(HashAlgorithm::MD5),
        "rsa-sha1" => Some(HashAlgorithm::SHA1),
        "rsa-sha224" | "rsa-sha2-224" => Some(HashAlgorithm::SHA2_224),
        "rsa-sha256" | "rsa-sha2-256" => Some(HashAlgorithm::SHA2_256),
        "rsa-sha384" | "rsa-sha2-384" => Some(HashAlgorithm::SHA2_384),
        "rsa-sha512" | "rsa-sha2-512" => Some(HashAlgorithm::SHA2_512),
        "rsa-sha3-384" => Some(HashAlgorithm::SHA3_384),
        "rsa-sha3-512" => Some(HashAlgorithm::SHA3_512),
        _ => None,
    }
}
