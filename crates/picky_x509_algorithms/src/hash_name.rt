// Hash functions by their names.
ghost use Rattle.std.specs.Prelude.{◌≡◌};
ghost use Rattle.picky_x509_algorithms.specs.Hashes.{digest_id, prf_id, digest_name, prf_name};

use crate::known_identifier::{KnownIdentifier, named};
use picky_asn1_oid::ObjectIdentifier;

// A hash function (FIPS 180-4).
#[derive(Clone, Copy)]
pub enum HashName {
    Sha1,
    Sha224,
    Sha256,
    Sha384,
    Sha512,
}

impl HashName {
    // The identifier of the hash function.
    pub fn digest_identifier(self) -> KnownIdentifier
        ensures { result ≡ digest_id self }
    {
        match self {
            HashName::Sha1 => KnownIdentifier::Sha1,
            HashName::Sha224 => KnownIdentifier::Sha224,
            HashName::Sha256 => KnownIdentifier::Sha256,
            HashName::Sha384 => KnownIdentifier::Sha384,
            HashName::Sha512 => KnownIdentifier::Sha512,
        }
    }

    // The identifier of HMAC over the hash function.
    pub fn prf_identifier(self) -> KnownIdentifier
        ensures { result ≡ prf_id self }
    {
        match self {
            HashName::Sha1 => KnownIdentifier::HmacWithSha1,
            HashName::Sha224 => KnownIdentifier::HmacWithSha224,
            HashName::Sha256 => KnownIdentifier::HmacWithSha256,
            HashName::Sha384 => KnownIdentifier::HmacWithSha384,
            HashName::Sha512 => KnownIdentifier::HmacWithSha512,
        }
    }

    // The hash function with this identifier.
    #[tactic(auto, unfolding(crate::specs::Hashes::digest_name))]
    pub fn of_digest(oid: &ObjectIdentifier) -> Option<HashName>
        ensures { result ≡ digest_name oid.now }
    {
        let from_sha512 = named(KnownIdentifier::Sha512, HashName::Sha512, oid, None);
        let from_sha384 = named(KnownIdentifier::Sha384, HashName::Sha384, oid, from_sha512);
        let from_sha256 = named(KnownIdentifier::Sha256, HashName::Sha256, oid, from_sha384);
        let from_sha224 = named(KnownIdentifier::Sha224, HashName::Sha224, oid, from_sha256);
        named(KnownIdentifier::Sha1, HashName::Sha1, oid, from_sha224)
    }

    // The hash function under the HMAC with this identifier.
    #[tactic(auto, unfolding(crate::specs::Hashes::prf_name))]
    pub fn of_prf(oid: &ObjectIdentifier) -> Option<HashName>
        ensures { result ≡ prf_name oid.now }
    {
        let from_sha512 = named(KnownIdentifier::HmacWithSha512, HashName::Sha512, oid, None);
        let from_sha384 = named(
            KnownIdentifier::HmacWithSha384,
            HashName::Sha384,
            oid,
            from_sha512,
        );
        let from_sha256 = named(
            KnownIdentifier::HmacWithSha256,
            HashName::Sha256,
            oid,
            from_sha384,
        );
        let from_sha224 = named(
            KnownIdentifier::HmacWithSha224,
            HashName::Sha224,
            oid,
            from_sha256,
        );
        named(
            KnownIdentifier::HmacWithSha1,
            HashName::Sha1,
            oid,
            from_sha224,
        )
    }
}
