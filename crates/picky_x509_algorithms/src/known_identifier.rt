// The identifiers that containers know.
ghost use Rattle.std.specs.Prelude.{◌≡◌, if◌then◌else◌, Some};
ghost use Rattle.picky_asn1_oid.specs.Arcs.{contents_of};
ghost use Rattle.picky_der.specs.Form.{Writes};
ghost use Rattle.picky_fields.specs.Fields.{identifier};
ghost use Rattle.picky_x509_algorithms.specs.Identifiers.{arcs, is_known};

use picky_asn1_oid::ObjectIdentifier;
use picky_asn1_tag::Tag;
use picky_der::{DerError, write_value};

/// An object identifier that the containers of PKCS #12 know, by its name in the standard.
#[derive(Clone, Copy, Debug, PartialEq, Eq)]
pub enum KnownIdentifier {
    /// id-data, 1.2.840.113549.1.7.1 (RFC 5652 section 4).
    Data,
    /// id-encryptedData, 1.2.840.113549.1.7.6 (RFC 5652 section 8).
    EncryptedData,
    /// keyBag, 1.2.840.113549.1.12.10.1.1 (RFC 7292 section 4.2.1).
    KeyBag,
    /// pkcs8ShroudedKeyBag, 1.2.840.113549.1.12.10.1.2 (RFC 7292 section 4.2.2).
    Pkcs8ShroudedKeyBag,
    /// certBag, 1.2.840.113549.1.12.10.1.3 (RFC 7292 section 4.2.3).
    CertBag,
    /// crlBag, 1.2.840.113549.1.12.10.1.4 (RFC 7292 section 4.2.4).
    CrlBag,
    /// secretBag, 1.2.840.113549.1.12.10.1.5 (RFC 7292 section 4.2.5).
    SecretBag,
    /// safeContentsBag, 1.2.840.113549.1.12.10.1.6 (RFC 7292 section 4.2.6).
    SafeContentsBag,
    /// x509Certificate, 1.2.840.113549.1.9.22.1 (RFC 7292 section 4.2.3).
    X509Certificate,
    /// friendlyName, 1.2.840.113549.1.9.20 (RFC 2985 section 5.5.1).
    FriendlyName,
    /// localKeyId, 1.2.840.113549.1.9.21 (RFC 2985 section 5.5.2).
    LocalKeyId,
    /// pbeWithSHAAnd3-KeyTripleDES-CBC, 1.2.840.113549.1.12.1.3 (RFC 7292 appendix C).
    PbeWithShaAnd3KeyTripleDesCbc,
    /// pbeWithSHAAnd40BitRC2-CBC, 1.2.840.113549.1.12.1.6 (RFC 7292 appendix C).
    PbeWithShaAnd40BitRc2Cbc,
    /// id-PBKDF2, 1.2.840.113549.1.5.12 (RFC 8018 appendix A.2).
    Pbkdf2,
    /// id-PBES2, 1.2.840.113549.1.5.13 (RFC 8018 appendix A.4).
    Pbes2,
    /// id-hmacWithSHA1, 1.2.840.113549.2.7 (RFC 8018 appendix B.1.1).
    HmacWithSha1,
    /// id-hmacWithSHA224, 1.2.840.113549.2.8 (RFC 8018 appendix B.1.2).
    HmacWithSha224,
    /// id-hmacWithSHA256, 1.2.840.113549.2.9 (RFC 8018 appendix B.1.2).
    HmacWithSha256,
    /// id-hmacWithSHA384, 1.2.840.113549.2.10 (RFC 8018 appendix B.1.2).
    HmacWithSha384,
    /// id-hmacWithSHA512, 1.2.840.113549.2.11 (RFC 8018 appendix B.1.2).
    HmacWithSha512,
    /// aes128-CBC-PAD, 2.16.840.1.101.3.4.1.2 (RFC 8018 appendix B.2.5).
    Aes128Cbc,
    /// aes192-CBC-PAD, 2.16.840.1.101.3.4.1.22 (RFC 8018 appendix B.2.5).
    Aes192Cbc,
    /// aes256-CBC-PAD, 2.16.840.1.101.3.4.1.42 (RFC 8018 appendix B.2.5).
    Aes256Cbc,
    /// id-sha1, 1.3.14.3.2.26 (RFC 8017 appendix B.1).
    Sha1,
    /// id-sha224, 2.16.840.1.101.3.4.2.4 (RFC 8017 appendix B.1).
    Sha224,
    /// id-sha256, 2.16.840.1.101.3.4.2.1 (RFC 8017 appendix B.1).
    Sha256,
    /// id-sha384, 2.16.840.1.101.3.4.2.2 (RFC 8017 appendix B.1).
    Sha384,
    /// id-sha512, 2.16.840.1.101.3.4.2.3 (RFC 8017 appendix B.1).
    Sha512,
}

impl KnownIdentifier {
    /// The contents octets of the identifier (X.690 section 8.19).
    #[tactic(auto, unfolding(crate::specs::Identifiers::arcs, picky_asn1_oid::specs::Arcs::base128, picky_asn1_oid::specs::Arcs::continued))]
    pub fn contents(self) -> &'static [u8]
        ensures { result.now ≡ contents_of (arcs self) }
    {
        match self {
            KnownIdentifier::Data => b"\x2a\x86\x48\x86\xf7\x0d\x01\x07\x01",
            KnownIdentifier::EncryptedData => b"\x2a\x86\x48\x86\xf7\x0d\x01\x07\x06",
            KnownIdentifier::KeyBag => b"\x2a\x86\x48\x86\xf7\x0d\x01\x0c\x0a\x01\x01",
            KnownIdentifier::Pkcs8ShroudedKeyBag => b"\x2a\x86\x48\x86\xf7\x0d\x01\x0c\x0a\x01\x02",
            KnownIdentifier::CertBag => b"\x2a\x86\x48\x86\xf7\x0d\x01\x0c\x0a\x01\x03",
            KnownIdentifier::CrlBag => b"\x2a\x86\x48\x86\xf7\x0d\x01\x0c\x0a\x01\x04",
            KnownIdentifier::SecretBag => b"\x2a\x86\x48\x86\xf7\x0d\x01\x0c\x0a\x01\x05",
            KnownIdentifier::SafeContentsBag => b"\x2a\x86\x48\x86\xf7\x0d\x01\x0c\x0a\x01\x06",
            KnownIdentifier::X509Certificate => b"\x2a\x86\x48\x86\xf7\x0d\x01\x09\x16\x01",
            KnownIdentifier::FriendlyName => b"\x2a\x86\x48\x86\xf7\x0d\x01\x09\x14",
            KnownIdentifier::LocalKeyId => b"\x2a\x86\x48\x86\xf7\x0d\x01\x09\x15",
            KnownIdentifier::PbeWithShaAnd3KeyTripleDesCbc =>
                b"\x2a\x86\x48\x86\xf7\x0d\x01\x0c\x01\x03",
            KnownIdentifier::PbeWithShaAnd40BitRc2Cbc =>
                b"\x2a\x86\x48\x86\xf7\x0d\x01\x0c\x01\x06",
            KnownIdentifier::Pbkdf2 => b"\x2a\x86\x48\x86\xf7\x0d\x01\x05\x0c",
            KnownIdentifier::Pbes2 => b"\x2a\x86\x48\x86\xf7\x0d\x01\x05\x0d",
            KnownIdentifier::HmacWithSha1 => b"\x2a\x86\x48\x86\xf7\x0d\x02\x07",
            KnownIdentifier::HmacWithSha224 => b"\x2a\x86\x48\x86\xf7\x0d\x02\x08",
            KnownIdentifier::HmacWithSha256 => b"\x2a\x86\x48\x86\xf7\x0d\x02\x09",
            KnownIdentifier::HmacWithSha384 => b"\x2a\x86\x48\x86\xf7\x0d\x02\x0a",
            KnownIdentifier::HmacWithSha512 => b"\x2a\x86\x48\x86\xf7\x0d\x02\x0b",
            KnownIdentifier::Aes128Cbc => b"\x60\x86\x48\x01\x65\x03\x04\x01\x02",
            KnownIdentifier::Aes192Cbc => b"\x60\x86\x48\x01\x65\x03\x04\x01\x16",
            KnownIdentifier::Aes256Cbc => b"\x60\x86\x48\x01\x65\x03\x04\x01\x2a",
            KnownIdentifier::Sha1 => b"\x2b\x0e\x03\x02\x1a",
            KnownIdentifier::Sha224 => b"\x60\x86\x48\x01\x65\x03\x04\x02\x04",
            KnownIdentifier::Sha256 => b"\x60\x86\x48\x01\x65\x03\x04\x02\x01",
            KnownIdentifier::Sha384 => b"\x60\x86\x48\x01\x65\x03\x04\x02\x02",
            KnownIdentifier::Sha512 => b"\x60\x86\x48\x01\x65\x03\x04\x02\x03",
        }
    }

    /// Whether this is the identifier.
    #[tactic(auto, unfolding(crate::specs::Identifiers::is_known))]
    pub fn is(self, oid: &ObjectIdentifier) -> bool
        ensures { result ≡ is_known self oid.now }
    {
        oid.contents() == self.contents()
    }

    /// Adds the identifier as DER at the end. The one refusal is `OutOfMemory`, and it changes nothing.
    #[tactic(auto, using(crate::specs::laws::Identifiers::known_writes))]
    pub fn write(self, out: &mut Vec<u8>) -> Result<(), DerError>
        ensures { Writes (λ s. identifier.Encodes s (arcs self)) ⊥ result out.old.items out.new.items }
    {
        write_value(out, Tag::OID, self.contents())
    }
}

// The name where this is the identifier, else what the others give.
pub fn named<N: Copy>(
    known: KnownIdentifier,
    name: N,
    oid: &ObjectIdentifier,
    others: Option<N>,
) -> Option<N>
    ensures { result ≡ (if is_known known oid.now then Some name else others) }
{
    if known.is(oid) { Some(name) } else { others }
}
