// The outer value of a public key, and the value that an RSA key's bits hold.
#![tactic(auto, unfolding(crate::specs::Public::whole_bits, crate::specs::Public::information, crate::specs::Public::rsa_public, picky_fields::specs::Fields::enclosed_at, picky_fields::specs::Fields::run_at))]

ghost use Rattle.std.specs.Prelude.{◌≡◌, List, ℕ};
ghost use Rattle.picky_der.specs.Reading.{Reads, Answers, whole_bytes};
ghost use Rattle.picky_der.specs.Form.{Writes};
ghost use Rattle.picky_key_der.specs.Public.{InformationValue, whole_bits, information, rsa_public};
ghost use Rattle.picky_key_der.specs.laws.Public.{whole_bits_lawful, information_lawful, rsa_public_lawful};

use picky_asn1_bits::IntegerAsn1;
use picky_asn1_tag::{Asn1Value, Tag};
use picky_contract::Bytes;
use picky_der::{DerError, DerForm, DerRead, DerReader};
use picky_fields::AlgorithmIdentifier;
use std::alloc::Global;

#[tactic(auto, unfolding(picky_der::specs::Reading::whole_bytes))]
fn without_count(contents: &[u8]) -> Result<&[u8], DerError>
    ensures { Answers (λ x. x.now) result (whole_bytes contents.now) }
{
    match contents {
        [0, bytes @ ..] => Ok(bytes),
        _ => Err(DerError::BadValue),
    }
}

// The bytes of the BIT STRING that stands next, which has no unused bits.
#[tactic(auto, unfolding(crate::specs::Public::whole_bits, picky_der::specs::Primitive::primitive_at))]
fn read_whole_bits(alloc: Global, reader: &mut DerReader<'_>) -> Result<Vec<u8>, DerError>
    ensures { Reads (λ v. v.items) whole_bits.reading reader.old result reader.new }
{
    let mut ahead = reader.fork();
    let bytes = without_count(ahead.read_value(Tag::BIT_STRING)?)?;
    let bits = Vec::from_slice(alloc, bytes)?;
    *reader = ahead;
    Ok(bits)
}

/// The bytes of a BIT STRING that has no unused bits.
#[derive(Debug, Drop)]
pub struct WholeBits(pub Bytes);

impl Asn1Value for WholeBits {
    ghost Meaning = { List ℕ };

    ghost meaning = { λ b. b.0 };
}

impl DerForm for WholeBits {
    ghost Abstract = { List ℕ };

    ghost stands_for = { λ b. b.0 };

    ghost form = { whole_bits };

    ghost same_value = { λ _ _ e. e };
}

impl DerRead for WholeBits {
    fn begins_with(tag: Tag) -> bool {
        tag == Tag::BIT_STRING
    }

    fn read_der(alloc: Global, reader: &mut DerReader<'_>) -> Result<WholeBits, DerError> {
        Ok(WholeBits(Bytes::new(read_whole_bits(alloc, reader)?)))
    }

    ghost readable = { whole_bits_lawful.readable };
}

// The algorithm and the bits of a public key (RFC 5280 section 4.1.2.7).
#[derive(Debug, Drop)]
pub struct SubjectPublicKeyInfo {
    pub algorithm: AlgorithmIdentifier,
    pub bits: Bytes,
}

impl Asn1Value for SubjectPublicKeyInfo {
    ghost Meaning = { InformationValue };

    ghost meaning = { λ i. (i.algorithm, i.bits) };
}

impl DerForm for SubjectPublicKeyInfo {
    ghost Abstract = { InformationValue };

    ghost stands_for = { λ i. (i.algorithm, i.bits) };

    ghost form = { information };

    ghost same_value = { λ _ _ e. e };
}

impl DerRead for SubjectPublicKeyInfo {
    fn begins_with(tag: Tag) -> bool {
        tag == Tag::SEQUENCE
    }

    fn read_der(
        alloc: Global,
        reader: &mut DerReader<'_>,
    ) -> Result<SubjectPublicKeyInfo, DerError> {
        let mut ahead = reader.fork();
        let mut fields = ahead.nested(Tag::SEQUENCE)?;
        let algorithm = AlgorithmIdentifier::read_der(alloc, &mut fields)?;
        let bits = Bytes::new(read_whole_bits(alloc, &mut fields)?);
        fields.end()?;
        *reader = ahead;
        Ok(SubjectPublicKeyInfo { algorithm, bits })
    }

    ghost readable = { information_lawful.readable };
}

// Modulus and exponent (RFC 8017 appendix A.1.1).
#[derive(Debug, Drop)]
pub struct RsaPublicKey {
    pub modulus: IntegerAsn1,
    pub public_exponent: IntegerAsn1,
}

impl Asn1Value for RsaPublicKey {
    ghost Meaning = { List ℕ × List ℕ };

    ghost meaning = { λ k. (k.modulus.0, k.public_exponent.0) };
}

impl DerForm for RsaPublicKey {
    ghost Abstract = { List ℕ × List ℕ };

    ghost stands_for = { λ k. (k.modulus.0, k.public_exponent.0) };

    ghost form = { rsa_public };

    ghost same_value = { λ _ _ e. e };
}

impl DerRead for RsaPublicKey {
    fn begins_with(tag: Tag) -> bool {
        tag == Tag::SEQUENCE
    }

    fn read_der(alloc: Global, reader: &mut DerReader<'_>) -> Result<RsaPublicKey, DerError> {
        let mut ahead = reader.fork();
        let mut fields = ahead.nested(Tag::SEQUENCE)?;
        let modulus = IntegerAsn1::read_der(alloc, &mut fields)?;
        let public_exponent = IntegerAsn1::read_der(alloc, &mut fields)?;
        fields.end()?;
        *reader = ahead;
        Ok(RsaPublicKey {
            modulus,
            public_exponent,
        })
    }

    ghost readable = { rsa_public_lawful.readable };
}
