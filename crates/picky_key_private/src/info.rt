// The outer value of a private key.
#![tactic(auto, unfolding(crate::specs::Forms::private_info, picky_fields::specs::Fields::enclosed_at))]

ghost use Rattle.std.specs.Prelude.{◌≡◌, ◌==◌, nat_lt, ℕ, List};
ghost use Rattle.picky_der.specs.Reading.{Answers, Reads, Gives};
ghost use Rattle.picky_fields.specs.Fields.{stands_next, optional, run_at};
ghost use Rattle.picky_key_private.specs.Forms.{version_of, counted_of, version, attributes, public_bits, InfoValue, info_fields, private_info};
ghost use Rattle.picky_key_private.specs.laws.Forms.{private_info_lawful};

use picky_asn1_tag::{Asn1Value, Tag};
use picky_contract::Bytes;
use picky_der::{DerError, DerForm, DerRead, DerReader};
use picky_fields::{AlgorithmIdentifier, read_octets};
use std::alloc::Global;

// The attributes' tag, `[0]`.
const ATTRIBUTES: Tag = Tag(160);

// The public key's tag, `[1]`.
const PUBLIC_KEY: Tag = Tag(129);

// Whether the version is 0 or 1.
fn is_version(version: u8) -> bool
    ensures { result ≡ nat_lt version 2 }
{
    version < 2
}

// The version of these contents octets.
fn version_of(contents: &[u8]) -> Result<u8, DerError>
    ensures { Answers (λ n. n) result (version_of contents.now) }
{
    match contents {
        [version] if is_version(*version) => Ok(*version),
        _ => Err(DerError::BadValue),
    }
}

// The version that stands next, 0 or 1.
#[tactic(auto, unfolding(crate::specs::Forms::version, picky_der::specs::Primitive::primitive_at))]
pub fn read_version(reader: &mut DerReader<'_>) -> Result<u8, DerError>
    ensures { Reads (λ n. n) version.reading reader.old result reader.new }
{
    let mut ahead = reader.fork();
    let number = version_of(ahead.read_value(Tag::INTEGER)?)?;
    *reader = ahead;
    Ok(number)
}

fn stands_next(tag: Tag, reader: &DerReader<'_>) -> bool
    ensures { result ≡ stands_next (λ b. b == tag.0) reader.now.left }
{
    match reader.peek_tag() {
        Ok(peeker) => peeker.next_tag.0 == tag.0,
        Err(_) => false,
    }
}

#[tactic(auto, unfolding(crate::specs::Forms::attributes, picky_der::specs::Primitive::primitive_at))]
fn attributes(alloc: Global, reader: &mut DerReader<'_>) -> Result<Bytes, DerError>
    ensures { Reads (λ b. b) attributes.reading reader.old result reader.new }
{
    let mut ahead = reader.fork();
    let contents = ahead.read_value(ATTRIBUTES)?;
    let kept = Vec::from_slice(alloc, contents)?;
    *reader = ahead;
    Ok(Bytes::new(kept))
}

#[tactic(auto, unfolding(crate::specs::Forms::attributes, picky_fields::specs::Fields::optional_at))]
fn read_attributes(alloc: Global, reader: &mut DerReader<'_>) -> Result<Option<Bytes>, DerError>
    ensures { Reads (λ o. o) (optional attributes).reading reader.old result reader.new }
{
    if !stands_next(ATTRIBUTES, reader) {
        return Ok(None);
    }
    Ok(Some(attributes(alloc, reader)?))
}

// The octets of a BIT STRING: a count of unused bits from 0 to 7, and 0 where no octet follows.
fn counted_of(contents: &[u8]) -> Result<&[u8], DerError>
    ensures { Answers (λ x. x.now) result (counted_of contents.now) }
{
    let counted = match contents {
        [] => false,
        [count] => *count == 0,
        [count, ..] => *count < 8,
    };
    if !counted {
        return Err(DerError::BadValue);
    }
    Ok(contents)
}

#[tactic(auto, unfolding(crate::specs::Forms::public_bits, picky_der::specs::Primitive::primitive_at))]
fn public_bits(alloc: Global, reader: &mut DerReader<'_>) -> Result<Bytes, DerError>
    ensures { Reads (λ b. b) public_bits.reading reader.old result reader.new }
{
    let mut ahead = reader.fork();
    let bits = counted_of(ahead.read_value(PUBLIC_KEY)?)?;
    let kept = Vec::from_slice(alloc, bits)?;
    *reader = ahead;
    Ok(Bytes::new(kept))
}

#[tactic(auto, unfolding(crate::specs::Forms::public_bits, picky_fields::specs::Fields::optional_at))]
fn read_public_bits(alloc: Global, reader: &mut DerReader<'_>) -> Result<Option<Bytes>, DerError>
    ensures { Reads (λ o. o) (optional public_bits).reading reader.old result reader.new }
{
    if !stands_next(PUBLIC_KEY, reader) {
        return Ok(None);
    }
    Ok(Some(public_bits(alloc, reader)?))
}

// The outer value of a private key (RFC 5958 section 2): its algorithm, its octets, and the bits of its public key, where
// they are there, with their count.
#[derive(Drop)]
pub struct PrivateKeyInfo {
    pub version: u8,
    pub algorithm: AlgorithmIdentifier,
    pub octets: Bytes,
    pub attributes: Option<Bytes>,
    pub bits: Option<Bytes>,
}

impl Asn1Value for PrivateKeyInfo {
    ghost Meaning = { InfoValue };

    ghost meaning = { λ i. ((((i.version, i.algorithm), i.octets), i.attributes), i.bits) };
}

impl DerForm for PrivateKeyInfo {
    ghost Abstract = { InfoValue };

    ghost stands_for = { λ i. ((((i.version, i.algorithm), i.octets), i.attributes), i.bits) };

    ghost form = { private_info };

    ghost same_value = { λ _ _ e. e };
}

#[tactic(auto, unfolding(crate::specs::Forms::info_fields, picky_fields::specs::Fields::run_at))]
fn read_fields(alloc: Global, mut fields: DerReader<'_>) -> Result<PrivateKeyInfo, DerError>
    ensures { Gives ⟦<PrivateKeyInfo as DerForm>⟧.stands_for result (run_at info_fields.reading fields.entry.depth fields.entry.left) }
{
    let version = read_version(&mut fields)?;
    let algorithm = AlgorithmIdentifier::read_der(alloc, &mut fields)?;
    let octets = Bytes::new(read_octets(alloc, &mut fields)?);
    let attributes = read_attributes(alloc, &mut fields)?;
    let bits = read_public_bits(alloc, &mut fields)?;
    fields.end()?;
    Ok(PrivateKeyInfo {
        version,
        algorithm,
        octets,
        attributes,
        bits,
    })
}

impl DerRead for PrivateKeyInfo {
    fn begins_with(tag: Tag) -> bool {
        tag == Tag::SEQUENCE
    }

    fn read_der(alloc: Global, reader: &mut DerReader<'_>) -> Result<PrivateKeyInfo, DerError> {
        let mut ahead = reader.fork();
        let info = read_fields(alloc, ahead.nested(Tag::SEQUENCE)?)?;
        *reader = ahead;
        Ok(info)
    }

    ghost readable = { private_info_lawful.readable };
}
