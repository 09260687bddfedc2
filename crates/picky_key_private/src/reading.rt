// Reading private keys.
ghost use Rattle.std.specs.Prelude.{◌≡◌};
ghost use Rattle.std.specs.Option.{option_map};
ghost use Rattle.picky_contract.specs.Refusals.{Meets};
ghost use Rattle.picky_der.specs.Reading.{whole_bytes};
ghost use Rattle.picky_key_der.specs.Errors.{key_fault, read};
ghost use Rattle.picky_key_der.specs.declared.kind.PrivateKeyKind.TheVariants.{Rsa, Ec, Ed};
ghost use Rattle.picky_key_der.specs.Public.{HasName};
ghost use Rattle.picky_key_private.specs.Reading.{rsa_said_table, behind_table, part_table, first_of, parts_table, ec_said_table, sized_table, ed_said_table, kind_said_table, said_table};

use crate::ec::EcPrivateKey;
use crate::info::PrivateKeyInfo;
use crate::rsa::RsaPrivateKey;
use picky_asn1_bits::OctetStringAsn1;
use picky_contract::Bytes;
use picky_der::DerError;
use picky_key_der::{
    EdAlgorithm, KeyError, NamedEcCurve, PrivateKeyKind, PublicKey, WholeBits, read_held,
    read_kind, read_whole,
};
use std::alloc::Global;

// What bytes say of a key: its kind, and its public part where there is one.
#[derive(Drop)]
pub struct Said {
    pub kind: PrivateKeyKind,
    pub public_part: Option<PublicKey>,
}

// The public part of an RSA key.
#[tactic(auto, unfolding(crate::specs::Reading::rsa_said_table))]
fn rsa_part(alloc: Global, octets: &[u8]) -> Result<Option<PublicKey>, KeyError>
    ensures { Meets (λ o. (Rsa, o)) key_fault result (rsa_said_table octets.now) }
{
    let key: RsaPrivateKey = read_whole(alloc, octets)?;
    let part = PublicKey::from_rsa_components(key.shown.modulus, key.shown.public_exponent);
    Ok(Some(part))
}

// The bytes of bits that have no unused ones.
#[tactic(auto, unfolding(picky_der::specs::Reading::whole_bytes))]
fn without_count(alloc: Global, bits: &[u8]) -> Result<Bytes, KeyError>
    ensures { Meets (λ b. b) key_fault result (read (whole_bytes bits.now)) }
{
    match bits {
        [] => Err(KeyError::Der(DerError::BadValue)),
        [0, bytes @ ..] => Ok(Bytes::new(Vec::from_slice(alloc, bytes)?)),
        [_, ..] => Err(KeyError::Der(DerError::BadValue)),
    }
}

// The bytes of the bits after the attributes, where they are there.
fn behind(alloc: Global, bits: &Option<Bytes>) -> Result<Option<Bytes>, KeyError>
    ensures { Meets (λ o. o) key_fault result (behind_table bits.now) }
{
    match bits {
        Some(bits) => Ok(Some(without_count(alloc, bits.as_slice())?)),
        None => Ok(None),
    }
}

// The public key of a kind, where its bits are there.
fn part(
    alloc: Global,
    kind: &PrivateKeyKind,
    bits: Option<Bytes>,
) -> Result<Option<PublicKey>, KeyError>
    requires { HasName kind.now }
    ensures { Meets (λ o. o) key_fault result (part_table kind.now bits) }
{
    match bits {
        Some(bits) => Ok(Some(read_held(alloc, kind.clone(alloc)?, bits)?)),
        None => Ok(None),
    }
}

// The first that is there.
fn first_of(first: Option<PublicKey>, second: Option<PublicKey>) -> Option<PublicKey>
    ensures { result ≡ first_of first second }
{
    first.or(second)
}

fn bits_of(point: Option<WholeBits>) -> Option<Bytes>
    ensures { result ≡ option_map (λ b. b.0) point }
{
    match point {
        Some(bits) => Some(bits.0),
        None => None,
    }
}

// The public key beside the number, or else the one after the attributes.
#[tactic(auto, unfolding(crate::specs::Reading::parts_table))]
fn parts(
    alloc: Global,
    kind: &PrivateKeyKind,
    beside: Option<Bytes>,
    behind: Option<Bytes>,
) -> Result<Option<PublicKey>, KeyError>
    requires { HasName kind.now }
    ensures { Meets (λ o. o) key_fault result (parts_table kind.now beside behind) }
{
    let first = part(alloc, kind, beside)?;
    match part(alloc, kind, behind) {
        Ok(second) => Ok(first_of(first, second)),
        Err(error) => {
            drop(first);
            Err(error)
        }
    }
}

// The public part of a key on a curve.
#[tactic(auto, unfolding(crate::specs::Reading::ec_said_table))]
fn ec_part(
    alloc: Global,
    kind: &PrivateKeyKind,
    curve: &NamedEcCurve,
    octets: &[u8],
    bits: &Option<Bytes>,
) -> Result<Option<PublicKey>, KeyError>
    requires is { kind.now ≡ Ec curve.now }
    requires named { HasName kind.now }
    ensures { Meets (λ o. (kind.now, o)) key_fault result (ec_said_table curve.now octets.now bits.now) }
{
    let key: EcPrivateKey = read_whole(alloc, octets)?;
    match behind(alloc, bits) {
        Ok(behind) => parts(alloc, kind, bits_of(key.point), behind),
        Err(error) => {
            drop(key);
            Err(error)
        }
    }
}

// The size of an Edwards key in bytes (RFC 8032 section 5.1.5; RFC 7748 section 6.1).
const ED_SIZE: usize = 32;

// The public key after the attributes, where the secret has 32 bytes.
#[tactic(auto, unfolding(crate::specs::Reading::sized_table))]
fn sized(
    alloc: Global,
    kind: &PrivateKeyKind,
    algorithm: EdAlgorithm,
    secret: &[u8],
    behind: Option<Bytes>,
) -> Result<Option<PublicKey>, KeyError>
    requires { kind.now ≡ Ed algorithm }
    ensures { Meets (λ o. o) key_fault result (sized_table algorithm secret.now behind) }
{
    if secret.len() != ED_SIZE {
        return Err(KeyError::BadSize {
            expected: ED_SIZE,
            got: secret.len(),
        });
    }
    part(alloc, kind, behind)
}

// The public part of an Edwards key.
#[tactic(auto, unfolding(crate::specs::Reading::ed_said_table))]
fn ed_part(
    alloc: Global,
    kind: &PrivateKeyKind,
    algorithm: EdAlgorithm,
    octets: &[u8],
    bits: &Option<Bytes>,
) -> Result<Option<PublicKey>, KeyError>
    requires { kind.now ≡ Ed algorithm }
    ensures { Meets (λ o. (kind.now, o)) key_fault result (ed_said_table algorithm octets.now bits.now) }
{
    let secret: OctetStringAsn1 = read_whole(alloc, octets)?;
    let behind = behind(alloc, bits)?;
    sized(alloc, kind, algorithm, secret.0.as_slice(), behind)
}

// The public part of a key of the kind.
fn kind_part(
    alloc: Global,
    kind: &PrivateKeyKind,
    octets: &[u8],
    bits: &Option<Bytes>,
) -> Result<Option<PublicKey>, KeyError>
    requires { HasName kind.now }
    ensures { Meets (λ o. (kind.now, o)) key_fault result (kind_said_table kind.now octets.now bits.now) }
{
    match kind {
        PrivateKeyKind::Rsa => rsa_part(alloc, octets),
        PrivateKeyKind::Ec { curve } => ec_part(alloc, kind, curve, octets, bits),
        PrivateKeyKind::Ed { algorithm } => ed_part(alloc, kind, *algorithm, octets, bits),
    }
}

// What PKCS #8 bytes say of a key.
#[tactic(auto, unfolding(crate::specs::Reading::said_table))]
pub fn read_said(alloc: Global, bytes: &[u8]) -> Result<Said, KeyError>
    ensures { Meets (λ s. (s.kind, s.public_part)) key_fault result (said_table bytes.now) }
{
    let info: PrivateKeyInfo = read_whole(alloc, bytes)?;
    let kind = read_kind(alloc, info.algorithm)?;
    match kind_part(alloc, &kind, info.octets.as_slice(), &info.bits) {
        Ok(public_part) => Ok(Said { kind, public_part }),
        Err(error) => {
            drop(kind);
            Err(error)
        }
    }
}
