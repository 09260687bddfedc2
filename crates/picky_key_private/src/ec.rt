// The number of a key on a curve (RFC 5915 section 3).
#![tactic(auto, unfolding(crate::specs::Forms::ec_private, picky_fields::specs::Fields::enclosed_at))]

ghost use Rattle.std.specs.Prelude.{◌≡◌, ℕ, List};
ghost use Rattle.std.specs.Option.{option_map};
ghost use Rattle.picky_der.specs.Reading.{Reads, Gives};
ghost use Rattle.picky_fields.specs.Fields.{only, run_at};
ghost use Rattle.picky_key_private.specs.Forms.{version, is_one, EcValue, ec_fields, ec_private};
ghost use Rattle.picky_key_private.specs.laws.Forms.{ec_private_lawful};

use crate::info::read_version;
use picky_asn1_oid::ObjectIdentifier;
use picky_asn1_tag::{Asn1Value, Tag};
use picky_contract::Bytes;
use picky_der::{DerError, DerForm, DerRead, DerReader};
use picky_fields::{read_octets, read_optional_explicit};
use picky_key_der::WholeBits;
use std::alloc::Global;

// The version that stands next, which is 1.
#[tactic(auto, unfolding(picky_fields::specs::Fields::only_at))]
fn read_one(reader: &mut DerReader<'_>) -> Result<(), DerError>
    ensures { Reads (λ x. x) (only 1 is_one version).reading reader.old result reader.new }
{
    let mut ahead = reader.fork();
    let number = read_version(&mut ahead)?;
    if number != 1 {
        return Err(DerError::BadValue);
    }
    *reader = ahead;
    Ok(())
}

// The number, and the curve and the point where they are there.
#[derive(Drop)]
pub struct EcPrivateKey {
    pub number: Bytes,
    pub curve: Option<ObjectIdentifier>,
    pub point: Option<WholeBits>,
}

impl Asn1Value for EcPrivateKey {
    ghost Meaning = { EcValue };

    ghost meaning = { λ k. (((tt, k.number), option_map (λ o. o) k.curve), option_map (λ b. b.0) k.point) };
}

impl DerForm for EcPrivateKey {
    ghost Abstract = { EcValue };

    ghost stands_for = { ⟦<EcPrivateKey as Asn1Value>⟧.meaning };

    ghost form = { ec_private };

    ghost same_value = { λ _ _ e. e };
}

#[tactic(auto, unfolding(crate::specs::Forms::ec_fields, picky_fields::specs::Fields::run_at))]
fn read_fields(alloc: Global, mut fields: DerReader<'_>) -> Result<EcPrivateKey, DerError>
    ensures { Gives ⟦<EcPrivateKey as DerForm>⟧.stands_for result (run_at ec_fields.reading fields.entry.depth fields.entry.left) }
{
    read_one(&mut fields)?;
    let number = Bytes::new(read_octets(alloc, &mut fields)?);
    let curve = read_optional_explicit(alloc, 0, &mut fields)?;
    let point = read_optional_explicit(alloc, 1, &mut fields)?;
    fields.end()?;
    Ok(EcPrivateKey {
        number,
        curve,
        point,
    })
}

impl DerRead for EcPrivateKey {
    fn begins_with(tag: Tag) -> bool {
        tag == Tag::SEQUENCE
    }

    fn read_der(alloc: Global, reader: &mut DerReader<'_>) -> Result<EcPrivateKey, DerError> {
        let mut ahead = reader.fork();
        let key = read_fields(alloc, ahead.nested(Tag::SEQUENCE)?)?;
        *reader = ahead;
        Ok(key)
    }

    ghost readable = { ec_private_lawful.readable };
}
