// The numbers of an RSA private key (RFC 8017 appendix A.1.2).
#![tactic(auto, unfolding(crate::specs::Forms::rsa_private, picky_fields::specs::Fields::enclosed_at))]

ghost use Rattle.std.specs.Prelude.{◌≡◌, ℕ, List};
ghost use Rattle.picky_der.specs.Reading.{Reads, Gives};
ghost use Rattle.picky_fields.specs.Fields.{run_at};
ghost use Rattle.picky_key_private.specs.Forms.{NumbersValue, public_numbers, private_numbers, rsa_fields, rsa_private};
ghost use Rattle.picky_key_private.specs.laws.Forms.{rsa_private_lawful};

use picky_asn1_bits::IntegerAsn1;
use picky_asn1_tag::{Asn1Value, Tag};
use picky_der::{DerError, DerForm, DerRead, DerReader};
use std::alloc::Global;

// Version, modulus and public exponent.
#[derive(Drop)]
pub struct PublicNumbers {
    pub version: IntegerAsn1,
    pub modulus: IntegerAsn1,
    pub public_exponent: IntegerAsn1,
}

// The private exponent, both primes, their exponents and the coefficient.
#[derive(Drop)]
pub struct PrivateNumbers {
    pub private_exponent: IntegerAsn1,
    pub first_prime: IntegerAsn1,
    pub second_prime: IntegerAsn1,
    pub first_exponent: IntegerAsn1,
    pub second_exponent: IntegerAsn1,
    pub coefficient: IntegerAsn1,
}

#[tactic(auto, unfolding(crate::specs::Forms::public_numbers))]
fn read_public(alloc: Global, reader: &mut DerReader<'_>) -> Result<PublicNumbers, DerError>
    ensures { Reads (λ n. ((n.version.0, n.modulus.0), n.public_exponent.0)) public_numbers.reading reader.old result reader.new }
{
    let mut ahead = reader.fork();
    let version = IntegerAsn1::read_der(alloc, &mut ahead)?;
    let modulus = IntegerAsn1::read_der(alloc, &mut ahead)?;
    let public_exponent = IntegerAsn1::read_der(alloc, &mut ahead)?;
    *reader = ahead;
    Ok(PublicNumbers {
        version,
        modulus,
        public_exponent,
    })
}

#[tactic(auto, unfolding(crate::specs::Forms::private_numbers))]
fn read_private(alloc: Global, reader: &mut DerReader<'_>) -> Result<PrivateNumbers, DerError>
    ensures { Reads (λ n. (((((n.private_exponent.0, n.first_prime.0), n.second_prime.0), n.first_exponent.0), n.second_exponent.0), n.coefficient.0)) private_numbers.reading reader.old result reader.new }
{
    let mut ahead = reader.fork();
    let private_exponent = IntegerAsn1::read_der(alloc, &mut ahead)?;
    let first_prime = IntegerAsn1::read_der(alloc, &mut ahead)?;
    let second_prime = IntegerAsn1::read_der(alloc, &mut ahead)?;
    let first_exponent = IntegerAsn1::read_der(alloc, &mut ahead)?;
    let second_exponent = IntegerAsn1::read_der(alloc, &mut ahead)?;
    let coefficient = IntegerAsn1::read_der(alloc, &mut ahead)?;
    *reader = ahead;
    Ok(PrivateNumbers {
        private_exponent,
        first_prime,
        second_prime,
        first_exponent,
        second_exponent,
        coefficient,
    })
}

// All nine numbers.
#[derive(Drop)]
pub struct RsaPrivateKey {
    pub shown: PublicNumbers,
    pub hidden: PrivateNumbers,
}

impl Asn1Value for RsaPrivateKey {
    ghost Meaning = { NumbersValue };

    ghost meaning = { λ k. (((k.shown.version.0, k.shown.modulus.0), k.shown.public_exponent.0), (((((k.hidden.private_exponent.0, k.hidden.first_prime.0), k.hidden.second_prime.0), k.hidden.first_exponent.0), k.hidden.second_exponent.0), k.hidden.coefficient.0)) };
}

impl DerForm for RsaPrivateKey {
    ghost Abstract = { NumbersValue };

    ghost stands_for = { ⟦<RsaPrivateKey as Asn1Value>⟧.meaning };

    ghost form = { rsa_private };

    ghost same_value = { λ _ _ e. e };
}

#[tactic(auto, unfolding(crate::specs::Forms::rsa_fields, picky_fields::specs::Fields::run_at))]
fn read_numbers(alloc: Global, mut fields: DerReader<'_>) -> Result<RsaPrivateKey, DerError>
    ensures { Gives ⟦<RsaPrivateKey as DerForm>⟧.stands_for result (run_at rsa_fields.reading fields.entry.depth fields.entry.left) }
{
    let shown = read_public(alloc, &mut fields)?;
    let hidden = read_private(alloc, &mut fields)?;
    fields.end()?;
    Ok(RsaPrivateKey { shown, hidden })
}

impl DerRead for RsaPrivateKey {
    fn begins_with(tag: Tag) -> bool {
        tag == Tag::SEQUENCE
    }

    fn read_der(alloc: Global, reader: &mut DerReader<'_>) -> Result<RsaPrivateKey, DerError> {
        let mut ahead = reader.fork();
        let key = read_numbers(alloc, ahead.nested(Tag::SEQUENCE)?)?;
        *reader = ahead;
        Ok(key)
    }

    ghost readable = { rsa_private_lawful.readable };
}
