// Bags are written, however deep.
ghost use Rattle.std.specs.Prelude.{◌≡◌, [], ◌⊎◌, OnOk, IfErr};
ghost use Rattle.picky_der.specs.declared.fault.DerError.TheVariants.{OutOfMemory, BadValue};
ghost use Rattle.picky_der.specs.Form.{Writes};
ghost use Rattle.picky_fields.specs.Fields.{explicit, identifier, one, ◌and◌, sequence};
ghost use Rattle.picky_fields.specs.Records.{WritesFields};
ghost use Rattle.picky_asn1_wrapper.specs.Lists.{SpellsAll, SomeRefused};
ghost use Rattle.picky_x509_algorithms.specs.Identifiers.{arcs};
ghost use Rattle.picky_x509_safe_bags.specs.Kind.{bag_list};
ghost use Rattle.picky_x509_safe_bags.specs.Bag.{kind_field, bag_fields, safe_bag};

use crate::safe_bag::{SafeBag, SafeBagKind};
use picky_asn1_tag::Tag;
use picky_der::{DerError, DerWrite, write_value};
use picky_fields::write_explicit;
use picky_x509_algorithms::KnownIdentifier;
use picky_x509_bags::write_attributes;
use std::alloc::Global;

#[cycle(write)]
fn write_items(alloc: Global, bags: &[SafeBag], out: &mut Vec<u8>) -> Result<(), DerError>
    requires { out.old.items ≡ [] }
    ensures ok { OnOk result (SpellsAll safe_bag.Encodes out.new.items bags.now) }
    ensures err { IfErr result (λ e. (e ≡ OutOfMemory) ⊎ ((e ≡ BadValue) × SomeRefused safe_bag.Refused bags.now)) }
{
    for bag in bags {
        write_bag(alloc, bag, out)?;
    }
    Ok(())
}

#[cycle(write)]
fn write_list(alloc: Global, bags: &[SafeBag], out: &mut Vec<u8>) -> Result<(), DerError>
    ensures { Writes (λ s. (bag_list safe_bag).Encodes s bags.now) ((bag_list safe_bag).Refused bags.now) result out.old.items out.new.items }
{
    let mut contents = Vec::new(alloc);
    write_items(alloc, bags, &mut contents)?;
    write_value(out, Tag::SEQUENCE, &contents)
}

#[cycle(write)]
#[tactic(auto, unfolding(picky_fields::specs::Fields::explicit))]
fn write_inner(alloc: Global, bags: &[SafeBag], out: &mut Vec<u8>) -> Result<(), DerError>
    ensures { Writes (λ s. (explicit 0 (bag_list safe_bag)).Encodes s bags.now) ((explicit 0 (bag_list safe_bag)).Refused bags.now) result out.old.items out.new.items }
{
    let mut contents = Vec::new(alloc);
    write_list(alloc, bags, &mut contents)?;
    write_value(out, Tag(160), &contents)
}

// An identifier and the value behind it, into an empty vector.
fn write_known<T: DerWrite>(
    alloc: Global,
    id: KnownIdentifier,
    value: &T,
    out: &mut Vec<u8>,
) -> Result<(), DerError>
    requires { out.old.items ≡ [] }
    ensures { WritesFields (one identifier and one (explicit 0 T.form)) (arcs id, T.stands_for value.now) result out.new.items }
{
    id.write(out)?;
    write_explicit(alloc, 0, value, out)
}

// The identifier and the value, into an empty vector.
#[cycle(write)]
#[tactic(auto, unfolding(crate::specs::Bag::kind_field, crate::specs::Kind::held_cases, crate::specs::Kind::other_cases))]
fn write_kind(alloc: Global, kind: &SafeBagKind, out: &mut Vec<u8>) -> Result<(), DerError>
    requires { out.old.items ≡ [] }
    ensures ok { OnOk result ((kind_field safe_bag).Encodes out.new.items kind.now) }
    ensures err { IfErr result (λ e. (e ≡ OutOfMemory) ⊎ ((e ≡ BadValue) × (kind_field safe_bag).Refused kind.now)) }
{
    match kind {
        SafeBagKind::Key(key) => write_known(alloc, KnownIdentifier::KeyBag, key, out),
        SafeBagKind::EncryptedKey(bag) => {
            write_known(alloc, KnownIdentifier::Pkcs8ShroudedKeyBag, bag, out)
        }
        SafeBagKind::Certificate(bag) => write_known(alloc, KnownIdentifier::CertBag, bag, out),
        SafeBagKind::Crl(crl) => write_known(alloc, KnownIdentifier::CrlBag, crl, out),
        SafeBagKind::Secret(bag) => write_known(alloc, KnownIdentifier::SecretBag, bag, out),
        SafeBagKind::SafeContents(bags) => {
            KnownIdentifier::SafeContentsBag.write(out)?;
            write_inner(alloc, bags.as_slice(), out)
        }
        SafeBagKind::Unknown { type_id, value } => {
            type_id.write_der(alloc, out)?;
            write_explicit(alloc, 0, value, out)
        }
    }
}

#[cycle(write)]
#[tactic(auto, unfolding(crate::specs::Bag::bag_fields))]
fn write_layer(alloc: Global, bag: &SafeBag, out: &mut Vec<u8>) -> Result<(), DerError>
    ensures { Writes (λ s. (sequence (bag_fields safe_bag)).Encodes s bag.now) ((sequence (bag_fields safe_bag)).Refused bag.now) result out.old.items out.new.items }
{
    let mut fields = Vec::new(alloc);
    write_kind(alloc, &bag.kind, &mut fields)?;
    write_attributes(alloc, &bag.attributes, &mut fields)?;
    write_value(out, Tag::SEQUENCE, &fields)
}

// Adds the encoding of the bag at the end; a refusal changes nothing.
#[cycle(write)]
#[tactic(auto, using(crate::specs::laws::Bag::layer_writes))]
pub fn write_bag(alloc: Global, bag: &SafeBag, out: &mut Vec<u8>) -> Result<(), DerError>
    ensures { Writes (λ s. safe_bag.Encodes s bag.now) (safe_bag.Refused bag.now) result out.old.items out.new.items }
{
    write_layer(alloc, bag, out)
}
