// Bags are read, nested so many levels at most.
ghost use Rattle.std.specs.Prelude.{◌≡◌, length};
ghost use Rattle.picky_der.specs.Reading.{Gives, Reads};
ghost use Rattle.picky_fields.specs.Fields.{explicit, run_at, seen_at};
ghost use Rattle.picky_asn1_wrapper.specs.Lists.{items_at, list_form};
ghost use Rattle.picky_x509_safe_bags.specs.Kind.{other_of, other_cases, kind_of, held_cases};
ghost use Rattle.picky_x509_safe_bags.specs.Bag.{bag_fields, bag_within};
ghost use Rattle.picky_x509_safe_bags.specs.Levels.{GivesLevels, ReadsLevels};
ghost use Rattle.picky_x509_safe_bags.specs.Steps.{attributes_at, last_at};

use crate::safe_bag::{SafeBag, SafeBagKind};
use picky_asn1_oid::ObjectIdentifier;
use picky_asn1_tag::Tag;
use picky_asn1_wrapper::Asn1SetOf;
use picky_der::{DerError, DerRead, DerReader};
use picky_fields::read_explicit;
use picky_x509_algorithms::KnownIdentifier;
use picky_x509_bags::{Pkcs12Attribute, read_attributes};
use sqlite_items::Items;
use std::alloc::Global;

// What stands behind an identifier that isn't that of bags.
#[tactic(auto, unfolding(crate::specs::Kind::other_cases))]
fn read_other(
    alloc: Global,
    type_id: ObjectIdentifier,
    reader: &mut DerReader<'_>,
) -> Result<SafeBagKind, DerError>
    ensures { Reads (λ k. k) (seen_at other_of (other_cases.reading type_id)) reader.old result reader.new }
{
    if KnownIdentifier::KeyBag.is(&type_id) {
        return Ok(SafeBagKind::Key(read_explicit(alloc, 0, reader)?));
    }
    if KnownIdentifier::Pkcs8ShroudedKeyBag.is(&type_id) {
        return Ok(SafeBagKind::EncryptedKey(read_explicit(alloc, 0, reader)?));
    }
    if KnownIdentifier::CertBag.is(&type_id) {
        return Ok(SafeBagKind::Certificate(read_explicit(alloc, 0, reader)?));
    }
    if KnownIdentifier::CrlBag.is(&type_id) {
        return Ok(SafeBagKind::Crl(read_explicit(alloc, 0, reader)?));
    }
    if KnownIdentifier::SecretBag.is(&type_id) {
        return Ok(SafeBagKind::Secret(read_explicit(alloc, 0, reader)?));
    }
    let value = read_explicit(alloc, 0, reader)?;
    Ok(SafeBagKind::Unknown { type_id, value })
}

// The value, and the attributes that stand behind it.
fn with_attributes<T: Drop>(
    alloc: Global,
    value: T,
    reader: &mut DerReader<'_>,
) -> Result<(T, Option<Asn1SetOf<Pkcs12Attribute>>), DerError>
    ensures { Gives (λ x. (x, reader.new.left)) result (attributes_at value reader.old.depth reader.old.left) }
{
    let attributes = read_attributes(alloc, reader)?;
    Ok((value, attributes))
}

// The value, where nothing stands behind it.
fn at_end<T: Drop>(value: T, reader: &DerReader<'_>) -> Result<T, DerError>
    ensures { Gives (λ x. x) result (last_at value reader.now.left) }
{
    reader.end()?;
    Ok(value)
}

#[cycle(read)]
fn read_items(
    alloc: Global,
    reader: &mut DerReader<'_>,
    levels: u32,
) -> Result<Option<Vec<SafeBag>>, DerError>
    ensures { GivesLevels (λ v. v.items) result (λ deep. items_at ((bag_within deep levels).reading reader.old.depth) (length reader.old.left) reader.old.left) }
{
    let mut bags = Vec::new(alloc);
    while !reader.is_empty() {
        let Some(bag) = read_bag(alloc, reader, levels)? else {
            return Ok(None);
        };
        bags.push(bag)?;
    }
    Ok(Some(bags))
}

#[cycle(read)]
#[tactic(auto, unfolding(picky_asn1_wrapper::specs::Lists::list_at))]
pub fn read_list(
    alloc: Global,
    reader: &mut DerReader<'_>,
    levels: u32,
) -> Result<Option<Vec<SafeBag>>, DerError>
    ensures { ReadsLevels (λ v. v.items) (λ deep. (list_form (record { 0 = 48 }) (bag_within deep levels)).reading) reader.old result reader.new }
{
    let mut ahead = reader.fork();
    let mut inner = ahead.nested(Tag::SEQUENCE)?;
    let Some(bags) = read_items(alloc, &mut inner, levels)? else {
        return Ok(None);
    };
    *reader = ahead;
    Ok(Some(bags))
}

#[cycle(read)]
#[tactic(auto, unfolding(picky_fields::specs::Fields::explicit, picky_fields::specs::Fields::enclosed_at, picky_fields::specs::Fields::run_at))]
fn read_inner(
    alloc: Global,
    reader: &mut DerReader<'_>,
    levels: u32,
) -> Result<Option<Vec<SafeBag>>, DerError>
    ensures { ReadsLevels (λ v. v.items) (λ deep. (explicit 0 (list_form (record { 0 = 48 }) (bag_within deep levels))).reading) reader.old result reader.new }
{
    let mut ahead = reader.fork();
    let mut inner = ahead.nested(Tag(160))?;
    let Some(bags) = read_list(alloc, &mut inner, levels)? else {
        return Ok(None);
    };
    inner.end()?;
    *reader = ahead;
    Ok(Some(bags))
}

#[cycle(read)]
#[tactic(auto, unfolding(crate::specs::Kind::held_cases))]
fn read_kind(
    alloc: Global,
    type_id: ObjectIdentifier,
    reader: &mut DerReader<'_>,
    levels: u32,
) -> Result<Option<SafeBagKind>, DerError>
    ensures { ReadsLevels (λ k. k) (λ deep. seen_at kind_of ((held_cases (bag_within deep levels)).reading type_id)) reader.old result reader.new }
{
    if KnownIdentifier::SafeContentsBag.is(&type_id) {
        let Some(bags) = read_inner(alloc, reader, levels)? else {
            return Ok(None);
        };
        return Ok(Some(SafeBagKind::SafeContents(Items::from_vec(bags))));
    }
    Ok(Some(read_other(alloc, type_id, reader)?))
}

#[cycle(read)]
#[tactic(auto, unfolding(crate::specs::Bag::bag_fields, crate::specs::Bag::kind_field, picky_fields::specs::Fields::run_at))]
fn read_fields(
    alloc: Global,
    mut fields: DerReader<'_>,
    levels: u32,
) -> Result<Option<SafeBag>, DerError>
    ensures { GivesLevels (λ b. b) result (λ deep. run_at (bag_fields (bag_within deep levels)).reading fields.entry.depth fields.entry.left) }
{
    let type_id = ObjectIdentifier::read_der(alloc, &mut fields)?;
    let Some(kind) = read_kind(alloc, type_id, &mut fields, levels)? else {
        return Ok(None);
    };
    let (kind, attributes) = with_attributes(alloc, kind, &mut fields)?;
    Ok(Some(at_end(SafeBag { kind, attributes }, &fields)?))
}

#[cycle(read)]
#[tactic(auto, using(crate::specs::laws::Levels::within_above, crate::specs::laws::Levels::within_none), unfolding(picky_fields::specs::Fields::enclosed_at, crate::specs::Bag::no_bag_at))]
pub fn read_bag(
    alloc: Global,
    reader: &mut DerReader<'_>,
    levels: u32,
) -> Result<Option<SafeBag>, DerError>
    ensures { ReadsLevels (λ b. b) (λ deep. (bag_within deep levels).reading) reader.old result reader.new }
{
    if levels == 0 {
        reader.peek_tag()?;
        return Ok(None);
    }
    let mut ahead = reader.fork();
    let Some(bag) = read_fields(alloc, ahead.nested(Tag::SEQUENCE)?, levels - 1)? else {
        return Ok(None);
    };
    *reader = ahead;
    Ok(Some(bag))
}
