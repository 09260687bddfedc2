// Records are read, nested at most so many levels.
ghost use Rattle.std.specs.Prelude.{◌≡◌, length};
ghost use Rattle.picky_fields.specs.Levels.{GivesLevels, ReadsLevels};
ghost use Rattle.picky_asn1_wrapper.specs.Lists.{items_at};
ghost use Rattle.picky_levels.specs.Nests.{items_form, nest_fields, nest_form};

use crate::nested::DerNested;
use picky_asn1_oid::ObjectIdentifier;
use picky_asn1_tag::Tag;
use picky_der::{DerError, DerRead, DerReader};
use sqlite_items::Items;
use std::alloc::Global;

#[cycle(read)]
fn read_items<T: DerNested + Drop>(
    alloc: Global,
    reader: &mut DerReader<'_>,
    levels: u32,
) -> Result<Option<Vec<T>>, DerError>
    ensures { GivesLevels (λ v. v.items) result (items_at ((nest_form T.nest levels).reading reader.old.depth) (length reader.old.left) reader.old.left) }
{
    let mut items = Vec::new(alloc);
    while !reader.is_empty() {
        let Some(item) = read_levels(alloc, reader, levels)? else {
            return Ok(None);
        };
        items.push(item)?;
    }
    Ok(Some(items))
}

#[cycle(read)]
#[tactic(auto, unfolding(picky_fields::specs::Fields::explicit, picky_fields::specs::Fields::enclosed_at, picky_fields::specs::Fields::run_at, picky_asn1_wrapper::specs::Lists::list_at))]
fn read_contents<T: DerNested + Drop>(
    alloc: Global,
    reader: &mut DerReader<'_>,
    levels: u32,
) -> Result<Option<Vec<T>>, DerError>
    ensures { ReadsLevels (λ v. v.items) (items_form (nest_form T.nest levels)).reading reader.old result reader.new }
{
    let mut ahead = reader.fork();
    let mut inner = ahead.nested(Tag(160))?;
    let mut list = inner.nested(Tag::SEQUENCE)?;
    let Some(items) = read_items(alloc, &mut list, levels)? else {
        return Ok(None);
    };
    inner.end()?;
    *reader = ahead;
    Ok(Some(items))
}

#[cycle(read)]
#[tactic(auto, unfolding(crate::specs::Nests::nest_fields, crate::specs::Nests::held))]
fn read_fields<T: DerNested + Drop>(
    alloc: Global,
    reader: &mut DerReader<'_>,
    levels: u32,
) -> Result<Option<T>, DerError>
    ensures { GivesLevels (λ x. (x, reader.new.left)) result ((nest_fields T.nest (nest_form T.nest levels)).reading reader.old.depth reader.old.left) }
{
    let kind = ObjectIdentifier::read_der(alloc, reader)?;
    if T::is_items(&kind) {
        let Some(items) = read_contents(alloc, reader, levels)? else {
            return Ok(None);
        };
        return Ok(Some(T::read_behind(alloc, Items::from_vec(items), reader)?));
    }
    Ok(Some(T::read_other(alloc, kind, reader)?))
}

/// The record that stands next, where records are nested at most so many levels: one that holds none has one. None exactly where a
/// record stands deeper and no bad place comes before it; a record stands wherever a further byte does at a record's place.
///
/// A refusal is the fault at the first bad place, or `OutOfMemory`; it leaves the reader where it stood, and so does None.
#[cycle(read)]
#[tactic(auto, using(picky_fields::specs::laws::Levels::levels_at_above, picky_fields::specs::laws::Levels::levels_at_zero), unfolding(picky_fields::specs::Fields::enclosed_at, picky_fields::specs::Fields::run_at, picky_fields::specs::Levels::no_level_at))]
pub fn read_levels<T: DerNested + Drop>(
    alloc: Global,
    reader: &mut DerReader<'_>,
    levels: u32,
) -> Result<Option<T>, DerError>
    ensures { ReadsLevels (λ x. x) (nest_form T.nest levels).reading reader.old result reader.new }
{
    if levels == 0 {
        reader.peek_tag()?;
        return Ok(None);
    }
    let mut ahead = reader.fork();
    let mut fields = ahead.nested(Tag::SEQUENCE)?;
    let Some(record) = read_fields(alloc, &mut fields, levels - 1)? else {
        return Ok(None);
    };
    fields.end()?;
    *reader = ahead;
    Ok(Some(record))
}
