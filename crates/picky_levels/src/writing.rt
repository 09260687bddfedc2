// Records are written, nested at most so many levels.
ghost use Rattle.std.specs.Prelude.{◌≡◌, ◌⊎◌, [], OnOk, IfErr};
ghost use Rattle.picky_der.specs.declared.fault.DerError.TheVariants.{OutOfMemory, BadValue};
ghost use Rattle.picky_der.specs.Form.{Writes};
ghost use Rattle.picky_fields.specs.Records.{WritesFields};
ghost use Rattle.picky_asn1_wrapper.specs.Lists.{SpellsAll, SomeRefused};
ghost use Rattle.picky_levels.specs.Nests.{items_form, held, nest_form};

use crate::nested::DerNested;
use picky_asn1_tag::Tag;
use picky_der::{DerError, write_value};
use std::alloc::Global;

#[cycle(write)]
fn write_items<T: DerNested>(
    alloc: Global,
    items: &[T],
    levels: u32,
    out: &mut Vec<u8>,
) -> Result<(), DerError>
    requires { out.old.items ≡ [] }
    ensures ok { OnOk result (SpellsAll (nest_form T.nest levels).Encodes out.new.items items.now) }
    ensures err { IfErr result (λ e. (e ≡ OutOfMemory) ⊎ ((e ≡ BadValue) × SomeRefused (nest_form T.nest levels).Refused items.now)) }
{
    for item in items {
        write_levels(alloc, item, levels, out)?;
    }
    Ok(())
}

#[cycle(write)]
#[tactic(auto, unfolding(picky_fields::specs::Fields::explicit))]
fn write_contents<T: DerNested>(
    alloc: Global,
    items: &[T],
    levels: u32,
    out: &mut Vec<u8>,
) -> Result<(), DerError>
    ensures { Writes (λ s. (items_form (nest_form T.nest levels)).Encodes s items.now) ((items_form (nest_form T.nest levels)).Refused items.now) result out.old.items out.new.items }
{
    let mut contents = Vec::new(alloc);
    write_items(alloc, items, levels, &mut contents)?;
    let mut list = Vec::new(alloc);
    write_value(&mut list, Tag::SEQUENCE, &contents)?;
    write_value(out, Tag(160), &list)
}

#[cycle(write)]
#[tactic(auto, using(crate::specs::laws::Steps::held_writes, crate::specs::laws::Steps::held_other, crate::specs::laws::Steps::front_refused))]
fn write_held<T: DerNested>(
    alloc: Global,
    value: &T,
    levels: u32,
    out: &mut Vec<u8>,
) -> Result<(), DerError>
    requires { out.old.items ≡ [] }
    ensures { WritesFields (held T.nest (nest_form T.nest levels)) (T.nest.parts value.now).0 result out.new.items }
{
    value.write_front(alloc, out)?;
    match value.items() {
        Some(items) => write_contents(alloc, items, levels, out),
        None => Ok(()),
    }
}

/// Adds the encoding of the record at the end, where records are nested at most so many levels.
///
/// `BadValue` where they are nested deeper, or something in them has no encoding; a refusal changes nothing.
#[cycle(write)]
#[tactic(auto, using(picky_fields::specs::laws::Levels::levels_encode_above, picky_fields::specs::laws::Levels::levels_refused_above, picky_fields::specs::laws::Levels::levels_refused_zero), unfolding(crate::specs::Nests::nest_fields))]
pub fn write_levels<T: DerNested>(
    alloc: Global,
    value: &T,
    levels: u32,
    out: &mut Vec<u8>,
) -> Result<(), DerError>
    ensures { Writes (λ s. (nest_form T.nest levels).Encodes s value.now) ((nest_form T.nest levels).Refused value.now) result out.old.items out.new.items }
{
    if levels == 0 {
        return Err(DerError::BadValue);
    }
    let mut fields = Vec::new(alloc);
    write_held(alloc, value, levels - 1, &mut fields)?;
    value.write_behind(alloc, &mut fields)?;
    write_value(out, Tag::SEQUENCE, &fields)
}
