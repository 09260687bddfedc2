// Values of one type, one after another. After a refusal the reader stands, and the vector ends, somewhere among them: the
// callers hand in ones of their own.
ghost use Rattle.std.specs.Prelude.{◌≡◌, [], ◌⊎◌, length, map, OnOk, IfOk, IfErr};
ghost use Rattle.picky_der.specs.declared.fault.DerError.TheVariants.{OutOfMemory, BadValue};
ghost use Rattle.picky_der.specs.Reading.{Gives};
ghost use Rattle.picky_asn1_wrapper.specs.Lists.{SpellsAll, SomeRefused, items_at};

use picky_asn1_tag::CopyIn;
use picky_der::{DerError, DerRead, DerReader, DerWrite};
use std::alloc::{AllocError, Global};

/// Reads values up to the end of the reader.
pub(crate) fn read_items<T: DerRead + Drop>(
    alloc: Global,
    reader: &mut DerReader<'_>,
) -> Result<Vec<T>, DerError>
    ensures { Gives (λ v. map T.stands_for v.items) result (items_at (T.form.reading reader.old.depth) (length reader.old.left) reader.old.left) }
{
    let mut items = Vec::new(alloc);
    while !reader.is_empty() {
        items.push(T::read_der(alloc, reader)?)?;
    }
    Ok(items)
}

/// Writes values one after another into an empty vector.
pub(crate) fn write_items<T: DerWrite>(
    alloc: Global,
    items: &[T],
    out: &mut Vec<u8>,
) -> Result<(), DerError>
    requires { out.old.items ≡ [] }
    ensures ok { OnOk result (SpellsAll T.form.Encodes out.new.items (map T.stands_for items.now)) }
    ensures err { IfErr result (λ e. (e ≡ OutOfMemory) ⊎ ((e ≡ BadValue) × SomeRefused T.form.Refused (map T.stands_for items.now))) }
{
    for item in items {
        item.write_der(alloc, out)?;
    }
    Ok(())
}

/// A copy of each value, in order.
pub(crate) fn copy_items<T: CopyIn + Drop>(alloc: Global, items: &[T]) -> Result<Vec<T>, AllocError>
    ensures { IfOk result (λ copies. map T.meaning copies.items ≡ map T.meaning items.now) }
{
    let mut copies = Vec::new(alloc);
    for item in items {
        copies.push(item.copy_in(alloc)?)?;
    }
    Ok(copies)
}
