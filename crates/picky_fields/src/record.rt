// Records: types that are a SEQUENCE of fields.
ghost use Rattle.std.specs.Prelude.{◌≡◌, []};
ghost use Rattle.picky_der.specs.Reading.{Reads};
ghost use Rattle.picky_der.specs.Form.{Writes};
ghost use Rattle.picky_fields.specs.Fields.{sequence};
ghost use Rattle.picky_fields.specs.Records.{FieldsOf, ReadsFields, WritesFields};

use picky_asn1_tag::Tag;
use picky_der::{DerError, DerForm, DerReader, write_value};
use std::alloc::Global;

/// A type whose values are a SEQUENCE of fields. What `read_record` and `write_record` ask of it.
pub trait DerRecord: DerForm {
    /// The fields, and what a value is seen as.
    ghost fields: { FieldsOf Self };

    /// Reads the fields, and stays wherever it is after a refusal.
    ///
    /// A refusal is the fault at the first bad place, or `OutOfMemory`.
    fn read_fields(alloc: Global, reader: &mut DerReader<'_>) -> Result<Self, DerError>
        ensures { ReadsFields fields.view fields.run reader.old result reader.new };

    /// Writes the fields into an empty vector, and leaves it anyhow after a refusal.
    ///
    /// `BadValue` where a field has no encoding.
    fn write_fields(&self, alloc: Global, out: &mut Vec<u8>) -> Result<(), DerError>
        requires { out.old.items ≡ [] }
        ensures { WritesFields fields.run (fields.view self.now) result out.new.items };
}

/// The record that stands next, a SEQUENCE of its fields with nothing after them; the reader then stands just past it.
///
/// A refusal is the fault at the first bad place, or `OutOfMemory`, and leaves the reader where it stood.
#[tactic(auto, unfolding(crate::specs::Fields::enclosed_at, crate::specs::Fields::run_at))]
pub fn read_record<T: DerRecord + Drop>(
    alloc: Global,
    reader: &mut DerReader<'_>,
) -> Result<T, DerError>
    ensures { Reads T.fields.view (sequence T.fields.run).reading reader.old result reader.new }
{
    let mut ahead = reader.fork();
    let mut fields = ahead.nested(Tag::SEQUENCE)?;
    let value = T::read_fields(alloc, &mut fields)?;
    fields.end()?;
    *reader = ahead;
    Ok(value)
}

/// Adds the encoding of the record at the end.
///
/// `BadValue` where a field has no encoding; a refusal changes nothing.
pub fn write_record<T: DerRecord>(
    alloc: Global,
    value: &T,
    out: &mut Vec<u8>,
) -> Result<(), DerError>
    ensures { Writes (λ s. (sequence T.fields.run).Encodes s (T.fields.view value.now)) ((sequence T.fields.run).Refused (T.fields.view value.now)) result out.old.items out.new.items }
{
    let mut fields = Vec::new(alloc);
    value.write_fields(alloc, &mut fields)?;
    write_value(out, Tag::SEQUENCE, &fields)
}
