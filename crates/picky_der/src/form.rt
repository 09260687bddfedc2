// What a type is as DER, and the calls that read and write it.
ghost use Rattle.std.specs.Prelude.{◌≡◌, ◌++◌, ◌⊎◌, List, ℕ, Ok, [], IfOk, IfErr};
ghost use Rattle.picky_asn1_tag.specs.declared.tag.Tag.{Tag as Octet};
ghost use Rattle.picky_der.specs.declared.fault.DerError.TheVariants.{OutOfMemory, BadValue};
ghost use Rattle.picky_der.specs.Reading.{Reads, Gives, raw_at};
ghost use Rattle.picky_der.specs.Form.{Form, Readable, Writable, Tagged, Writes, OkUnlessDeep, whole};

use crate::fault::DerError;
use crate::reader::DerReader;
use picky_asn1_tag::{Asn1Type, Asn1Value, Tag};
use std::alloc::Global;

/// What a type is as DER: its abstract values, which of them are in form, what spells them, their encodings, what is
/// written and what is read. The laws between these are members of [`DerRead`] and [`DerWrite`].
pub trait DerForm: Asn1Value {
    /// The type of the abstract values.
    ghost Abstract: { Type 0 };

    /// The abstract value that a value stands for.
    ghost stands_for: { Self → Abstract };

    /// What the abstract values are as DER.
    ghost form: { Form Abstract };

    /// Values that mean the same stand for the same abstract value.
    ghost same_value: { (x y : Self) → Self.meaning x ≡ Self.meaning y → stands_for x ≡ stands_for y };
}

/// A type whose values are written as DER.
pub trait DerWrite: DerForm {
    /// Adds the encoding of the value at the end.
    ///
    /// `BadValue` where the value has no encoding; a refusal changes nothing.
    fn write_der(&self, alloc: Global, out: &mut Vec<u8>) -> Result<(), DerError>
        ensures { Writes (λ s. Self.form.Encodes s (Self.stands_for self.now)) (Self.form.Refused (Self.stands_for self.now)) result out.old.items out.new.items };

    /// The laws of writing: each value in form whose encoding fits 2^64 bytes is written, as its encoding alone, which is
    /// one value and a spelling of it.
    ghost writable: { Writable Self.form };
}

/// A type whose values are read as DER.
pub trait DerRead: DerForm {
    /// Whether a spelling of the type may begin with this tag.
    fn begins_with(tag: Tag) -> bool
        ensures { result ≡ Self.form.begins tag.0 };

    /// Reads the value whose spelling stands next; the reader then stands just past it.
    ///
    /// A refusal is the fault at the first bad place, or `OutOfMemory`, and leaves the reader where it stood.
    fn read_der(alloc: Global, reader: &mut DerReader<'_>) -> Result<Self, DerError>
        ensures { Reads Self.stands_for Self.form.reading reader.old result reader.new };

    /// The laws of reading: spellings are free of prefixes, and what stands there is what is read.
    ghost readable: { Readable Self.form };
}

/// A type that is written under its tag, and under no other.
pub trait DerTagged: Asn1Type + DerWrite + DerRead {
    /// Every spelling begins with the tag, and no other tag begins one.
    ghost tagged: { Tagged Self.TAG Self.form };
}

/// The encoding of the value.
///
/// `BadValue` where it has none.
pub fn to_vec<T: DerWrite>(alloc: Global, value: &T) -> Result<Vec<u8>, DerError>
    ensures encoded { IfOk result (λ bytes. T.form.Encodes bytes.items (T.stands_for value.now)) }
    ensures encoding { IfOk result (λ bytes. bytes.items ≡ T.form.encoding (T.stands_for value.now)) }
    ensures raw { IfOk result (λ bytes. raw_at bytes.items ≡ Ok (bytes.items, [])) }
    ensures refused { IfErr result (λ fault. (fault ≡ OutOfMemory) ⊎ ((fault ≡ BadValue) × T.form.Refused (T.stands_for value.now))) }
{
    let mut out = Vec::new(alloc);
    value.write_der(alloc, &mut out)?;
    Ok(out)
}

#[tactic(auto, unfolding(crate::specs::Form::whole))]
fn all<T: DerRead + Drop>(alloc: Global, bytes: &[u8]) -> Result<T, DerError>
    ensures { Gives T.stands_for result (whole T.form.reading bytes.now) }
{
    let mut reader = DerReader::new(bytes);
    let value = T::read_der(alloc, &mut reader)?;
    reader.end()?;
    Ok(value)
}

/// The one value that the bytes spell, all of them.
///
/// A refusal is the fault at the first bad place, `TrailingBytes` where bytes follow the value, or `OutOfMemory`. A spelling of
/// a value is `TooDeep` exactly where it nests more than 256 readers.
pub fn from_bytes<T: DerRead + Drop>(alloc: Global, bytes: &[u8]) -> Result<T, DerError>
    ensures first { Gives T.stands_for result (whole T.form.reading bytes.now) }
    ensures found { IfOk result (λ x. T.form.in_form (T.stands_for x) × T.form.Spells bytes.now (T.stands_for x)) }
    ensures every { (x : T.Abstract) → T.form.in_form x → (p : T.form.Spells bytes.now x) → OkUnlessDeep T.stands_for (T.form.height bytes.now x p) result x }
{
    all(alloc, bytes)
}
