// Sets of any values, and the one value that such a set holds.
ghost use Rattle.std.specs.Prelude.{◌≡◌, ◌≢◌, ◌%◌, [], ◌∷◌, IfOk, IsTrue};
ghost use Rattle.std.specs.Option.{option_map};
ghost use Rattle.picky_asn1_simple.specs.Sets.{is_bmp};
ghost use Rattle.picky_asn1_text.specs.Bmp.{IsBmp};
ghost use Rattle.picky_der.specs.Length.{value_of};
ghost use Rattle.picky_der.specs.Reading.{Reads};
ghost use Rattle.picky_der.specs.Form.{Writes};
ghost use Rattle.picky_x509_bags.specs.Attribute.{single, name_in, octets_in, values};

use picky_asn1_tag::Tag;
use picky_asn1_text::{BmpCharSet, BmpString, CharSet};
use picky_asn1_wrapper::Asn1SetOf;
use picky_contract::Bytes;
use picky_der::{Asn1RawDer, DerError, DerRead, DerReader, DerWrite, write_value};
use std::alloc::{AllocError, Global};

/// The values of the SET that stands next.
#[tactic(auto, using(crate::specs::laws::Lists::reads_items), unfolding(crate::specs::Attribute::values))]
pub fn read_values(
    alloc: Global,
    reader: &mut DerReader<'_>,
) -> Result<Asn1SetOf<Asn1RawDer>, DerError>
    ensures { Reads (λ v. v) values.reading reader.old result reader.new }
{
    Asn1SetOf::read_der(alloc, reader)
}

/// Adds the SET of the values at the end. The one refusal is `OutOfMemory`, and it changes nothing.
#[tactic(auto, using(crate::specs::laws::Lists::writes_items), unfolding(crate::specs::Attribute::values))]
pub fn write_values(
    alloc: Global,
    set: &Asn1SetOf<Asn1RawDer>,
    out: &mut Vec<u8>,
) -> Result<(), DerError>
    ensures { Writes (λ s. values.Encodes s set.now) (values.Refused set.now) result out.old.items out.new.items }
{
    set.write_der(alloc, out)
}

/// A copy of the values.
#[tactic(auto, using(crate::specs::laws::Lists::same_items))]
pub fn copy_values(
    alloc: Global,
    set: &Asn1SetOf<Asn1RawDer>,
) -> Result<Asn1SetOf<Asn1RawDer>, AllocError>
    ensures { IfOk result (λ copy. copy ≡ set.now) }
{
    set.clone(alloc)
}

// The contents of the one value of the set, where it holds one, and of this tag.
fn single<'a>(tag: Tag, set: &'a Asn1SetOf<Asn1RawDer>) -> Option<&'a [u8]>
    ensures { option_map (λ c. c.now) result ≡ single tag set.now }
{
    match set.0.as_slice() {
        [value] => match DerReader::new(value.as_bytes()).read_value(tag) {
            Ok(contents) => Some(contents),
            Err(_) => None,
        },
        _ => None,
    }
}

fn is_bmp(octets: &[u8]) -> bool
    ensures value { result ≡ is_bmp octets.now }
    ensures in_set { IsTrue result → IsBmp octets.now }
{
    BmpCharSet::check(octets)
}

/// The BMPString that the set is.
pub fn name_in(alloc: Global, set: &Asn1SetOf<Asn1RawDer>) -> Result<Option<BmpString>, AllocError>
    ensures { IfOk result (λ name. name ≡ name_in set.now) }
{
    let Some(octets) = single(Tag::BMP_STRING, set) else {
        return Ok(None);
    };
    if !is_bmp(octets) {
        return Ok(None);
    }
    let name = Vec::from_slice(alloc, octets)?;
    Ok(Some(BmpString::new_unchecked(name)))
}

/// The OCTET STRING that the set is.
pub fn octets_in(alloc: Global, set: &Asn1SetOf<Asn1RawDer>) -> Result<Option<Bytes>, AllocError>
    ensures { IfOk result (λ octets. octets ≡ octets_in set.now) }
{
    match single(Tag::OCTET_STRING, set) {
        Some(octets) => Ok(Some(Bytes::new(Vec::from_slice(alloc, octets)?))),
        None => Ok(None),
    }
}

/// Adds a SET of one value at the end, which has this tag and these contents. The one refusal is `OutOfMemory`, and it changes
/// nothing.
#[tactic(auto, using(crate::specs::laws::Attribute::single_wrote), unfolding(crate::specs::Attribute::values))]
pub fn write_single(
    alloc: Global,
    tag: Tag,
    contents: &[u8],
    out: &mut Vec<u8>,
) -> Result<(), DerError>
    requires { tag.0 % 32 ≢ 31 }
    ensures { Writes (λ s. values.Encodes s (value_of tag.0 contents.now ∷ [])) ⊥ result out.old.items out.new.items }
{
    let mut value = Vec::new(alloc);
    write_value(&mut value, tag, contents)?;
    write_value(out, Tag::SET, &value)
}
