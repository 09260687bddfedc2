// Writing one value.
ghost use Rattle.std.specs.Prelude.{◌≡◌, ◌≢◌, ◌%◌, ◌++◌, OnOk, length, take};
ghost use Rattle.picky_der.specs.Length.{without_zeros, length_of, value_of};
ghost use Rattle.picky_der.specs.Form.{Writes, IsValue};

use crate::fault::DerError;
use picky_asn1_tag::Tag;
use std::alloc::AllocError;

fn without_zeros(bytes: &[u8]) -> &[u8]
    ensures { result.now ≡ without_zeros bytes.now }
{
    match bytes {
        [0, rest @ ..] => without_zeros(rest),
        _ => bytes,
    }
}

#[tactic(auto, unfolding(crate::specs::Length::length_of, crate::specs::Length::digits))]
fn put_length(out: &mut Vec<u8>, len: u64) -> Result<(), AllocError>
    ensures ok { OnOk result (out.new.items ≡ out.old.items ++ length_of len) }
    ensures front { take (length out.old.items) out.new.items ≡ out.old.items }
{
    if len < 128 {
        out.push(len as u8)?;
        return Ok(());
    }
    let bytes = len.to_be_bytes();
    let digits = without_zeros(&bytes);
    out.push(128 + digits.len() as u8)?;
    out.extend_from_slice(digits)?;
    Ok(())
}

#[tactic(auto, unfolding(crate::specs::Length::value_of))]
fn put_value(out: &mut Vec<u8>, tag: Tag, contents: &[u8]) -> Result<(), AllocError>
    ensures ok { OnOk result (out.new.items ≡ out.old.items ++ value_of tag.0 contents.now) }
    ensures front { take (length out.old.items) out.new.items ≡ out.old.items }
{
    out.push(tag.0)?;
    put_length(out, contents.len() as u64)?;
    out.extend_from_slice(contents)?;
    Ok(())
}

/// Adds a value at the end: the tag, the length of the contents, and the contents.
///
/// The tag's number isn't 31. The one refusal is `OutOfMemory`, and it changes nothing.
pub fn write_value(out: &mut Vec<u8>, tag: Tag, contents: &[u8]) -> Result<(), DerError>
    requires { tag.0 % 32 ≢ 31 }
    ensures { Writes (IsValue tag contents.now) ⊥ result out.old.items out.new.items }
{
    let len = out.len();
    if put_value(out, tag, contents).is_err() {
        out.truncate(len);
        return Err(DerError::OutOfMemory);
    }
    Ok(())
}
