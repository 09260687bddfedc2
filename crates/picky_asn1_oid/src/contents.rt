// Contents octets of identifiers.
ghost use Rattle.std.specs.Prelude.{◌≡◌, ◌<◌, ◌++◌, ℕ, length, List, Some, All, IfOk, IfSome, IsSomeAnd, OnOk};
ghost use Rattle.std.specs.List.{flat_map};
ghost use Rattle.picky_contract.specs.Refusals.{Finds};
ghost use Rattle.picky_asn1_oid.specs.Arcs.{FitsArc, IsArcs, continued, base128, contents_of};
ghost use Rattle.picky_asn1_oid.specs.Fault.{IsContentsOf};
ghost use Rattle.picky_asn1_oid.specs.Numbers.{AreNumbersOf, arcs_from};

use std::alloc::{AllocError, Global};

// Adds the groups of seven bits of a number, each with bit 8 set.
fn push_continued(out: &mut Vec<u8>, number: u128) -> Result<(), AllocError>
    ensures { OnOk result (out.new.items ≡ out.old.items ++ continued 19 number) }
{
    if number == 0 {
        return Ok(());
    }
    push_continued(out, number / 128)?;
    out.push(128 + (number % 128) as u8)?;
    Ok(())
}

// Adds a number in groups of seven bits.
fn push_number(out: &mut Vec<u8>, number: u128) -> Result<(), AllocError>
    ensures { OnOk result (out.new.items ≡ out.old.items ++ base128 number) }
{
    push_continued(out, number / 128)?;
    out.push((number % 128) as u8)?;
    Ok(())
}

// Adds numbers in groups of seven bits.
fn push_numbers(out: &mut Vec<u8>, numbers: &[u128]) -> Result<(), AllocError>
    ensures { OnOk result (out.new.items ≡ out.old.items ++ flat_map base128 numbers.now) }
{
    for number in numbers {
        push_number(out, *number)?;
    }
    Ok(())
}

// The contents octets of an identifier.
pub(crate) fn contents_of(alloc: Global, arcs: &[u128]) -> Result<Vec<u8>, AllocError>
    requires { IsArcs arcs.now }
    ensures { IfOk result (λ v. v.items ≡ contents_of arcs.now) }
{
    let mut out = Vec::new(alloc);
    if let [first, second, others @ ..] = arcs {
        push_number(&mut out, 40 * *first + *second)?;
        push_numbers(&mut out, others)?;
    }
    Ok(out)
}

// The number in groups of seven bits that stands in front, and what follows it.
fn next_number(bytes: &[u8]) -> Option<(u128, &[u8])>
    ensures found { IfSome result (λ x. base128 x.0 ++ x.1.now ≡ bytes.now) }
    ensures every { (number : ℕ) (after : List ℕ) → FitsArc number → base128 number ++ after ≡ bytes.now
        → IsSomeAnd result (λ x. (x.0 ≡ number) × (x.1.now ≡ after)) }
    ensures fits { IfSome result (λ x. FitsArc x.0) }
    ensures shorter { IfSome result (λ x. length x.1.now < length bytes.now) }
{
    let mut number: u128 = 0;
    let mut rest = bytes;
    while let [byte, after @ ..] = rest {
        let byte = *byte;
        if number > u128::MAX / 128 {
            return None;
        }
        if byte < 128 {
            return Some((number * 128 + byte as u128, after));
        }
        if number == 0 && byte == 128 {
            return None;
        }
        number = number * 128 + (byte - 128) as u128;
        rest = after;
    }
    None
}

// All numbers in groups of seven bits, one after another.
fn numbers_of(alloc: Global, bytes: &[u8]) -> Result<Option<Vec<u128>>, AllocError>
    ensures { IfOk result (Finds (λ v. v.items) (AreNumbersOf bytes.now)) }
{
    let mut numbers = Vec::new(alloc);
    let mut rest = bytes;
    while !rest.is_empty() {
        let Some((number, after)) = next_number(rest) else {
            return Ok(None);
        };
        numbers.push(number)?;
        rest = after;
    }
    Ok(Some(numbers))
}

// The arcs of an identifier with these contents octets.
pub(crate) fn arcs_of(alloc: Global, bytes: &[u8]) -> Result<Option<Vec<u128>>, AllocError>
    ensures { IfOk result (Finds (λ v. v.items) (IsContentsOf bytes.now)) }
{
    let Some(mut arcs) = numbers_of(alloc, bytes)? else {
        return Ok(None);
    };
    let Some(joined) = arcs.first().copied() else {
        return Ok(None);
    };
    let first = (joined / 40).min(2);
    arcs[0] = joined - 40 * first;
    arcs.insert(0, first)?;
    Ok(Some(arcs))
}
