// Dotted text of identifiers.
ghost use Rattle.std.specs.Prelude.{◌≡◌, ◌↔◌, ◌++◌, IsTrue, IfOk, OnOk, string_bytes};
ghost use Rattle.std.specs.List.{flat_map};
ghost use Rattle.picky_contract.specs.Refusals.{Finds};
ghost use Rattle.picky_asn1_oid.specs.Arcs.{IsArcs, text_of};
ghost use Rattle.picky_asn1_oid.specs.Fault.{IsTextOf};
ghost use Rattle.picky_asn1_oid.specs.Dotted.{IsDecimalOf, AreDottedOf, dotted};

use picky_contract::cut_at_first;
use std::alloc::{AllocError, Global};

// The number of 128 bits of which this is the decimal text without leading zeros.
fn arc_of(alloc: Global, text: &str) -> Result<Option<u128>, AllocError>
    ensures { IfOk result (Finds (λ n. n) (IsDecimalOf text.now)) }
{
    let Ok(number) = text.parse::<u128>() else {
        return Ok(None);
    };
    let printed = format!(in alloc; "{number}")?;
    if same_text(printed.as_str(), text) {
        Ok(Some(number))
    } else {
        Ok(None)
    }
}

// Whether two texts are the same.
fn same_text(text: &str, other: &str) -> bool
    ensures { IsTrue result ↔ (text.now ≡ other.now) }
{
    text == other
}

// The numbers of a text that is some of them joined by dots.
fn numbers_of(alloc: Global, text: &str) -> Result<Option<Vec<u128>>, AllocError>
    ensures { IfOk result (Finds (λ v. v.items) (AreDottedOf text.now)) }
{
    let mut numbers = Vec::new(alloc);
    let mut rest = text;
    while let Some((front, back)) = cut_at_first(rest, '.') {
        let Some(number) = arc_of(alloc, front)? else {
            return Ok(None);
        };
        numbers.push(number)?;
        rest = back;
    }
    let Some(last) = arc_of(alloc, rest)? else {
        return Ok(None);
    };
    numbers.push(last)?;
    Ok(Some(numbers))
}

// Whether these are the arcs of an identifier.
fn are_arcs(numbers: &[u128]) -> bool
    ensures { IsTrue result ↔ IsArcs numbers.now }
{
    match numbers {
        [0 | 1, second, ..] => *second < 40,
        [2, second, ..] => *second <= u128::MAX - 80,
        _ => false,
    }
}

// The arcs of an identifier with this text.
pub(crate) fn arcs_of(alloc: Global, text: &str) -> Result<Option<Vec<u128>>, AllocError>
    ensures { IfOk result (Finds (λ v. v.items) (IsTextOf text.now)) }
{
    let Some(numbers) = numbers_of(alloc, text)? else {
        return Ok(None);
    };
    if !are_arcs(&numbers) {
        return Ok(None);
    }
    Ok(Some(numbers))
}

// Adds each number in decimal after a dot.
fn push_others(text: &mut String, numbers: &[u128]) -> Result<(), AllocError>
    ensures { OnOk result (string_bytes text.new ≡ string_bytes text.old ++ flat_map dotted numbers.now) }
{
    for number in numbers {
        push_dotted(text, *number)?;
    }
    Ok(())
}

// Adds a number in decimal after a dot.
fn push_dotted(text: &mut String, number: u128) -> Result<(), AllocError>
    ensures { OnOk result (string_bytes text.new ≡ string_bytes text.old ++ dotted number) }
{
    text.push('.')?;
    write!(text, "{number}")?;
    Ok(())
}

// The numbers in decimal, joined by dots.
pub(crate) fn text_of(alloc: Global, numbers: &[u128]) -> Result<String, AllocError>
    ensures { IfOk result (λ text. string_bytes text ≡ text_of numbers.now) }
{
    let mut text = String::new(alloc);
    let [first, others @ ..] = numbers else {
        return Ok(text);
    };
    write!(text, "{first}")?;
    push_others(&mut text, others)?;
    Ok(text)
}
