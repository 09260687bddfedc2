// A records document, read line by line.
ghost use Rattle.std.specs.Prelude.{◌≡◌, IfOk, map};
ghost use Rattle.picky_contract.specs.Refusals.{Meets};
ghost use Rattle.picky_records.specs.Lines.{AreSound};
ghost use Rattle.picky_records.specs.Cutting.{fields_in};
ghost use Rattle.picky_records.specs.Reading.{fault, sig_table, pair_table, unwrap_table, agree_table, form_table, standing, row, records_table};

use crate::fields::{bytes_of, is_signature_for, private_of, public_of};
use crate::names::{algorithm_of, scheme_of};
use crate::seen::Seen;
use crate::{Line, RecordFault};
use picky_contract::cut_at_first;
use std::alloc::{AllocError, Global};

// The lines that a document records.
pub(crate) fn lines_of(alloc: Global, text: &str) -> Result<Vec<Line>, RecordFault>
    ensures { Meets (λ v. v.items) fault result (records_table text.now) }
{
    let mut seen = Seen::new(alloc);
    let mut rest = text;
    while let Some((line, after)) = cut_at_first(rest, '\n') {
        let line = line_of(alloc, &seen, line)?;
        seen = seen.with(alloc, line)?;
        rest = after;
    }
    if !rest.is_empty() {
        return Err(RecordFault::BadLine {
            line: seen.len() as u64 + 1,
        });
    }
    Ok(seen.into_lines())
}

// The line that a text records after the lines before it.
fn line_of(alloc: Global, before: &Seen, text: &str) -> Result<Line, RecordFault>
    requires { AreSound before.now }
    ensures { Meets (λ l. l) fault result (row before.now text.now) }
{
    let number = before.len() as u64 + 1;
    let line = formed(alloc, number, text)?;
    match stands(alloc, before, number, &line) {
        Ok(()) => Ok(line),
        Err(fault) => {
            drop(line);
            Err(fault)
        }
    }
}

// Whether a line in form stands after the lines before it: it is in its family, and nothing contradicts it.
#[tactic(auto, unfolding(crate::specs::Reading::standing))]
fn stands(alloc: Global, before: &Seen, number: u64, line: &Line) -> Result<(), RecordFault>
    requires { AreSound before.now }
    ensures { Meets (λ _. line.now) fault result (standing before.now number line.now) }
{
    if !line.in_family() {
        return Err(RecordFault::Family { line: number });
    }
    let contradicts = before.conflicts(alloc, line)?;
    if contradicts {
        return Err(RecordFault::Conflict { line: number });
    }
    Ok(())
}

// The line whose form a text has.
fn formed(alloc: Global, number: u64, text: &str) -> Result<Line, RecordFault>
    ensures { Meets (λ l. l) fault result (form_table number (fields_in text.now)) }
{
    let fields = fields_of(alloc, text)?;
    form_of(alloc, number, &fields)
}

// The fields of a line, parted by one space.
fn fields_of(alloc: Global, line: &str) -> Result<Vec<&str>, AllocError>
    ensures { IfOk result (λ v. map (λ t. t.now) v.items ≡ fields_in line.now) }
{
    let mut fields = Vec::new(alloc);
    let mut rest = line;
    while let Some((field, after)) = cut_at_first(rest, ' ') {
        fields.push(field)?;
        rest = after;
    }
    fields.push(rest)?;
    Ok(fields)
}

// The line of these fields.
#[tactic(auto, unfolding(crate::specs::Reading::form_table))]
fn form_of(alloc: Global, number: u64, fields: &[&str]) -> Result<Line, RecordFault>
    ensures { Meets (λ l. l) fault result (form_table number (map (λ t. t.now) fields.now)) }
{
    match fields {
        [word, one, two] => {
            if *word == "pair" {
                return pair_of(alloc, number, one, two);
            }
            Err(RecordFault::BadLine { line: number })
        }
        [word, one, two, three] => {
            if *word == "agree" {
                return agree_of(alloc, number, one, two, three);
            }
            Err(RecordFault::BadLine { line: number })
        }
        [word, one, two, three, four] => {
            if *word == "sig" {
                return sig_of(alloc, number, one, two, three, four);
            }
            if *word == "unwrap" {
                return unwrap_of(alloc, number, one, two, three, four);
            }
            Err(RecordFault::BadLine { line: number })
        }
        _ => Err(RecordFault::BadLine { line: number }),
    }
}

// The line of `sig ALG SPKI MESSAGE SIGNATURE`.
#[tactic(auto, unfolding(crate::specs::Reading::sig_table))]
fn sig_of(
    alloc: Global,
    number: u64,
    name: &str,
    spki: &str,
    message: &str,
    signature: &str,
) -> Result<Line, RecordFault>
    ensures { Meets (λ l. l) fault result (sig_table number name.now spki.now message.now signature.now) }
{
    let Some(algorithm) = algorithm_of(name) else {
        return Err(RecordFault::BadLine { line: number });
    };
    let key = public_of(alloc, number, spki)?;
    let message = bytes_of(alloc, number, message)?;
    let signature = bytes_of(alloc, number, signature)?;
    let wanted = is_signature_for(alloc, algorithm, &key, signature.as_slice())?;
    if !wanted {
        return Err(RecordFault::BadLine { line: number });
    }
    Ok(Line::Sig {
        key,
        algorithm,
        message,
        signature,
    })
}

// The line of `pair PKCS8 SPKI`.
#[tactic(auto, unfolding(crate::specs::Reading::pair_table))]
fn pair_of(alloc: Global, number: u64, pkcs8: &str, spki: &str) -> Result<Line, RecordFault>
    ensures { Meets (λ l. l) fault result (pair_table number pkcs8.now spki.now) }
{
    let private = private_of(alloc, number, pkcs8)?;
    let public = public_of(alloc, number, spki)?;
    Ok(Line::Pair { private, public })
}

// The line of `unwrap SCHEME PKCS8 WRAPPED CEK`.
#[tactic(auto, unfolding(crate::specs::Reading::unwrap_table))]
fn unwrap_of(
    alloc: Global,
    number: u64,
    name: &str,
    pkcs8: &str,
    wrapped: &str,
    content_key: &str,
) -> Result<Line, RecordFault>
    ensures { Meets (λ l. l) fault result (unwrap_table number name.now pkcs8.now wrapped.now content_key.now) }
{
    let Some(scheme) = scheme_of(name) else {
        return Err(RecordFault::BadLine { line: number });
    };
    let private = private_of(alloc, number, pkcs8)?;
    let wrapped = bytes_of(alloc, number, wrapped)?;
    let content_key = bytes_of(alloc, number, content_key)?;
    Ok(Line::Unwrap {
        scheme,
        private,
        wrapped,
        content_key,
    })
}

// The line of `agree SPKI SPKI SECRET`.
#[tactic(auto, unfolding(crate::specs::Reading::agree_table))]
fn agree_of(
    alloc: Global,
    number: u64,
    one: &str,
    other: &str,
    secret: &str,
) -> Result<Line, RecordFault>
    ensures { Meets (λ l. l) fault result (agree_table number one.now other.now secret.now) }
{
    let first = public_of(alloc, number, one)?;
    let second = public_of(alloc, number, other)?;
    let secret = bytes_of(alloc, number, secret)?;
    Ok(Line::Agree {
        first,
        second,
        secret,
    })
}
