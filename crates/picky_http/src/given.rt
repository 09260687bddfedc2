// The lines of a signing string that is given.
ghost use Rattle.std.specs.Prelude.{IfOk};
ghost use Rattle.picky_contract.specs.Refusals.{Finds};
ghost use Rattle.picky_http.specs.Given.{IsUpTo, Keyed, IsKeyed, Gives, IsEntry, entry_view};
ghost use Rattle.picky_http.specs.Parts.{part_named};
ghost use Rattle.picky_http.specs.Signing.{colon};

use crate::header::Header;
use picky_contract::cut_at_first;
use picky_http_text::number_of;
use std::alloc::{AllocError, Global};

// What a line gives: it covers a name or the target, or has the number of `(created)` or `(expires)`.
#[derive(Debug, Drop)]
pub(crate) enum Entry {
    Covers(Header),
    CreatedAt(u64),
    ExpiresAt(u64),
}

// The text up to its first colon, or the whole of one that has none.
fn up_to_colon(text: &str) -> &str
    ensures { IsUpTo colon text.now result.now }
{
    match cut_at_first(text, ':') {
        Some((front, _)) => front,
        None => text,
    }
}

// The key and the value of a line, none where it has no colon.
fn keyed(line: &str) -> Option<(&str, &str)>
    ensures { Finds {Y = Keyed} (λ x. record { key = x.0.now; value = x.1.now }) (IsKeyed line.now) result }
{
    let (key, behind) = cut_at_first(line, ':')?;
    Some((key, up_to_colon(behind).trim()))
}

// What a key with a value gives, none where a number is no number.
fn gives(alloc: Global, key: &str, value: &str) -> Result<Option<Entry>, AllocError>
    ensures { IfOk result (Finds entry_view (Gives (part_named key.now) value.now)) }
{
    match Header::from_text(alloc, key)? {
        Header::Name(name) => Ok(Some(Entry::Covers(Header::Name(name)))),
        Header::RequestTarget => Ok(Some(Entry::Covers(Header::RequestTarget))),
        Header::Created => match number_of(value) {
            Some(n) => Ok(Some(Entry::CreatedAt(n))),
            None => Ok(None),
        },
        Header::Expires => match number_of(value) {
            Some(n) => Ok(Some(Entry::ExpiresAt(n))),
            None => Ok(None),
        },
    }
}

// What a line gives, if it gives something.
pub(crate) fn entry_of(alloc: Global, line: &str) -> Result<Option<Entry>, AllocError>
    ensures { IfOk result (Finds entry_view (IsEntry line.now)) }
{
    match keyed(line) {
        Some((key, value)) => gives(alloc, key, value),
        None => Ok(None),
    }
}
