// Where the values of a header text stand.
ghost use Rattle.std.specs.Prelude.{◌+◌, ◌<◌, ◌^◌, length};
ghost use Rattle.picky_http_text.specs.Progress.{IsItemAt, IsRawAt, IsLater};

use crate::span::{Span, shifted, trim_span};
use picky_contract::cut_at_first;

// Where the value of the key stands in a piece.
fn value_span(piece: &str, key: &str) -> Option<Span>
    ensures { IsItemAt piece.now key.now result }
{
    match cut_at_first(piece, '=') {
        Some((before, after)) => {
            if before.trim() == key {
                let whole = Span {
                    start: piece.len() - after.len(),
                    end: piece.len(),
                };
                Some(shifted(whole, trim_span(after)))
            } else {
                None
            }
        }
        None => None,
    }
}

// The place of the piece's value, where it has the key, else the one that was found before.
fn later(found: Option<Span>, at: usize, piece: &str, key: &str) -> Option<Span>
    requires { at + length piece.now < 2 ^ 64 }
    ensures { IsLater piece.now key.now at found result }
{
    match value_span(piece, key) {
        Some(span) => Some(shifted(
            Span {
                start: at,
                end: at + piece.len(),
            },
            span,
        )),
        None => found,
    }
}

/// Where the raw value of the key stands: that of the last piece with the key, trimmed; `None` exactly
/// where no piece has it.
///
/// The pieces are what stands between commas, behind all leading words `Signature`; a piece's key is the
/// text before its first `=`, trimmed, and its value the text after it, trimmed.
pub fn raw_span(text: &str, key: &str) -> Option<Span>
    ensures { IsRawAt text.now key.now result }
{
    let mut rest = text.trim_start_matches("Signature");
    let mut at = text.len() - rest.len();
    let mut found = None;
    while let Some((piece, more)) = rest.split_once(',') {
        found = later(found, at, piece, key);
        at += piece.len() + 1;
        rest = more;
    }
    later(found, at, rest, key)
}
