// Where a signed token is cut.
ghost use Rattle.std.specs.Prelude.{◌≡◌};
ghost use Rattle.picky_contract.specs.Refusals.{Finds};
ghost use Rattle.picky_jose.specs.Token.{PartsOf, parts_view, HalvesOf, halves_view};

use picky_contract::{cut_at_first, cut_at_last};

// The header, the payload and the signature of a token, by its first dot and its last.
pub(crate) fn parts_of(token: &str) -> Option<(&str, &str, &str)>
    ensures { Finds parts_view (PartsOf token.now) result }
{
    let (header, rest) = cut_at_first(token, '.')?;
    let (payload, signature) = cut_at_last(rest, '.')?;
    if header.is_empty() || signature.is_empty() {
        return None;
    }
    Some((header, payload, signature))
}

// What stands before the last dot of a text and after it.
pub(crate) fn halves_of(token: &str) -> Option<(&str, &str)>
    ensures { Finds halves_view (HalvesOf token.now) result }
{
    let (signed, signature) = cut_at_last(token, '.')?;
    if signature.is_empty() {
        return None;
    }
    Some((signed, signature))
}
