// Kinds of authorization text, by their scheme words.
ghost use Rattle.std.specs.Prelude.{◌≡◌};
ghost use Rattle.picky_contract.specs.Refusals.{Finds};
ghost use Rattle.picky_gate.specs.Scheme.{IsHeaderScheme, IsScheme, dots_in, scheme_view};

/// A kind of authorization text.
#[derive(Clone, Copy)]
pub enum Scheme<'a> {
    /// A token: what stands after `Bearer `.
    Token(&'a str),
    /// A header text, which begins with `Signature `: the whole text.
    Header(&'a str),
}

/// The kind of a text; `None` exactly where it begins with neither scheme word.
pub fn scheme_of(text: &str) -> Option<Scheme<'_>>
    ensures { Finds scheme_view (IsScheme text.now) result }
{
    match text.strip_prefix("Bearer ") {
        Some(token) => Some(Scheme::Token(token)),
        None => header_scheme(text),
    }
}

fn header_scheme(text: &str) -> Option<Scheme<'_>>
    ensures { Finds scheme_view (IsHeaderScheme text.now) result }
{
    match text.strip_prefix("Signature ") {
        Some(_) => Some(Scheme::Header(text)),
        None => None,
    }
}

/// How many dots a token has.
pub fn dots(token: &str) -> usize
    ensures { result ≡ dots_in token.now }
{
    let mut count: usize = 0;
    for byte in token.as_bytes() {
        if *byte == b'.' {
            count += 1;
        }
    }
    count
}
