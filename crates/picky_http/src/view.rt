// A header text with the places of its values.
ghost use Rattle.std.specs.Prelude.{IfSome};
ghost use Rattle.std.proofs.Props.{props};
ghost use Rattle.picky_http_text.specs.Places.{IsSpan};

use picky_http_text::Span;

// A header text with the places of its values. Nothing is copied.
#[derive(Clone, Copy, Debug)]
pub(crate) struct HeaderView<'a> {
    pub(crate) text: &'a str,
    pub(crate) key_id: Span,
    pub(crate) signature: Span,
    pub(crate) headers: Option<Span>,
    pub(crate) algorithm: Option<Span>,
    pub(crate) created: Option<u64>,
    pub(crate) expires: Option<u64>,
    pub(crate) legacy: bool,
    ghost key_id_fits: { IsSpan text.now key_id },
    ghost signature_fits: { IsSpan text.now signature },
    ghost headers_fits: { IfSome headers (IsSpan text.now) } by { Prim.hlevel props },
    ghost algorithm_fits: { IfSome algorithm (IsSpan text.now) } by { Prim.hlevel props },
}
