// Parts of a text as spans of it.
ghost use Rattle.std.specs.Prelude.{◌≡◌, ◌<◌, ◌+◌, ◌^◌, ℕ, List, slice_range};
ghost use Rattle.std.specs.Str.{trim};
ghost use Rattle.picky_http_text.specs.Clean.{IsUnquoted, IsCleanAt};
ghost use Rattle.picky_http_text.specs.Places.{IsSpan, IsAt};

/// Bytes `start` to `end` of a text, `end` not among them.
#[derive(Clone, Copy, Debug, PartialEq, Eq)]
pub struct Span {
    pub start: usize,
    pub end: usize,
}

impl Span {
    /// The text at the span, which lies in the text and may be cut there.
    pub fn of(self, text: &str) -> &str
        requires { IsSpan text.now self }
        ensures { result.now ≡ slice_range text.now self.start self.end }
    {
        &text[self.start..self.end]
    }
}

/// The span in a whole text of what stands at `inner` in its part at `outer`.
pub fn shifted(outer: Span, inner: Span) -> Span
    requires start { outer.start + inner.start < 2 ^ 64 }
    requires end { outer.start + inner.end < 2 ^ 64 }
    ensures start { result.start ≡ outer.start + inner.start }
    ensures end { result.end ≡ outer.start + inner.end }
{
    Span {
        start: outer.start + inner.start,
        end: outer.start + inner.end,
    }
}

/// Where a text is without the white space at both its ends.
pub fn trim_span(text: &str) -> Span
    ensures { IsAt text.now (trim text.now) result }
{
    let front = text.trim_start();
    let start = text.len() - front.len();
    Span {
        start,
        end: start + front.trim_end().len(),
    }
}

// Where a value is without its outer double quotes.
fn unquoted_span(value: &str) -> Span
    ensures { (inner : List ℕ) × IsUnquoted value.now inner × IsAt value.now inner result }
{
    let front = value.trim_start_matches('"');
    let start = value.len() - front.len();
    Span {
        start,
        end: start + front.trim_end_matches('"').len(),
    }
}

/// Where a value is without all its outer double quotes, and without the white space inside them.
pub fn clean_span(value: &str) -> Span
    ensures { IsCleanAt value.now result }
{
    let inner = unquoted_span(value);
    shifted(inner, trim_span(&value[inner.start..inner.end]))
}
