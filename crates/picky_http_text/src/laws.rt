//! Laws of header texts: each is the contract of a function without a body.
ghost use Rattle.std.specs.Prelude.{◌≡◌, ℕ, List, Option};
ghost use Rattle.picky_http_text.specs.Items.{IsRaw};
ghost use Rattle.picky_http_text.specs.Clean.{IsClean};

/// A text has one raw value of a key, or none.
pub fn raw_is_determined()
    ensures { (text key : List ℕ) (v w : Option (List ℕ)) → IsRaw text key v → IsRaw text key w → v ≡ w }
{}

/// A value is one text without its outer quotes.
pub fn clean_is_determined()
    ensures { (value x y : List ℕ) → IsClean value x → IsClean value y → x ≡ y }
{}
