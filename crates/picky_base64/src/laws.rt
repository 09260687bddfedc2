//! Laws of base64: each is the contract of a function without a body.
ghost use Rattle.std.specs.Prelude.{◌≡◌, ℕ, List};
ghost use Rattle.picky_base64.specs.declared.Form.{Form};
ghost use Rattle.picky_base64.specs.Base64.{B64};

/// A text spells one list of bytes at most.
pub fn bytes_are_determined()
    ensures { (form : Form) (text a b : List ℕ) → B64 form text a → B64 form text b → b ≡ a }
{}
