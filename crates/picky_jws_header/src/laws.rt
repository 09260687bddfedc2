//! Laws of headers: each is the contract of a function without a body.
ghost use Rattle.std.specs.Prelude.{◌≡◌};
ghost use Rattle.serde_json.specs.Data.{Data};
ghost use Rattle.picky_jws_header.specs.Header.{Header, JwsHeaderOf};

/// A tree tells one header at most.
pub fn header_is_determined()
    ensures { (t : Data) (a b : Header) → JwsHeaderOf t a → JwsHeaderOf t b → b ≡ a }
{}
