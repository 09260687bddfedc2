//! Laws of keys and sets: each is the contract of a function without a body.
ghost use Rattle.std.specs.Prelude.{◌≡◌, List};
ghost use Rattle.serde_json.specs.Data.{Data};
ghost use Rattle.picky_jwk.specs.Jwk.{Jwk, JwkOf, JwkSetOf};

/// A tree tells one key at most.
pub fn key_is_determined()
    ensures { (t : Data) (a b : Jwk) → JwkOf t a → JwkOf t b → b ≡ a }
{}

/// A tree tells one set at most.
pub fn set_is_determined()
    ensures { (t : Data) (a b : List Jwk) → JwkSetOf t a → JwkSetOf t b → b ≡ a }
{}
