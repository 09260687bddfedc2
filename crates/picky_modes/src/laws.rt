//! What holds of the modes under every cipher, as the contracts of calls that do nothing.
ghost use Rattle.std.specs.Prelude.{◌≡◌, ◌<◌, ℕ, List, length};
ghost use Rattle.picky_modes.specs.Cbc.{IsCbc};

/// A text has one CBC encryption under a cipher and an initial block.
pub fn cbc_encrypts_to_one()
    ensures { (e : List ℕ → List ℕ) (v : ℕ) (iv text one other : List ℕ) → 0 < v → length iv ≡ v → IsCbc e v iv text one → IsCbc e v iv text other → one ≡ other }
{}
