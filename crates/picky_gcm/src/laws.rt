//! What holds of GHASH and of seals, as the contracts of calls that do nothing.
ghost use Rattle.std.specs.Prelude.{◌≡◌, ℕ, Bool, List, [], ◌∷◌, ◌++◌};
ghost use Rattle.picky_gcm.specs.Gcm.{Seal};
ghost use Rattle.picky_gcm.specs.Hash.{Ghash};
ghost use Rattle.picky_gcm.specs.Polynomial.{Mul, plus, zeros};

/// The hash of no blocks is zero, and that of blocks and one more is the product of the hash key and the sum of their hash
/// and that block.
pub fn hash_by_blocks()
    ensures none { (h : List Bool) → Ghash h [] ≡ zeros 128 }
    ensures more { (h : List Bool) → (xs : List (List Bool)) → (x : List Bool) → Ghash h (xs ++ x ∷ []) ≡ Mul (plus (Ghash h xs) x) h }
{}

/// No two texts have the same seal under one key, nonce and additional data.
pub fn seals_one_to_one()
    ensures { (key : List ℕ) → (nonce : List ℕ) → (aad : List ℕ) → (a : List ℕ) → (b : List ℕ) → Seal key nonce aad a ≡ Seal key nonce aad b → a ≡ b }
{}
