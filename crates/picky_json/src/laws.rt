//! Laws of trees and objects: each is the contract of a function without a body.
ghost use Rattle.std.specs.Prelude.{◌≡◌, ◌≢◌, ◌≤◌, ◌↔◌, ℕ, List, [], ◌∷◌, true, None, Some};
ghost use Rattle.serde_json.specs.Data.{Data, Num, depth};
ghost use Rattle.serde_json.specs.Find.{get, is_float, as_i64, as_u64};
ghost use Rattle.picky_json.specs.Tree.{Tree};
ghost use Rattle.picky_json.specs.Object.{object_of};

/// Bytes have one tree at most.
pub fn tree_is_determined()
    ensures { (bytes : List ℕ) (t u : Data) → Tree bytes t → Tree bytes u → u ≡ t }
{}

/// Arrays and objects of a tree nest at most 127 deep.
pub fn depth_is_limited()
    ensures { (bytes : List ℕ) (t : Data) → Tree bytes t → depth t ≤ 127 }
{}

/// A number is held as a float exactly where it is neither an `i64` nor a `u64`.
pub fn floats_are_no_integers()
    ensures { (n : Num) → (is_float n ≡ true) ↔ ((as_i64 n ≡ None) × (as_u64 n ≡ None)) }
{}

/// What an object of some members holds under a name: the first that has it, else nothing.
pub fn object_by_name()
    ensures none { (q : List ℕ) → get q (object_of []) ≡ None }
    ensures here { (k : List ℕ) → (d : Data) → (ms : List (List ℕ × Data))
        → get k (object_of ((k, d) ∷ ms)) ≡ Some d }
    ensures other { (q k : List ℕ) → (d : Data) → (ms : List (List ℕ × Data)) → q ≢ k
        → get q (object_of ((k, d) ∷ ms)) ≡ get q (object_of ms) }
{}
