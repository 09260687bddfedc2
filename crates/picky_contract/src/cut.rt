// Cuts of a text at an ASCII character.
ghost use Rattle.std.specs.Prelude.{◌≡◌, ◌<◌, List, ℕ, IfSome, IsSomeAnd};
ghost use Rattle.picky_contract.specs.Text.{IsCutAtFirst, IsCutAtLast};

/// What stands before and after the first such ASCII character; `None` exactly where there is none.
pub fn cut_at_first(text: &str, mark: char) -> Option<(&str, &str)>
    requires { mark < 128 }
    ensures found { IfSome result (λ x. IsCutAtFirst mark text.now x.0.now x.1.now) }
    ensures every { (front back : List ℕ) → IsCutAtFirst mark text.now front back
        → IsSomeAnd result (λ x. (x.0.now ≡ front) × (x.1.now ≡ back)) }
{
    text.split_once(mark)
}

/// What stands before and after the last such ASCII character; `None` exactly where there is none.
pub fn cut_at_last(text: &str, mark: char) -> Option<(&str, &str)>
    requires { mark < 128 }
    ensures found { IfSome result (λ x. IsCutAtLast mark text.now x.0.now x.1.now) }
    ensures every { (front back : List ℕ) → IsCutAtLast mark text.now front back
        → IsSomeAnd result (λ x. (x.0.now ≡ front) × (x.1.now ≡ back)) }
{
    text.rsplit_once(mark)
}
