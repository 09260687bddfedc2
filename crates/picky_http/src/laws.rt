//! Laws of HTTP signatures: each is the contract of a function without a body.
ghost use Rattle.std.specs.Prelude.{◌≡◌, ◌<◌, ℕ, IsTrue, List, length};
ghost use Rattle.std.specs.List.{AllByRecursion};
ghost use Rattle.picky_key.specs.declared.algorithm.SignatureAlgorithm.{SignatureAlgorithm};
ghost use Rattle.picky_http.specs.Printing.{printed, IsPrintable, without_algorithm, as_told, IsTellable};
ghost use Rattle.picky_http.specs.Reading.{Reading, HeaderReading};
ghost use Rattle.picky_http.specs.Signing.{Line, signing_string, IsPlain};

/// Signing strings determine what they cover: two nonempty lists of lines whose signing strings are equal are
/// equal, parts and answers, where names are lower-case tokens, answers hold no LF, methods no space, and the
/// answers for `(created)` and `(expires)` are decimal.
pub fn lines_are_determined()
    ensures { (ls ms : List Line) → 0 < length ls → 0 < length ms → AllByRecursion IsPlain ls → AllByRecursion IsPlain ms
        → signing_string ls ≡ signing_string ms → ls ≡ ms }
{}

/// A header text has one reading at most.
pub fn reading_is_determined()
    ensures { (text : List ℕ) (x y : Reading) → HeaderReading text x → HeaderReading text y → y ≡ x }
{}

/// A header text that is printed reads back as itself: where the key's name and an algorithm of another name have
/// no comma, double quote or outer white space, the parts are lower-case tokens and special parts, one at least, an
/// algorithm that is known has a name, and another has no name of a known one, and the signature is a base64 text
/// of its form. With the flag it reads back without its algorithm, of which then nothing is asked.
pub fn printed_reads_back()
    ensures itself { (r : Reading) → IsPrintable r → HeaderReading (printed r) r }
    ensures flagged { (r : Reading) → IsTrue r.legacy → IsPrintable (without_algorithm r) → HeaderReading (printed r) (without_algorithm r) }
{}

/// What is printed under an algorithm that is known, as the builder prints it, is told by its text, whether the algorithm has a name or
/// not: one that has none is told as a text of its own, and with the flag there is none.
pub fn printed_is_told()
    ensures { (r : Reading) (a : SignatureAlgorithm) → IsTellable r a → HeaderReading (printed r) (as_told r) }
{}
