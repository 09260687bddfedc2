//! What is proved of restricted strings beside their calls.
ghost use Rattle.std.specs.Prelude.{◌≡◌, ◌↔◌, List, ℕ, IsTrue, IsUtf8};
ghost use Rattle.std.specs.declared.cmp.Ordering.TheVariants.{Equal};
ghost use Rattle.picky_asn1_text.specs.Bmp.{IsBmp, IsBmpOf, IsWithinPlane};
ghost use Rattle.picky_asn1_text.specs.declared.char_set.NumericCharSet.{NumericCharSet};
ghost use Rattle.picky_asn1_text.specs.declared.char_set.PrintableCharSet.{PrintableCharSet};
ghost use Rattle.picky_asn1_text.specs.declared.char_set.Utf8CharSet.{Utf8CharSet};
ghost use Rattle.picky_asn1_text.specs.declared.char_set.Ia5CharSet.{Ia5CharSet};
ghost use Rattle.picky_asn1_text.specs.declared.char_set.BmpCharSet.{BmpCharSet};

use crate::char_set::{
    BmpCharSet, CharSet, Ia5CharSet, NumericCharSet, PrintableCharSet, Utf8CharSet,
};
use crate::restricted_string::RestrictedString;
use std::hash::Hash;

/// `to_utf8` of what `BmpString::from_str` makes of a text is this text, for characters up to U+FFFF:
/// a text that has these bytes is the only one. The bytes of every other text are outside the set, and
/// every list of bytes of the set is that of one such text.
pub fn bmp_strings_are_texts()
    ensures back { (text again bytes : List ℕ) → IsUtf8 text → IsUtf8 again → IsBmpOf text bytes → IsBmpOf again bytes → again ≡ text }
    ensures exactly { (text bytes : List ℕ) → IsUtf8 text → IsBmpOf text bytes → (IsBmp bytes ↔ IsWithinPlane text) }
    ensures every { (bytes : List ℕ) → IsBmp bytes → (text : List ℕ) × IsUtf8 text × IsBmpOf text bytes }
{}

/// Strings are equal where they hold the same bytes. Equal ones hash equally, and order and equality agree.
pub fn strings_compare<C: CharSet + Hash + Ord>(
    string: &RestrictedString<C>,
    other: &RestrictedString<C>,
)
    ensures same { IsTrue (⟦<RestrictedString<C> as PartialEq>⟧.eq string.now other.now) ↔ (string.now ≡ other.now) }
    ensures hash { IsTrue (⟦<RestrictedString<C> as PartialEq>⟧.eq string.now other.now) → ⟦<RestrictedString<C> as Hash>⟧.hash_input string.now ≡ ⟦<RestrictedString<C> as Hash>⟧.hash_input other.now }
    ensures order { IsTrue (⟦<RestrictedString<C> as PartialEq>⟧.eq string.now other.now) ↔ (⟦<RestrictedString<C> as Ord>⟧.cmp string.now other.now ≡ Equal) }
{}

/// Each set has one value: any two are equal, neither is before the other, and they hash equally.
pub fn sets_compare()
    ensures numeric { (x y : NumericCharSet) → IsTrue (⟦<NumericCharSet as PartialEq>⟧.eq x y) × (⟦<NumericCharSet as Ord>⟧.cmp x y ≡ Equal) × (⟦<NumericCharSet as Hash>⟧.hash_input x ≡ ⟦<NumericCharSet as Hash>⟧.hash_input y) }
    ensures printable { (x y : PrintableCharSet) → IsTrue (⟦<PrintableCharSet as PartialEq>⟧.eq x y) × (⟦<PrintableCharSet as Ord>⟧.cmp x y ≡ Equal) × (⟦<PrintableCharSet as Hash>⟧.hash_input x ≡ ⟦<PrintableCharSet as Hash>⟧.hash_input y) }
    ensures utf8 { (x y : Utf8CharSet) → IsTrue (⟦<Utf8CharSet as PartialEq>⟧.eq x y) × (⟦<Utf8CharSet as Ord>⟧.cmp x y ≡ Equal) × (⟦<Utf8CharSet as Hash>⟧.hash_input x ≡ ⟦<Utf8CharSet as Hash>⟧.hash_input y) }
    ensures ia5 { (x y : Ia5CharSet) → IsTrue (⟦<Ia5CharSet as PartialEq>⟧.eq x y) × (⟦<Ia5CharSet as Ord>⟧.cmp x y ≡ Equal) × (⟦<Ia5CharSet as Hash>⟧.hash_input x ≡ ⟦<Ia5CharSet as Hash>⟧.hash_input y) }
    ensures bmp { (x y : BmpCharSet) → IsTrue (⟦<BmpCharSet as PartialEq>⟧.eq x y) × (⟦<BmpCharSet as Ord>⟧.cmp x y ≡ Equal) × (⟦<BmpCharSet as Hash>⟧.hash_input x ≡ ⟦<BmpCharSet as Hash>⟧.hash_input y) }
{}
