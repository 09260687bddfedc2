// Character sets.
ghost use Rattle.std.specs.Prelude.{◌≡◌, ◌↔◌, ◌⊎◌, ◌<◌, List, ℕ, IsTrue, IsUtf8};
ghost use Rattle.picky_asn1_text.specs.CharSets.{IsDigit, IsCapitalLetter, IsSmallLetter, IsPrintableSign, IsNumeric, IsPrintable, IsIa5};
ghost use Rattle.picky_asn1_text.specs.Bmp.{IsBmp};
ghost use Rattle.picky_asn1_text.specs.laws.Ascii.{numeric_utf8, printable_utf8, ia5_utf8};

use crate::bmp::is_bmp;

/// A set of byte lists, with the test that decides it.
pub trait CharSet {
    /// The byte lists that are in the set.
    ghost allows: { List ℕ → Type 0 };

    /// The set's name in Debug texts.
    const NAME: &'static str;

    /// Whether the bytes are in the set.
    fn check(bytes: &[u8]) -> bool
        ensures { IsTrue result ↔ allows bytes.now };
}

/// A set whose byte lists are all UTF-8.
pub trait Utf8Set: CharSet {
    ghost is_utf8: { (bytes : List ℕ) → Self.allows bytes → IsUtf8 bytes };
}

/// The set of NumericString: digits and space (X.680, 41.2).
#[derive(Clone, Copy, Debug, PartialEq, Eq, PartialOrd, Ord, Hash)]
pub struct NumericCharSet;

impl CharSet for NumericCharSet {
    ghost allows = { IsNumeric };

    const NAME: &'static str = "NUMERIC";

    fn check(bytes: &[u8]) -> bool {
        bytes.iter().all(|b| is_numeric(*b))
    }
}

impl Utf8Set for NumericCharSet {
    ghost is_utf8 = { numeric_utf8 };
}

fn is_numeric(byte: u8) -> bool
    ensures { IsTrue result ↔ (IsDigit byte ⊎ (byte ≡ 0x20)) }
{
    byte.is_ascii_digit() || byte == b' '
}

/// The set of PrintableString: letters, digits and the signs space `'()+,-./:=?` (X.680, 41.4).
#[derive(Clone, Copy, Debug, PartialEq, Eq, PartialOrd, Ord, Hash)]
pub struct PrintableCharSet;

impl CharSet for PrintableCharSet {
    ghost allows = { IsPrintable };

    const NAME: &'static str = "PRINTABLE";

    fn check(bytes: &[u8]) -> bool {
        bytes.iter().all(|b| is_printable(*b))
    }
}

impl Utf8Set for PrintableCharSet {
    ghost is_utf8 = { printable_utf8 };
}

fn is_printable(byte: u8) -> bool
    ensures { IsTrue result ↔ (IsCapitalLetter byte ⊎ IsSmallLetter byte ⊎ IsDigit byte ⊎ IsPrintableSign byte) }
{
    byte.is_ascii_uppercase()
        || byte.is_ascii_lowercase()
        || byte.is_ascii_digit()
        || is_printable_sign(byte)
}

fn is_printable_sign(byte: u8) -> bool
    ensures { IsTrue result ↔ IsPrintableSign byte }
{
    b" '()+,-./:=?".contains(&byte)
}

/// The set of UTF8String: valid UTF-8 (X.680, 41.16; RFC 3629).
#[derive(Clone, Copy, Debug, PartialEq, Eq, PartialOrd, Ord, Hash)]
pub struct Utf8CharSet;

impl CharSet for Utf8CharSet {
    ghost allows = { IsUtf8 };

    const NAME: &'static str = "UTF8";

    fn check(bytes: &[u8]) -> bool {
        std::str::from_utf8(bytes).is_ok()
    }
}

impl Utf8Set for Utf8CharSet {
    ghost is_utf8 = { λ bytes h. h };
}

/// The set of IA5String: bytes 00 to 7F (X.680, clause 41, table 8).
#[derive(Clone, Copy, Debug, PartialEq, Eq, PartialOrd, Ord, Hash)]
pub struct Ia5CharSet;

impl CharSet for Ia5CharSet {
    ghost allows = { IsIa5 };

    const NAME: &'static str = "IA5";

    fn check(bytes: &[u8]) -> bool {
        bytes.iter().all(|b| b.is_ascii())
    }
}

impl Utf8Set for Ia5CharSet {
    ghost is_utf8 = { ia5_utf8 };
}

/// The set of BMPString: two bytes, the higher first, for each character of the Basic Multilingual Plane (X.680, 41.15).
#[derive(Clone, Copy, Debug, PartialEq, Eq, PartialOrd, Ord, Hash)]
pub struct BmpCharSet;

impl CharSet for BmpCharSet {
    ghost allows = { IsBmp };

    const NAME: &'static str = "BMP";

    fn check(bytes: &[u8]) -> bool {
        is_bmp(bytes)
    }
}
