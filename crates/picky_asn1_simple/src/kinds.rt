// The kinds of strings: a tag, a name, and the set of its characters.
ghost use Rattle.std.specs.Prelude.{◌≡◌, []};
ghost use Rattle.std.proofs.Common.{arith};
ghost use Rattle.std.specs.Str.{is_utf8};
ghost use Rattle.picky_asn1_tag.specs.Default.{one_default};
ghost use Rattle.picky_asn1_simple.specs.Sets.{is_ia5, is_numeric, is_printable, is_bmp};
ghost use Rattle.picky_asn1_simple.specs.laws.Sets.{ia5_decides, utf8_decides, numeric_decides, printable_decides, bmp_decides};

use crate::string::{DecidedSet, StringAsn1};
use picky_asn1_tag::{Asn1Type, Empty, Tag};
use picky_asn1_text::{
    BmpCharSet, BmpString, Ia5CharSet, Ia5String, NumericCharSet, PrintableCharSet, Utf8CharSet,
};
use std::alloc::{AllocError, Global};

impl DecidedSet for Utf8CharSet {
    ghost test = { is_utf8 };

    ghost decides = { utf8_decides };
}

impl DecidedSet for Ia5CharSet {
    ghost test = { is_ia5 };

    ghost decides = { ia5_decides };
}

impl DecidedSet for NumericCharSet {
    ghost test = { is_numeric };

    ghost decides = { numeric_decides };
}

impl DecidedSet for PrintableCharSet {
    ghost test = { is_printable };

    ghost decides = { printable_decides };
}

impl DecidedSet for BmpCharSet {
    ghost test = { is_bmp };

    ghost decides = { bmp_decides };
}

/// The kind of `Utf8StringAsn1`.
#[derive(Clone, Copy, Debug, PartialEq, Eq)]
pub struct Utf8StringKind;

impl Asn1Type for Utf8StringKind {
    ghost TAG = { record { 0 = 12 } };

    const TAG: Tag = Tag::UTF8_STRING;

    const NAME: &'static str = "Utf8StringAsn1";

    ghost one_byte = { λ h. absurd (Prim.omega arith) };
}

/// A UTF8String under its tag.
pub type Utf8StringAsn1 = StringAsn1<Utf8StringKind, Utf8CharSet>;

/// The kind of `NumericStringAsn1`.
#[derive(Clone, Copy, Debug, PartialEq, Eq)]
pub struct NumericStringKind;

impl Asn1Type for NumericStringKind {
    ghost TAG = { record { 0 = 18 } };

    const TAG: Tag = Tag::NUMERIC_STRING;

    const NAME: &'static str = "NumericStringAsn1";

    ghost one_byte = { λ h. absurd (Prim.omega arith) };
}

/// A NumericString under its tag.
pub type NumericStringAsn1 = StringAsn1<NumericStringKind, NumericCharSet>;

/// The kind of `PrintableStringAsn1`.
#[derive(Clone, Copy, Debug, PartialEq, Eq)]
pub struct PrintableStringKind;

impl Asn1Type for PrintableStringKind {
    ghost TAG = { record { 0 = 19 } };

    const TAG: Tag = Tag::PRINTABLE_STRING;

    const NAME: &'static str = "PrintableStringAsn1";

    ghost one_byte = { λ h. absurd (Prim.omega arith) };
}

/// A PrintableString under its tag.
pub type PrintableStringAsn1 = StringAsn1<PrintableStringKind, PrintableCharSet>;

/// The kind of `Ia5StringAsn1`.
#[derive(Clone, Copy, Debug, PartialEq, Eq)]
pub struct Ia5StringKind;

impl Asn1Type for Ia5StringKind {
    ghost TAG = { record { 0 = 22 } };

    const TAG: Tag = Tag::IA5_STRING;

    const NAME: &'static str = "Ia5StringAsn1";

    ghost one_byte = { λ h. absurd (Prim.omega arith) };
}

/// An IA5String under its tag.
pub type Ia5StringAsn1 = StringAsn1<Ia5StringKind, Ia5CharSet>;

/// No character.
impl Empty for Ia5StringAsn1 {
    ghost IsDefault = { λ wrapped. wrapped.string ≡ [] };

    fn empty(alloc: Global) -> Result<Ia5StringAsn1, AllocError> {
        Ok(StringAsn1::from(Ia5String::empty(alloc)?))
    }

    ghost one_default = { λ x y. one_default [] x.string y.string };
}

/// The kind of `GeneralStringAsn1`.
#[derive(Clone, Copy, Debug, PartialEq, Eq)]
pub struct GeneralStringKind;

impl Asn1Type for GeneralStringKind {
    ghost TAG = { record { 0 = 27 } };

    const TAG: Tag = Tag::GENERAL_STRING;

    const NAME: &'static str = "GeneralStringAsn1";

    ghost one_byte = { λ h. absurd (Prim.omega arith) };
}

/// A GeneralString of bytes 00 to 7F under its tag.
pub type GeneralStringAsn1 = StringAsn1<GeneralStringKind, Ia5CharSet>;

/// No character.
impl Empty for GeneralStringAsn1 {
    ghost IsDefault = { λ wrapped. wrapped.string ≡ [] };

    fn empty(alloc: Global) -> Result<GeneralStringAsn1, AllocError> {
        Ok(StringAsn1::from(Ia5String::empty(alloc)?))
    }

    ghost one_default = { λ x y. one_default [] x.string y.string };
}

/// The kind of `BmpStringAsn1`.
#[derive(Clone, Copy, Debug, PartialEq, Eq)]
pub struct BmpStringKind;

impl Asn1Type for BmpStringKind {
    ghost TAG = { record { 0 = 30 } };

    const TAG: Tag = Tag::BMP_STRING;

    const NAME: &'static str = "BmpStringAsn1";

    ghost one_byte = { λ h. absurd (Prim.omega arith) };
}

/// A BMPString under its tag: two bytes a character, the higher first.
pub type BmpStringAsn1 = StringAsn1<BmpStringKind, BmpCharSet>;

/// No character.
impl Empty for BmpStringAsn1 {
    ghost IsDefault = { λ wrapped. wrapped.string ≡ [] };

    fn empty(alloc: Global) -> Result<BmpStringAsn1, AllocError> {
        Ok(StringAsn1::from(BmpString::empty(alloc)?))
    }

    ghost one_default = { λ x y. one_default [] x.string y.string };
}
