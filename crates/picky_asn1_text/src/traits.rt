// The traits of ASN.1 values, and how strings print.
ghost use Rattle.std.specs.Prelude.{◌≡◌, ℕ, List, [], Some};
ghost use Rattle.picky_asn1_tag.specs.Default.{one_default};
ghost use Rattle.picky_asn1_text.specs.Print.{text_or_hex};
ghost use Rattle.picky_asn1_text.specs.declared.char_set.NumericCharSet.{NumericCharSet};
ghost use Rattle.picky_asn1_text.specs.declared.char_set.PrintableCharSet.{PrintableCharSet};
ghost use Rattle.picky_asn1_text.specs.declared.char_set.Utf8CharSet.{Utf8CharSet};
ghost use Rattle.picky_asn1_text.specs.declared.char_set.Ia5CharSet.{Ia5CharSet};
ghost use Rattle.picky_asn1_text.specs.declared.char_set.BmpCharSet.{BmpCharSet};

use crate::char_set::{
    BmpCharSet, CharSet, Ia5CharSet, NumericCharSet, PrintableCharSet, Utf8CharSet,
};
use crate::restricted_string::{BmpString, Ia5String, RestrictedString, Utf8String};
use picky_asn1_tag::{Asn1Value, CopyIn, Empty, HexBytes};
use std::alloc::{AllocError, Global};
use std::fmt;

impl<C: CharSet> Asn1Value for RestrictedString<C> {
    ghost Meaning = { List ℕ };

    ghost meaning = { λ s. s };
}

impl<C: CharSet> CopyIn for RestrictedString<C> {
    fn copy_in(&self, alloc: Global) -> Result<RestrictedString<C>, AllocError> {
        self.clone(alloc)
    }
}

impl Empty for Utf8String {
    ghost IsDefault = { λ s. s ≡ [] };

    ghost one_default = { one_default [] };

    fn empty(alloc: Global) -> Result<Utf8String, AllocError> {
        Ok(RestrictedString::new_unchecked(Vec::new(alloc)))
    }
}

impl Empty for Ia5String {
    ghost IsDefault = { λ s. s ≡ [] };

    ghost one_default = { one_default [] };

    fn empty(alloc: Global) -> Result<Ia5String, AllocError> {
        Ok(RestrictedString::new_unchecked(Vec::new(alloc)))
    }
}

impl Empty for BmpString {
    ghost IsDefault = { λ s. s ≡ [] };

    ghost one_default = { one_default [] };

    fn empty(alloc: Global) -> Result<BmpString, AllocError> {
        Ok(RestrictedString::new_unchecked(Vec::new(alloc)))
    }
}

impl<C: CharSet> fmt::Display for RestrictedString<C> {
    ghost output = { λ s. Some (text_or_hex s) };

    /// The bytes as text where they are UTF-8, else `0x` and the bytes in upper-case hexadecimal.
    fn fmt<W: fmt::Write>(&self, f: &mut fmt::Formatter<W>) -> fmt::Result {
        match std::str::from_utf8(self.as_bytes()) {
            Ok(text) => f.write_str(text),
            Err(_) => write!(f, "{}", HexBytes(self.as_bytes())),
        }
    }
}

impl<C: CharSet> fmt::Debug for RestrictedString<C> {
    /// The set's name, `(`, what Display prints, and `)`.
    fn fmt<W: fmt::Write>(&self, f: &mut fmt::Formatter<W>) -> fmt::Result {
        write!(f, "{}({self})", C::NAME)
    }
}

impl Asn1Value for NumericCharSet {
    ghost Meaning = { NumericCharSet };

    ghost meaning = { λ set. set };
}

impl CopyIn for NumericCharSet {
    fn copy_in(&self, _alloc: Global) -> Result<NumericCharSet, AllocError> {
        Ok(*self)
    }
}

impl Asn1Value for PrintableCharSet {
    ghost Meaning = { PrintableCharSet };

    ghost meaning = { λ set. set };
}

impl CopyIn for PrintableCharSet {
    fn copy_in(&self, _alloc: Global) -> Result<PrintableCharSet, AllocError> {
        Ok(*self)
    }
}

impl Asn1Value for Utf8CharSet {
    ghost Meaning = { Utf8CharSet };

    ghost meaning = { λ set. set };
}

impl CopyIn for Utf8CharSet {
    fn copy_in(&self, _alloc: Global) -> Result<Utf8CharSet, AllocError> {
        Ok(*self)
    }
}

impl Asn1Value for Ia5CharSet {
    ghost Meaning = { Ia5CharSet };

    ghost meaning = { λ set. set };
}

impl CopyIn for Ia5CharSet {
    fn copy_in(&self, _alloc: Global) -> Result<Ia5CharSet, AllocError> {
        Ok(*self)
    }
}

impl Asn1Value for BmpCharSet {
    ghost Meaning = { BmpCharSet };

    ghost meaning = { λ set. set };
}

impl CopyIn for BmpCharSet {
    fn copy_in(&self, _alloc: Global) -> Result<BmpCharSet, AllocError> {
        Ok(*self)
    }
}
