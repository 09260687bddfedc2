// Strings of one character set.
ghost use Rattle.std.specs.Prelude.{◌≡◌, ◌↔◌, IsOk, IfOk, IfErr};
ghost use Rattle.picky_asn1_text.specs.declared.error.CharSetError.TheVariants.{Invalid};

use crate::char_set::{
    BmpCharSet, CharSet, Ia5CharSet, NumericCharSet, PrintableCharSet, Utf8CharSet,
};
use crate::error::CharSetError;
use picky_contract::Bytes;
use std::alloc::{AllocError, Global};
use std::convert::AsSlice;
use std::marker::{Model, PhantomData};

/// Bytes that are in the set `C`.
#[derive(Drop, PartialEq, Eq, PartialOrd, Ord, Hash)]
pub struct RestrictedString<C: CharSet> {
    bytes: Bytes,
    set: PhantomData<C>,
}

impl<C: CharSet> Model for RestrictedString<C> {
    ghost use Rattle.std.specs.Prelude.{ℕ, List};

    ghost Value = { List ℕ };

    ghost view = { λ s. s.bytes };

    ghost invariant = { λ s. C.allows s.bytes };

    ghost inverse = { λ bytes. record { bytes = bytes; set = _ } };
}

/// A string of digits and spaces.
pub type NumericString = RestrictedString<NumericCharSet>;

/// A string of letters, digits and the signs of PrintableString.
pub type PrintableString = RestrictedString<PrintableCharSet>;

/// A string of UTF-8.
pub type Utf8String = RestrictedString<Utf8CharSet>;

/// A string of bytes 00 to 7F.
pub type Ia5String = RestrictedString<Ia5CharSet>;

/// A string of characters of the Basic Multilingual Plane, two bytes each.
pub type BmpString = RestrictedString<BmpCharSet>;

impl<C: CharSet> RestrictedString<C> {
    /// These bytes, without taking memory; [`CharSetError::Invalid`] exactly where they aren't in the set.
    pub fn new(bytes: Vec<u8>) -> Result<RestrictedString<C>, CharSetError>
        ensures exactly { IsOk result ↔ C.allows bytes.items }
        ensures value { IfOk result (λ s. s ≡ bytes.items) }
        ensures err { IfErr result (λ e. e ≡ Invalid) }
    {
        if !C::check(&bytes) {
            return Err(CharSetError::Invalid);
        }
        Ok(RestrictedString::new_unchecked(bytes))
    }

    /// These bytes, which are in the set, without looking at them.
    pub fn new_unchecked(bytes: Vec<u8>) -> RestrictedString<C>
        requires { C.allows bytes.items }
        ensures { result ≡ bytes.items }
    {
        RestrictedString {
            bytes: Bytes::new(bytes),
            set: PhantomData,
        }
    }

    /// The bytes.
    pub fn as_bytes(&self) -> &[u8]
        ensures bytes { result.now ≡ self.now }
        ensures in_set { C.allows result.now }
    {
        self.bytes.as_slice()
    }

    /// The bytes, where Rust has `Deref`.
    pub fn as_slice(&self) -> &[u8]
        ensures bytes { result.now ≡ self.now }
        ensures in_set { C.allows result.now }
    {
        self.as_bytes()
    }

    /// The bytes, without taking memory.
    pub fn into_bytes(self) -> Vec<u8>
        ensures bytes { result.items ≡ self }
        ensures in_set { C.allows result.items }
    {
        let RestrictedString { bytes, set: _ } = self;
        bytes.into_vec()
    }

    /// A copy, in memory of its own.
    pub fn clone(&self, alloc: Global) -> Result<RestrictedString<C>, AllocError>
        ensures { IfOk result (λ copy. copy ≡ self.now) }
    {
        Ok(RestrictedString {
            bytes: self.bytes.clone(alloc)?,
            set: PhantomData,
        })
    }
}

impl<C: CharSet> AsSlice<u8> for RestrictedString<C> {
    ghost items = { λ s. s };

    fn as_slice(&self) -> &[u8] {
        self.as_bytes()
    }
}

impl<C: CharSet> From<RestrictedString<C>> for Vec<u8> {
    ghost from_gives = { λ s v. v.items ≡ s };

    fn from(string: RestrictedString<C>) -> Vec<u8> {
        string.into_bytes()
    }
}
