// Strings made from texts, and texts made from strings.
ghost use Rattle.std.specs.Prelude.{◌≡◌, ◌↔◌, IsOk, IfOk, IfErr, IsUtf8, string_bytes};
ghost use Rattle.picky_contract.specs.Refusals.{OkOrMemory};
ghost use Rattle.picky_asn1_text.specs.Bmp.{IsBmp, IsBmpOf, IsWithinPlane};
ghost use Rattle.picky_asn1_text.specs.Refusals.{char_set_fault};
ghost use Rattle.picky_asn1_text.specs.declared.error.CharSetError.TheVariants.{Invalid};

use crate::bmp::{character_of, first_unit};
use crate::char_set::Utf8Set;
use crate::error::CharSetError;
use crate::restricted_string::{BmpString, RestrictedString};
use std::alloc::{AllocError, Global};

impl<C: Utf8Set> RestrictedString<C> {
    /// The bytes of the text, copied; [`CharSetError::Invalid`] exactly where they aren't in the set.
    pub fn from_str(alloc: Global, text: &str) -> Result<RestrictedString<C>, CharSetError>
        ensures found { IfOk result (λ s. (s ≡ text.now) × C.allows text.now) }
        ensures every { C.allows text.now → OkOrMemory (λ s. s) char_set_fault result text.now }
    {
        RestrictedString::new(Vec::from_slice(alloc, text.as_bytes())?)
    }

    /// The bytes of the text, without taking memory; [`CharSetError::Invalid`] exactly where they aren't in the set.
    pub fn from_string(text: String) -> Result<RestrictedString<C>, CharSetError>
        ensures exactly { IsOk result ↔ C.allows (string_bytes text) }
        ensures value { IfOk result (λ s. s ≡ string_bytes text) }
        ensures err { IfErr result (λ e. e ≡ Invalid) }
    {
        RestrictedString::new(text.into_bytes())
    }

    /// The bytes as a text.
    pub fn as_utf8(&self) -> &str
        ensures { result.now ≡ self.now }
    {
        std::str::from_utf8(self.as_bytes()).unwrap()
    }

    /// The bytes as a text, without taking memory.
    pub fn into_string(self) -> String
        ensures { string_bytes result ≡ self }
    {
        String::from_utf8(self.into_bytes()).unwrap()
    }
}

impl BmpString {
    /// The characters of the text, two bytes each; [`CharSetError::Invalid`] exactly where one is above U+FFFF.
    pub fn from_str(alloc: Global, text: &str) -> Result<BmpString, CharSetError>
        ensures found { IfOk result (λ s. IsBmpOf text.now s × IsWithinPlane text.now) }
        ensures every { IsWithinPlane text.now → IfErr result (λ e. char_set_fault e ≡ None) }
    {
        let mut bytes = Vec::new(alloc);
        for character in text.chars() {
            let Ok(unit) = u16::try_from(character) else {
                return Err(CharSetError::Invalid);
            };
            bytes.extend_from_slice(&unit.to_be_bytes())?;
        }
        Ok(RestrictedString::new_unchecked(bytes))
    }

    /// The text whose characters these are.
    pub fn to_utf8(&self, alloc: Global) -> Result<String, AllocError>
        ensures { IfOk result (λ text. IsBmpOf (string_bytes text) self.now) }
    {
        let mut text = String::new(alloc);
        let mut left = self.as_bytes();
        while let Some((unit, rest)) = first_unit(left) {
            text.push(character_of(unit))?;
            left = rest;
        }
        Ok(text)
    }
}
