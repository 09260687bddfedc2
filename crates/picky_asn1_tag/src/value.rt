// The traits of ASN.1 values.
ghost use Rattle.std.specs.Prelude.{◌≡◌, ◌≢◌, ◌↔◌, ℕ, ◌%◌, List, [], Bool, false, IfOk, string_bytes};
ghost use Rattle.std.proofs.Common.{arith};
ghost use Rattle.picky_asn1_tag.specs.Default.{one_default};
ghost use Rattle.picky_asn1_tag.specs.declared.tag.Tag.{Tag};
ghost use Rattle.picky_asn1_tag.specs.declared.tag.TagClass.{TagClass};
ghost use Rattle.picky_asn1_tag.specs.declared.tag.Encoding.{Encoding};

use crate::tag::{Encoding, Tag, TagClass};
use std::alloc::{AllocError, Global};

/// A type with a tag of its own.
pub trait Asn1Type {
    ghost TAG: { Tag };

    /// The tag of its values.
    const TAG: Tag;

    /// The name of the type.
    const NAME: &'static str;

    /// The number isn't 31, so the tag is one byte.
    ghost one_byte: { TAG.0 % 32 ≢ 31 };
}

/// A type whose values mean something. Values with equal meanings are the same to every contract.
pub trait Asn1Value {
    ghost Meaning: { Type 0 };

    ghost meaning: { Self → Meaning };
}

/// A type whose values can be copied with an allocator.
pub trait CopyIn: Asn1Value {
    /// A copy that equals the value.
    fn copy_in(&self, alloc: Global) -> Result<Self, AllocError>
        ensures { IfOk result (λ copy. Self.meaning copy ≡ Self.meaning self.now) };
}

/// A type with a default.
pub trait Empty: Asn1Value {
    ghost IsDefault: { Self → Type 0 };

    /// The type's default.
    fn empty(alloc: Global) -> Result<Self, AllocError>
        ensures { IfOk result IsDefault };

    /// Beside one default, exactly the values of the same meaning are defaults.
    ghost one_default: { (x y : Self) → IsDefault x → (IsDefault y ↔ (Self.meaning x ≡ Self.meaning y)) };
}

impl Asn1Type for () {
    ghost TAG = { record { 0 = 5 } };

    const TAG: Tag = Tag::NULL;

    const NAME: &'static str = "()";

    ghost one_byte = { λ h. absurd (Prim.omega arith) };
}

impl Asn1Type for String {
    ghost TAG = { record { 0 = 12 } };

    const TAG: Tag = Tag::UTF8_STRING;

    const NAME: &'static str = "String";

    ghost one_byte = { λ h. absurd (Prim.omega arith) };
}

impl Asn1Type for bool {
    ghost TAG = { record { 0 = 1 } };

    const TAG: Tag = Tag::BOOLEAN;

    const NAME: &'static str = "bool";

    ghost one_byte = { λ h. absurd (Prim.omega arith) };
}

impl Asn1Type for u8 {
    ghost TAG = { record { 0 = 2 } };

    const TAG: Tag = Tag::INTEGER;

    const NAME: &'static str = "u8";

    ghost one_byte = { λ h. absurd (Prim.omega arith) };
}

impl Asn1Type for u16 {
    ghost TAG = { record { 0 = 2 } };

    const TAG: Tag = Tag::INTEGER;

    const NAME: &'static str = "u16";

    ghost one_byte = { λ h. absurd (Prim.omega arith) };
}

impl Asn1Type for u32 {
    ghost TAG = { record { 0 = 2 } };

    const TAG: Tag = Tag::INTEGER;

    const NAME: &'static str = "u32";

    ghost one_byte = { λ h. absurd (Prim.omega arith) };
}

impl Asn1Type for u64 {
    ghost TAG = { record { 0 = 2 } };

    const TAG: Tag = Tag::INTEGER;

    const NAME: &'static str = "u64";

    ghost one_byte = { λ h. absurd (Prim.omega arith) };
}

impl Asn1Type for u128 {
    ghost TAG = { record { 0 = 2 } };

    const TAG: Tag = Tag::INTEGER;

    const NAME: &'static str = "u128";

    ghost one_byte = { λ h. absurd (Prim.omega arith) };
}

impl Asn1Value for () {
    ghost Meaning = { Unit {0} };

    ghost meaning = { λ x. x };
}

impl CopyIn for () {
    fn copy_in(&self, _alloc: Global) -> Result<(), AllocError> {
        Ok(())
    }
}

impl Empty for () {
    ghost IsDefault = { λ value. value ≡ tt };

    fn empty(_alloc: Global) -> Result<(), AllocError> {
        Ok(())
    }

    ghost one_default = { λ x y. one_default tt x y };
}

impl Asn1Value for bool {
    ghost Meaning = { Bool };

    ghost meaning = { λ x. x };
}

impl CopyIn for bool {
    fn copy_in(&self, _alloc: Global) -> Result<bool, AllocError> {
        Ok(*self)
    }
}

impl Empty for bool {
    ghost IsDefault = { λ value. value ≡ false };

    fn empty(_alloc: Global) -> Result<bool, AllocError> {
        Ok(false)
    }

    ghost one_default = { λ x y. one_default false x y };
}

impl Asn1Value for u8 {
    ghost Meaning = { ℕ };

    ghost meaning = { λ x. x };
}

impl CopyIn for u8 {
    fn copy_in(&self, _alloc: Global) -> Result<u8, AllocError> {
        Ok(*self)
    }
}

impl Empty for u8 {
    ghost IsDefault = { λ value. value ≡ 0 };

    fn empty(_alloc: Global) -> Result<u8, AllocError> {
        Ok(0)
    }

    ghost one_default = { λ x y. one_default 0 x y };
}

impl Asn1Value for u16 {
    ghost Meaning = { ℕ };

    ghost meaning = { λ x. x };
}

impl CopyIn for u16 {
    fn copy_in(&self, _alloc: Global) -> Result<u16, AllocError> {
        Ok(*self)
    }
}

impl Empty for u16 {
    ghost IsDefault = { λ value. value ≡ 0 };

    fn empty(_alloc: Global) -> Result<u16, AllocError> {
        Ok(0)
    }

    ghost one_default = { λ x y. one_default 0 x y };
}

impl Asn1Value for u32 {
    ghost Meaning = { ℕ };

    ghost meaning = { λ x. x };
}

impl CopyIn for u32 {
    fn copy_in(&self, _alloc: Global) -> Result<u32, AllocError> {
        Ok(*self)
    }
}

impl Empty for u32 {
    ghost IsDefault = { λ value. value ≡ 0 };

    fn empty(_alloc: Global) -> Result<u32, AllocError> {
        Ok(0)
    }

    ghost one_default = { λ x y. one_default 0 x y };
}

impl Asn1Value for u64 {
    ghost Meaning = { ℕ };

    ghost meaning = { λ x. x };
}

impl CopyIn for u64 {
    fn copy_in(&self, _alloc: Global) -> Result<u64, AllocError> {
        Ok(*self)
    }
}

impl Empty for u64 {
    ghost IsDefault = { λ value. value ≡ 0 };

    fn empty(_alloc: Global) -> Result<u64, AllocError> {
        Ok(0)
    }

    ghost one_default = { λ x y. one_default 0 x y };
}

impl Asn1Value for u128 {
    ghost Meaning = { ℕ };

    ghost meaning = { λ x. x };
}

impl CopyIn for u128 {
    fn copy_in(&self, _alloc: Global) -> Result<u128, AllocError> {
        Ok(*self)
    }
}

impl Empty for u128 {
    ghost IsDefault = { λ value. value ≡ 0 };

    fn empty(_alloc: Global) -> Result<u128, AllocError> {
        Ok(0)
    }

    ghost one_default = { λ x y. one_default 0 x y };
}

impl Asn1Value for String {
    ghost Meaning = { List ℕ };

    ghost meaning = { string_bytes };
}

impl CopyIn for String {
    fn copy_in(&self, _alloc: Global) -> Result<String, AllocError> {
        Ok(self.clone()?)
    }
}

impl Empty for String {
    ghost IsDefault = { λ value. string_bytes value ≡ [] };

    fn empty(alloc: Global) -> Result<String, AllocError> {
        Ok(String::new(alloc))
    }

    ghost one_default = { λ x y. one_default [] (string_bytes x) (string_bytes y) };
}

impl Asn1Value for Tag {
    ghost Meaning = { Tag };

    ghost meaning = { λ tag. tag };
}

impl CopyIn for Tag {
    fn copy_in(&self, _alloc: Global) -> Result<Tag, AllocError> {
        Ok(*self)
    }
}

impl Asn1Value for TagClass {
    ghost Meaning = { TagClass };

    ghost meaning = { λ class. class };
}

impl CopyIn for TagClass {
    fn copy_in(&self, _alloc: Global) -> Result<TagClass, AllocError> {
        Ok(*self)
    }
}

impl Asn1Value for Encoding {
    ghost Meaning = { Encoding };

    ghost meaning = { λ encoding. encoding };
}

impl CopyIn for Encoding {
    fn copy_in(&self, _alloc: Global) -> Result<Encoding, AllocError> {
        Ok(*self)
    }
}
