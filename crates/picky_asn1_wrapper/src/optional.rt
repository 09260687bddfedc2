// Optional fields with a default.
ghost use Rattle.std.specs.Prelude.{◌≡◌, ◌↔◌, IsTrue, IfOk};
ghost use Rattle.picky_asn1_wrapper.specs.Optional.{stands_next, ReadsOptional, WritesOptional};

use crate::equal_meaning::EqualMeaning;
use picky_asn1_tag::{Asn1Value, CopyIn, Empty};
use picky_der::{DerError, DerRead, DerReader, DerWrite};
use std::alloc::{AllocError, Global};
use std::ops::{Deref, DerefMut};

/// A field that is left out where it has its type's default. It is read and written inside its sequence.
#[derive(Debug, Drop, PartialEq, Eq, PartialOrd, Hash)]
pub struct Optional<T>(pub T);

impl<T> From<T> for Optional<T> {
    ghost from_gives = { λ value optional. optional.0 ≡ value };

    fn from(value: T) -> Optional<T> {
        Optional(value)
    }
}

impl<T> Deref for Optional<T> {
    type Target = T;

    ghost deref_gives = { λ optional value. value ≡ optional.0 };

    fn deref(&self) -> &T {
        &self.0
    }
}

impl<T> DerefMut for Optional<T> {
    ghost use Rattle.std.specs.Prelude.{◌≡◌};
    ghost use Rattle.std.specs.Borrow.{Lends, sem};
    ghost use Rattle.picky_asn1_wrapper.specs.contracts.optional.Optional.{the_row};

    ghost deref_mut_gives = { λ optional value. value ≡ optional.0 };

    /// The value, to be changed in place.
    fn deref_mut(&mut self) -> &mut T
        ensures* writes_back { sem 𝓛 (Lends (the_row T.row) T.row self.entry result (λ value. record { 0 = value })) }
        ensures shows { result.now ≡ self.old.0 }
    {
        &mut self.0
    }
}

impl<T: Asn1Value> Asn1Value for Optional<T> {
    ghost Meaning = { T.Meaning };

    ghost meaning = { λ optional. T.meaning optional.0 };
}

impl<T: CopyIn> Optional<T> {
    /// A copy, in memory of its own: the value in it means the same.
    pub fn clone(&self, alloc: Global) -> Result<Optional<T>, AllocError>
        ensures { IfOk result (λ copy. T.meaning copy.0 ≡ T.meaning self.now.0) }
    {
        Ok(Optional(self.0.copy_in(alloc)?))
    }
}

impl<T: CopyIn> CopyIn for Optional<T> {
    fn copy_in(&self, alloc: Global) -> Result<Optional<T>, AllocError> {
        self.clone(alloc)
    }
}

impl<T: Empty> Empty for Optional<T> {
    ghost IsDefault = { λ optional. T.IsDefault optional.0 };

    fn empty(alloc: Global) -> Result<Optional<T>, AllocError> {
        Ok(Optional(T::empty(alloc)?))
    }

    ghost one_default = { λ x y p. T.one_default x.0 y.0 p };
}

impl<T: Empty + EqualMeaning + Drop> Optional<T> {
    /// Whether the value is the type's default.
    pub fn is_default(&self, alloc: Global) -> Result<bool, AllocError>
        ensures { IfOk result (λ is. IsTrue is ↔ T.IsDefault self.now.0) }
    {
        let default = T::empty(alloc)?;
        Ok(self.0 == default)
    }
}

#[tactic(auto, unfolding(picky_der::specs::Reading::tag_at))]
fn stands_next<T: DerRead>(reader: &DerReader<'_>) -> bool
    ensures { result ≡ stands_next T.form.begins reader.now.left }
{
    match reader.peek_tag() {
        Ok(peeker) => T::begins_with(peeker.next_tag),
        Err(_) => false,
    }
}

impl<T: Empty + DerRead> Optional<T> {
    /// The value that stands next, where T begins with the next tag; else, also where nothing is left, the default, and
    /// the reader stays.
    ///
    /// A fault of the value is kept, and the reader stays. Besides there is `OutOfMemory` alone.
    pub fn read_in(alloc: Global, reader: &mut DerReader<'_>) -> Result<Optional<T>, DerError>
        ensures { ReadsOptional (λ optional. T.stands_for optional.0) (λ optional. T.IsDefault optional.0) T.form reader.old result reader.new }
    {
        if !stands_next::<T>(reader) {
            return Ok(Optional(T::empty(alloc)?));
        }
        Ok(Optional(T::read_der(alloc, reader)?))
    }
}

impl<T: Empty + EqualMeaning + DerWrite + Drop> Optional<T> {
    /// Adds the encoding of the value at the end, or nothing for the default.
    ///
    /// `BadValue` where a value that isn't the default has no encoding; a refusal changes nothing.
    pub fn write_in(&self, alloc: Global, out: &mut Vec<u8>) -> Result<(), DerError>
        ensures { WritesOptional (T.IsDefault self.now.0) (λ s. T.form.Encodes s (T.stands_for self.now.0)) (T.form.Refused (T.stands_for self.now.0)) result out.old.items out.new.items }
    {
        if self.is_default(alloc)? {
            return Ok(());
        }
        self.0.write_der(alloc, out)
    }
}
