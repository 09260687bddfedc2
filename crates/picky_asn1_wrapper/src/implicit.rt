// Implicit tags.
ghost use Rattle.std.specs.Prelude.{◌≡◌, ◌<◌, ◌∷◌, length, drop, IfOk, IfErr};
ghost use Rattle.picky_der.specs.declared.fault.DerError.TheVariants.{OutOfMemory};
ghost use Rattle.picky_der.specs.Length.{value_of};
ghost use Rattle.picky_asn1_wrapper.specs.Enclosed.{implicit_tag};
ghost use Rattle.picky_asn1_wrapper.specs.Implicit.{implicit_form, implicit_at};
ghost use Rattle.picky_asn1_wrapper.specs.laws.Enclosed.{implicit_one_byte};
ghost use Rattle.picky_asn1_wrapper.specs.laws.Implicit.{implicit_readable, implicit_writable, implicit_tagged};

use picky_asn1_tag::{Asn1Type, Asn1Value, CopyIn, Empty, Tag};
use picky_der::{DerError, DerForm, DerRead, DerReader, DerTagged, DerWrite, write_value};
use std::alloc::{AllocError, Global};
use std::ops::{Deref, DerefMut};

/// A value under a primitive tag with the context number N, which counts modulo 16: tag 80 + N (X.690 section 8.14.3).
#[derive(Debug, Drop, PartialEq, Eq)]
pub struct ImplicitContextTag<const N: u8, T>(pub T);

impl<const N: u8, T> Asn1Type for ImplicitContextTag<N, T> {
    ghost TAG = { implicit_tag N };

    const TAG: Tag = Tag(0x80 + N % 16);

    const NAME: &'static str = "ImplicitContextTag";

    ghost one_byte = { implicit_one_byte N };
}

impl<const N: u8, T> From<T> for ImplicitContextTag<N, T> {
    ghost from_gives = { λ value tagged. tagged.0 ≡ value };

    fn from(value: T) -> ImplicitContextTag<N, T> {
        ImplicitContextTag(value)
    }
}

impl<const N: u8, T> Deref for ImplicitContextTag<N, T> {
    type Target = T;

    ghost deref_gives = { λ tagged value. value ≡ tagged.0 };

    fn deref(&self) -> &T {
        &self.0
    }
}

impl<const N: u8, T> DerefMut for ImplicitContextTag<N, T> {
    ghost use Rattle.std.specs.Prelude.{◌≡◌};
    ghost use Rattle.std.specs.Borrow.{Lends, sem};
    ghost use Rattle.picky_asn1_wrapper.specs.contracts.implicit.ImplicitContextTag.{the_row};

    ghost deref_mut_gives = { λ tagged value. value ≡ tagged.0 };

    /// The value, to be changed in place.
    fn deref_mut(&mut self) -> &mut T
        ensures* writes_back { sem 𝓛 (Lends (the_row N.row T.row) T.row self.entry result (λ value. record { 0 = value })) }
        ensures shows { result.now ≡ self.old.0 }
    {
        &mut self.0
    }
}

impl<const N: u8, T: Asn1Value> Asn1Value for ImplicitContextTag<N, T> {
    ghost Meaning = { T.Meaning };

    ghost meaning = { λ tagged. T.meaning tagged.0 };
}

impl<const N: u8, T: CopyIn> ImplicitContextTag<N, T> {
    /// A copy, in memory of its own: the value in it means the same.
    pub fn clone(&self, alloc: Global) -> Result<ImplicitContextTag<N, T>, AllocError>
        ensures { IfOk result (λ copy. T.meaning copy.0 ≡ T.meaning self.now.0) }
    {
        Ok(ImplicitContextTag(self.0.copy_in(alloc)?))
    }
}

impl<const N: u8, T: CopyIn> CopyIn for ImplicitContextTag<N, T> {
    fn copy_in(&self, alloc: Global) -> Result<ImplicitContextTag<N, T>, AllocError> {
        self.clone(alloc)
    }
}

impl<const N: u8, T: Empty> Empty for ImplicitContextTag<N, T> {
    ghost IsDefault = { λ tagged. T.IsDefault tagged.0 };

    fn empty(alloc: Global) -> Result<ImplicitContextTag<N, T>, AllocError> {
        Ok(ImplicitContextTag(T::empty(alloc)?))
    }

    ghost one_default = { λ x y p. T.one_default x.0 y.0 p };
}

impl<const N: u8, T: DerTagged> DerForm for ImplicitContextTag<N, T> {
    ghost Abstract = { T.Abstract };

    ghost stands_for = { λ tagged. T.stands_for tagged.0 };

    ghost form = { implicit_form (implicit_tag N) T.TAG T.form };

    ghost same_value = { λ x y e. T.same_value x.0 y.0 e };
}

// The contents as a value of T's tag.
fn under_own_tag<T: DerTagged>(alloc: Global, contents: &[u8]) -> Result<Vec<u8>, DerError>
    ensures ok { IfOk result (λ copy. copy.items ≡ value_of T.TAG.0 contents.now) }
    ensures err { IfErr result (λ fault. fault ≡ OutOfMemory) }
{
    let mut copy = Vec::new(alloc);
    write_value(&mut copy, T::TAG, contents)?;
    Ok(copy)
}

impl<const N: u8, T: DerTagged + Drop> DerRead for ImplicitContextTag<N, T> {
    fn begins_with(tag: Tag) -> bool {
        tag == Self::TAG
    }

    #[tactic(auto, unfolding(crate::specs::Implicit::implicit_at))]
    fn read_der(
        alloc: Global,
        reader: &mut DerReader<'_>,
    ) -> Result<ImplicitContextTag<N, T>, DerError> {
        let mut ahead = reader.fork();
        let contents = ahead.read_value(Self::TAG)?;
        let copy = under_own_tag::<T>(alloc, contents)?;
        let mut inner = reader.with_bytes(&copy);
        let value = T::read_der(alloc, &mut inner)?;
        *reader = ahead;
        Ok(ImplicitContextTag(value))
    }

    ghost readable = { implicit_readable T.form T.readable (implicit_tag N) T.TAG (implicit_one_byte N) T.tagged T.one_byte };
}

fn set_first(bytes: &mut Vec<u8>, tag: Tag)
    requires { 0 < length bytes.old.items }
    ensures { bytes.new.items ≡ tag.0 ∷ drop 1 bytes.old.items }
{
    bytes[0] = tag.0;
}

impl<const N: u8, T: DerTagged> DerWrite for ImplicitContextTag<N, T> {
    fn write_der(&self, alloc: Global, out: &mut Vec<u8>) -> Result<(), DerError> {
        let mut value = Vec::new(alloc);
        self.0.write_der(alloc, &mut value)?;
        set_first(&mut value, Self::TAG);
        out.extend_from_slice(&value)?;
        Ok(())
    }

    ghost writable = { implicit_writable T.form T.writable (implicit_tag N) T.TAG (implicit_one_byte N) };
}

impl<const N: u8, T: DerTagged + Drop> DerTagged for ImplicitContextTag<N, T> {
    ghost tagged = { implicit_tagged T.form (implicit_tag N) T.TAG };
}
