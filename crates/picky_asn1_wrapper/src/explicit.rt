// Explicit tags.
ghost use Rattle.std.specs.Prelude.{◌≡◌, IfOk};
ghost use Rattle.picky_asn1_wrapper.specs.Enclosed.{explicit_tag, enclosed_form, enclosed_at};
ghost use Rattle.picky_asn1_wrapper.specs.laws.Enclosed.{enclosed_readable, enclosed_writable, enclosed_tagged, explicit_one_byte};

use picky_asn1_tag::{Asn1Type, Asn1Value, CopyIn, Empty, Tag};
use picky_der::{DerError, DerForm, DerRead, DerReader, DerTagged, DerWrite, write_value};
use std::alloc::{AllocError, Global};
use std::ops::{Deref, DerefMut};

/// A value alone in a constructed value with the context number N, which counts modulo 16: tag A0 + N (X.690 section
/// 8.14.2).
#[derive(Debug, Drop, PartialEq, Eq)]
pub struct ExplicitContextTag<const N: u8, T>(pub T);

impl<const N: u8, T> Asn1Type for ExplicitContextTag<N, T> {
    ghost TAG = { explicit_tag N };

    const TAG: Tag = Tag(0xa0 + N % 16);

    const NAME: &'static str = "ExplicitContextTag";

    ghost one_byte = { explicit_one_byte N };
}

impl<const N: u8, T> From<T> for ExplicitContextTag<N, T> {
    ghost from_gives = { λ value tagged. tagged.0 ≡ value };

    fn from(value: T) -> ExplicitContextTag<N, T> {
        ExplicitContextTag(value)
    }
}

impl<const N: u8, T> Deref for ExplicitContextTag<N, T> {
    type Target = T;

    ghost deref_gives = { λ tagged value. value ≡ tagged.0 };

    fn deref(&self) -> &T {
        &self.0
    }
}

impl<const N: u8, T> DerefMut for ExplicitContextTag<N, T> {
    ghost use Rattle.std.specs.Prelude.{◌≡◌};
    ghost use Rattle.std.specs.Borrow.{Lends, sem};
    ghost use Rattle.picky_asn1_wrapper.specs.contracts.explicit.ExplicitContextTag.{the_row};

    ghost deref_mut_gives = { λ tagged value. value ≡ tagged.0 };

    /// The value, to be changed in place.
    fn deref_mut(&mut self) -> &mut T
        ensures* writes_back { sem 𝓛 (Lends (the_row N.row T.row) T.row self.entry result (λ value. record { 0 = value })) }
        ensures shows { result.now ≡ self.old.0 }
    {
        &mut self.0
    }
}

impl<const N: u8, T: Asn1Value> Asn1Value for ExplicitContextTag<N, T> {
    ghost Meaning = { T.Meaning };

    ghost meaning = { λ tagged. T.meaning tagged.0 };
}

impl<const N: u8, T: CopyIn> ExplicitContextTag<N, T> {
    /// A copy, in memory of its own: the value in it means the same.
    pub fn clone(&self, alloc: Global) -> Result<ExplicitContextTag<N, T>, AllocError>
        ensures { IfOk result (λ copy. T.meaning copy.0 ≡ T.meaning self.now.0) }
    {
        Ok(ExplicitContextTag(self.0.copy_in(alloc)?))
    }
}

impl<const N: u8, T: CopyIn> CopyIn for ExplicitContextTag<N, T> {
    fn copy_in(&self, alloc: Global) -> Result<ExplicitContextTag<N, T>, AllocError> {
        self.clone(alloc)
    }
}

impl<const N: u8, T: Empty> Empty for ExplicitContextTag<N, T> {
    ghost IsDefault = { λ tagged. T.IsDefault tagged.0 };

    fn empty(alloc: Global) -> Result<ExplicitContextTag<N, T>, AllocError> {
        Ok(ExplicitContextTag(T::empty(alloc)?))
    }

    ghost one_default = { λ x y p. T.one_default x.0 y.0 p };
}

impl<const N: u8, T: DerForm> DerForm for ExplicitContextTag<N, T> {
    ghost Abstract = { T.Abstract };

    ghost stands_for = { λ tagged. T.stands_for tagged.0 };

    ghost form = { enclosed_form (explicit_tag N) T.form };

    ghost same_value = { λ x y e. T.same_value x.0 y.0 e };
}

impl<const N: u8, T: DerRead + Drop> DerRead for ExplicitContextTag<N, T> {
    fn begins_with(tag: Tag) -> bool {
        tag == Self::TAG
    }

    #[tactic(auto, unfolding(crate::specs::Enclosed::enclosed_at))]
    fn read_der(
        alloc: Global,
        reader: &mut DerReader<'_>,
    ) -> Result<ExplicitContextTag<N, T>, DerError> {
        let mut ahead = reader.fork();
        let mut inner = ahead.nested(Self::TAG)?;
        let value = T::read_der(alloc, &mut inner)?;
        inner.end()?;
        *reader = ahead;
        Ok(ExplicitContextTag(value))
    }

    ghost readable = { enclosed_readable T.form T.readable (explicit_tag N) };
}

impl<const N: u8, T: DerWrite> DerWrite for ExplicitContextTag<N, T> {
    fn write_der(&self, alloc: Global, out: &mut Vec<u8>) -> Result<(), DerError> {
        let mut contents = Vec::new(alloc);
        self.0.write_der(alloc, &mut contents)?;
        write_value(out, Self::TAG, &contents)
    }

    ghost writable = { enclosed_writable T.form T.writable (explicit_tag N) (explicit_one_byte N) };
}

impl<const N: u8, T: DerRead + DerWrite + Drop> DerTagged for ExplicitContextTag<N, T> {
    ghost tagged = { enclosed_tagged T.form (explicit_tag N) };
}
