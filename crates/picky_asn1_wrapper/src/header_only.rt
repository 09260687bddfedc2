// A tag with no contents.
ghost use Rattle.std.specs.Prelude.{◌≡◌, OnOk, IfErr};
ghost use Rattle.picky_der.specs.Reading.{IsOfBytes, Answers, Reads};
ghost use Rattle.picky_der.specs.Primitive.{primitive_form, primitive_at};
ghost use Rattle.picky_der.specs.Plain.{null_of, null_contents};
ghost use Rattle.picky_asn1_wrapper.specs.laws.Headers.{header_readable, header_writable, header_tagged};

use picky_asn1_tag::{Asn1Type, Asn1Value, CopyIn, Tag};
use picky_der::{DerError, DerForm, DerRead, DerReader, DerTagged, DerWrite, write_value};
use std::alloc::{AllocError, Global};
use std::marker::PhantomData;

/// T's tag with no contents.
#[derive(Debug, PartialEq, Eq, PartialOrd, Hash)]
#[derive_where(Clone, Copy)]
pub struct HeaderOnly<T: Asn1Type> {
    header: PhantomData<T>,
}

impl<T: Asn1Type> HeaderOnly<T> {
    /// The one value.
    pub fn new() -> HeaderOnly<T> {
        HeaderOnly {
            header: PhantomData,
        }
    }
}

impl<T: Asn1Type> Asn1Type for HeaderOnly<T> {
    ghost TAG = { T.TAG };

    const TAG: Tag = T::TAG;

    const NAME: &'static str = "HeaderOnly";

    ghost one_byte = { T.one_byte };
}

impl<T: Asn1Type> Asn1Value for HeaderOnly<T> {
    ghost Meaning = { Unit {0} };

    ghost meaning = { λ _. tt };
}

impl<T: Asn1Type> CopyIn for HeaderOnly<T> {
    fn copy_in(&self, _alloc: Global) -> Result<HeaderOnly<T>, AllocError> {
        Ok(*self)
    }
}

impl<T: Asn1Type> DerForm for HeaderOnly<T> {
    ghost Abstract = { Unit {0} };

    ghost stands_for = { λ _. tt };

    ghost form = { primitive_form T.TAG null_contents };

    ghost same_value = { λ _ _ e. e };
}

fn nothing_from(octets: &[u8]) -> Result<(), DerError>
    ensures answers { Answers (λ x. x) result (null_of octets.now) }
    ensures no_memory { IfErr result IsOfBytes }
{
    match octets {
        [] => Ok(()),
        [_, ..] => Err(DerError::BadValue),
    }
}

impl<T: Asn1Type> DerRead for HeaderOnly<T> {
    fn begins_with(tag: Tag) -> bool {
        tag == T::TAG
    }

    #[tactic(auto, unfolding(picky_der::specs::Primitive::primitive_at))]
    /// Takes no memory.
    fn read_der(_alloc: Global, reader: &mut DerReader<'_>) -> Result<HeaderOnly<T>, DerError>
        ensures reads { Reads (λ _. tt) (primitive_at T.TAG null_of) reader.old result reader.new }
        ensures no_memory { IfErr result IsOfBytes }
    {
        let mut ahead = reader.fork();
        nothing_from(ahead.read_value(T::TAG)?)?;
        *reader = ahead;
        Ok(HeaderOnly::new())
    }

    ghost readable = { header_readable T.TAG };
}

impl<T: Asn1Type> DerWrite for HeaderOnly<T> {
    fn write_der(&self, _alloc: Global, out: &mut Vec<u8>) -> Result<(), DerError> {
        write_value(out, T::TAG, &[])
    }

    ghost writable = { header_writable T.TAG T.one_byte };
}

impl<T: Asn1Type> DerTagged for HeaderOnly<T> {
    ghost tagged = { header_tagged T.TAG };
}
