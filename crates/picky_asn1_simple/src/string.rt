// Restricted strings under a tag.
ghost use Rattle.std.specs.Prelude.{◌≡◌, ℕ, List, Bool, IfOk};
ghost use Rattle.std.specs.Bool.{Decides};
ghost use Rattle.picky_der.specs.Reading.{Answers};
ghost use Rattle.picky_der.specs.Primitive.{primitive_form, primitive_at};
ghost use Rattle.picky_asn1_simple.specs.Sets.{tested_of, tested_contents};
ghost use Rattle.picky_asn1_simple.specs.laws.Sets.{tested_readable, tested_writable, tested_tagged};

use picky_asn1_tag::{Asn1Type, Asn1Value, CopyIn, Tag};
use picky_asn1_text::{CharSet, RestrictedString};
use picky_der::{DerError, DerForm, DerRead, DerReader, DerTagged, DerWrite, write_value};
use std::alloc::{AllocError, Global};
use std::marker::PhantomData;
use std::ops::{Deref, DerefMut};

/// A set of byte lists with a test that contracts can run.
pub trait DecidedSet: CharSet {
    /// The test.
    ghost test: { List ℕ → Bool };

    /// It passes exactly the byte lists of the set.
    ghost decides: { (octets : List ℕ) → Decides (test octets) (Self.allows octets) };
}

/// A string of the set `C` under the tag of the kind `K` (X.690 section 8.23).
///
/// Reading answers `BadValue` exactly where the contents octets aren't in the set.
#[derive(Debug, Drop, PartialEq, Eq)]
pub struct StringAsn1<K: Asn1Type, C: CharSet> {
    string: RestrictedString<C>,
    kind: PhantomData<K>,
}

impl<K: Asn1Type, C: CharSet> From<RestrictedString<C>> for StringAsn1<K, C> {
    ghost from_gives = { λ string wrapped. wrapped.string ≡ string };

    fn from(string: RestrictedString<C>) -> StringAsn1<K, C> {
        StringAsn1 {
            string,
            kind: PhantomData,
        }
    }
}

impl<K: Asn1Type, C: CharSet> From<StringAsn1<K, C>> for RestrictedString<C> {
    ghost from_gives = { λ wrapped string. string ≡ wrapped.string };

    fn from(wrapped: StringAsn1<K, C>) -> RestrictedString<C> {
        let StringAsn1 { string, kind: _ } = wrapped;
        string
    }
}

impl<K: Asn1Type, C: CharSet> Deref for StringAsn1<K, C> {
    type Target = RestrictedString<C>;

    ghost deref_gives = { λ wrapped string. string ≡ wrapped.string };

    fn deref(&self) -> &RestrictedString<C> {
        &self.string
    }
}

impl<K: Asn1Type, C: CharSet> DerefMut for StringAsn1<K, C> {
    ghost use Rattle.std.specs.Prelude.{◌≡◌};
    ghost use Rattle.std.specs.Borrow.{Lends, sem};
    ghost use Rattle.picky_asn1_text.specs.contracts.restricted_string.RestrictedString as inner;
    ghost use Rattle.picky_asn1_simple.specs.contracts.string.StringAsn1.{the_row};

    ghost deref_mut_gives = { λ wrapped string. string ≡ wrapped.string };

    /// The string, to be changed in place.
    fn deref_mut(&mut self) -> &mut RestrictedString<C>
        ensures* writes_back { sem 𝓛 (Lends (the_row K.row C.row C.CharSet) (inner.the_row C.row C.CharSet) self.entry result (λ string. record self.old { string = string })) }
        ensures shows { result.now ≡ self.old.string }
    {
        &mut self.string
    }
}

impl<K: Asn1Type, C: CharSet> StringAsn1<K, C> {
    /// A copy, in memory of its own.
    pub fn clone(&self, alloc: Global) -> Result<StringAsn1<K, C>, AllocError>
        ensures { IfOk result (λ copy. copy ≡ self.now) }
    {
        Ok(StringAsn1::from(self.string.clone(alloc)?))
    }
}

impl<K: Asn1Type, C: CharSet> Asn1Type for StringAsn1<K, C> {
    ghost TAG = { K.TAG };

    const TAG: Tag = K::TAG;

    const NAME: &'static str = K::NAME;

    ghost one_byte = { K.one_byte };
}

impl<K: Asn1Type, C: CharSet> Asn1Value for StringAsn1<K, C> {
    ghost Meaning = { List ℕ };

    ghost meaning = { λ wrapped. wrapped.string };
}

impl<K: Asn1Type, C: CharSet> CopyIn for StringAsn1<K, C> {
    fn copy_in(&self, alloc: Global) -> Result<StringAsn1<K, C>, AllocError> {
        self.clone(alloc)
    }
}

impl<K: Asn1Type, C: DecidedSet> DerForm for StringAsn1<K, C> {
    ghost Abstract = { List ℕ };

    ghost stands_for = { λ wrapped. wrapped.string };

    ghost form = { primitive_form K.TAG (tested_contents C.allows C.test) };

    ghost same_value = { λ _ _ e. e };
}

// The octets, where they are in the set.
fn checked<C: DecidedSet>(octets: &[u8]) -> Result<&[u8], DerError>
    ensures answers { Answers (λ x. x.now) result (tested_of C.test octets.now) }
    ensures in_set { IfOk result (λ x. C.allows x.now) }
{
    if !C::check(octets) {
        return Err(DerError::BadValue);
    }
    Ok(octets)
}

impl<K: Asn1Type, C: DecidedSet> DerRead for StringAsn1<K, C> {
    fn begins_with(tag: Tag) -> bool {
        tag == K::TAG
    }

    #[tactic(auto, unfolding(picky_der::specs::Primitive::primitive_at))]
    fn read_der(alloc: Global, reader: &mut DerReader<'_>) -> Result<StringAsn1<K, C>, DerError> {
        let mut ahead = reader.fork();
        let octets = checked::<C>(ahead.read_value(K::TAG)?)?;
        let string = RestrictedString::new_unchecked(Vec::from_slice(alloc, octets)?);
        *reader = ahead;
        Ok(StringAsn1::from(string))
    }

    ghost readable = { tested_readable C.allows C.test C.decides K.TAG };
}

impl<K: Asn1Type, C: DecidedSet> DerWrite for StringAsn1<K, C> {
    fn write_der(&self, _alloc: Global, out: &mut Vec<u8>) -> Result<(), DerError> {
        write_value(out, K::TAG, self.string.as_bytes())
    }

    ghost writable = { tested_writable C.allows C.test C.decides K.TAG K.one_byte };
}

impl<K: Asn1Type, C: DecidedSet> DerTagged for StringAsn1<K, C> {
    ghost tagged = { tested_tagged K.TAG C.allows C.test };
}
