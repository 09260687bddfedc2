//! What is proved of simple values beside their calls.
ghost use Rattle.picky_der.specs.Form.{IsWrittenInForm, NestsAtMost};

use crate::bit_string::BitStringAsn1;
use crate::object_identifier::ObjectIdentifierAsn1;
use crate::string::{DecidedSet, StringAsn1};
use picky_asn1_tag::Asn1Type;
use picky_der::DerForm;

/// Each value that one of these types writes is in form.
pub fn values_are_written_in_form<K: Asn1Type, C: DecidedSet>()
    ensures strings { IsWrittenInForm ⟦<StringAsn1<K, C> as DerForm>⟧.form }
    ensures bits { IsWrittenInForm ⟦<BitStringAsn1 as DerForm>⟧.form }
    ensures identifiers { IsWrittenInForm ⟦<ObjectIdentifierAsn1 as DerForm>⟧.form }
{}

/// No spelling of one of these types nests a reader.
pub fn simple_values_nest_no_reader<K: Asn1Type, C: DecidedSet>()
    ensures strings { NestsAtMost 0 ⟦<StringAsn1<K, C> as DerForm>⟧.form }
    ensures bits { NestsAtMost 0 ⟦<BitStringAsn1 as DerForm>⟧.form }
    ensures identifiers { NestsAtMost 0 ⟦<ObjectIdentifierAsn1 as DerForm>⟧.form }
{}
