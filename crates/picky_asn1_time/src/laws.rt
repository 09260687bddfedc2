//! What is proved of dates under a tag beside their calls.
ghost use Rattle.picky_der.specs.Form.{IsWrittenInForm, NestsAtMost};

use crate::time::{DateAsn1, DecidedTime};
use picky_asn1_tag::Asn1Type;
use picky_der::DerForm;

/// Each date that is written is in form.
pub fn dates_are_written_in_form<K: Asn1Type, TR: DecidedTime>()
    ensures { IsWrittenInForm ⟦<DateAsn1<K, TR> as DerForm>⟧.form }
{}

/// No spelling of a date nests a reader.
pub fn dates_nest_no_reader<K: Asn1Type, TR: DecidedTime>()
    ensures { NestsAtMost 0 ⟦<DateAsn1<K, TR> as DerForm>⟧.form }
{}
