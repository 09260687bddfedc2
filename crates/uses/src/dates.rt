// Dates of certificates.
ghost use Rattle.std.specs.Prelude.{IfOk};
ghost use Rattle.picky_contract.specs.Refusals.{OkOrMemory};
ghost use Rattle.picky_asn1_date.specs.DateText.{utc_text, IsUtcYear};
ghost use Rattle.picky_asn1_date.specs.Faults.{date_fault};
ghost use Rattle.picky_asn1_date.specs.Moment.{Moment};
ghost use Rattle.uses.specs.Dates.{IsGeneralizedText, IsUtcText};

use picky_asn1::date::{DateError, GeneralizedTime, UTCTime};
use std::alloc::Global;

/// The UTCTime text of the date of a GeneralizedTime text, as a certificate has its dates before 2050 (RFC 5280, section 4.1.2.5).
pub fn utc_text_of(alloc: Global, text: &[u8]) -> Result<Vec<u8>, DateError>
    ensures found { IfOk result (λ v. (m : Moment) × IsGeneralizedText text.now m × IsUtcText v.items m) }
    ensures every { (m : Moment) → IsGeneralizedText text.now m → IsUtcYear m.year → OkOrMemory (λ v. v.items) date_fault result (utc_text m) }
{
    let date = GeneralizedTime::read_text(text)?;
    let same = UTCTime::new_unchecked(
        date.year(),
        date.month(),
        date.day(),
        date.hour(),
        date.minute(),
        date.second(),
    );
    same.write_text(alloc)
}
