// The traits of ASN.1 values.
ghost use Rattle.picky_asn1_date.specs.Moment.{Moment};
ghost use Rattle.picky_asn1_date.specs.declared.repr.UTCTimeRepr.{UTCTimeRepr};
ghost use Rattle.picky_asn1_date.specs.declared.repr.GeneralizedTimeRepr.{GeneralizedTimeRepr};

use crate::date::Date;
use crate::repr::{GeneralizedTimeRepr, UTCTimeRepr};
use picky_asn1_tag::{Asn1Value, CopyIn};
use std::alloc::{AllocError, Global};

impl<TR> Asn1Value for Date<TR> {
    ghost Meaning = { Moment };

    ghost meaning = { λ d. d };
}

impl<TR> CopyIn for Date<TR> {
    fn copy_in(&self, _alloc: Global) -> Result<Date<TR>, AllocError> {
        Ok(Date::new_unchecked(
            self.year(),
            self.month(),
            self.day(),
            self.hour(),
            self.minute(),
            self.second(),
        ))
    }
}

impl Asn1Value for UTCTimeRepr {
    ghost Meaning = { UTCTimeRepr };

    ghost meaning = { λ repr. repr };
}

impl CopyIn for UTCTimeRepr {
    fn copy_in(&self, _alloc: Global) -> Result<UTCTimeRepr, AllocError> {
        Ok(*self)
    }
}

impl Asn1Value for GeneralizedTimeRepr {
    ghost Meaning = { GeneralizedTimeRepr };

    ghost meaning = { λ repr. repr };
}

impl CopyIn for GeneralizedTimeRepr {
    fn copy_in(&self, _alloc: Global) -> Result<GeneralizedTimeRepr, AllocError> {
        Ok(*self)
    }
}
