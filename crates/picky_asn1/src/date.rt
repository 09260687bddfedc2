//! Dates.

pub use picky_asn1_date::{
    Date, DateError, GeneralizedTime, GeneralizedTimeRepr, TimeRepr, UTCTime, UTCTimeRepr,
};
