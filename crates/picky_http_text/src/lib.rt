//! The items of a header text (draft-cavage-http-signatures-12, section 4.1), found as spans of it.
//!
//! Nothing is copied and no memory is taken: [`raw_span`] says where the value of a key stands in a
//! text, [`clean_span`] where a value is without its outer quotes, [`number_of`] which number a value
//! writes.
#![tactic(auto)]

mod items;
pub mod laws;
mod number;
mod span;

pub use items::raw_span;
pub use number::number_of;
pub use span::{Span, clean_span, shifted, trim_span};
