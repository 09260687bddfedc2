//! What the contracts of all crates share.
//!
//! - `specs/Refusals`: the one form in which a call says which value it answers, which refusal is due
//!   and in what order, with want of memory free (`Table`, `Meets`, `OkOrMemory`, `Finds`).
//! - `specs/Causes`: answers that come only where something outside failed (`Rose`).
//! - [`Bytes`]: a vector of bytes that contracts see as its list.
//! - [`cut_at_first`], [`cut_at_last`]: a text before and after a mark.
//! - [`equal_bytes`]: a comparison that looks at every byte.
#![tactic(auto)]

mod bytes;
mod compare;
mod cut;

pub use bytes::Bytes;
pub use compare::equal_bytes;
pub use cut::{cut_at_first, cut_at_last};
