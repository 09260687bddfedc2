//! Records that hold records of their own type, as DER, nested at most so many levels: their form, all its laws, their reading and writing, once for all such types.
//!
//! - [`DerNested`] is what a type gives: what stands in it beside its items.
//! - [`read_levels`] and [`write_levels`] read and write it.
#![tactic(auto)]

mod nested;
mod reading;
mod writing;

pub use nested::DerNested;
pub use reading::read_levels;
pub use writing::write_levels;
