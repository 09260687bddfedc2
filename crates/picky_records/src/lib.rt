//! The provider of a records document: its lines, what they answer, and how they are read.
#![tactic(auto)]

mod ask;
mod error;
mod fields;
mod line;
mod names;
mod question;
mod read;
mod recorded;
mod seen;

pub use error::RecordFault;
pub use line::Line;
pub use recorded::Recorded;
