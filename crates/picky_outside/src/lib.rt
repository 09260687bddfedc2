//! The outside of the program, as traits with a written meaning: where its documents come from, and where its output goes.
//!
//! - [`Cabinet`]: documents under paths. [`MemoryCabinet`] and [`FixedCabinet`] hold them in memory, [`FileCabinet`] reads the real files.
//! - [`Sink`]: bytes written in pieces. [`MemorySink`] keeps them in memory, [`StdSink`] hands them to the real output.
#![tactic(auto)]

mod cabinet;
mod files;
mod fixed;
mod sink;
mod stdio;

pub use cabinet::{Cabinet, FetchFault, MemoryCabinet};
pub use files::FileCabinet;
pub use fixed::FixedCabinet;
pub use sink::{Failed, MemorySink, Sink, write_all};
pub use stdio::StdSink;
