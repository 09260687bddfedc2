//! The gate: whether an authorization text is admitted, and the program that says so.
//!
//! - [`Cabinet`], [`Sink`]: the outside, as traits with a written meaning; [`MemoryCabinet`],
//!   [`MemorySink`] in memory, [`FileCabinet`], [`StdSink`] over the real files and the real output.
#![tactic(auto)]

mod admission;
mod asked;
mod documents;
mod generated;
mod header;
pub mod laws;
mod lines;
mod policy;
mod program;
mod scheme;
mod token;
mod words;

pub use admission::{Admitted, Refusal, admit};
use asked::AdmitWords;
pub use picky_outside::{
    Cabinet, Failed, FetchFault, FileCabinet, FixedCabinet, MemoryCabinet, MemorySink, Sink,
    StdSink,
};
pub use picky_ring::{KeyName, KeysFault, Ring, RingEntry, ring_from_jwks};
pub use policy::Policy;
pub use program::{Status, run};
