//! Examples of types in DER that are records of fields: what a type costs is its struct, its form and plain code.
#![tactic(auto)]

mod bag;
mod batch;
mod entry;
mod identifiers;

pub use bag::{Bag, BagKind};
pub use batch::Batch;
pub use entry::Entry;
pub use picky_levels::{read_levels, write_levels};

// The contents octets of 2.5.4.3.
const NAME: [u8; 3] = [0x55, 0x04, 0x03];

// The contents octets of 1.2.840.113549.1.9.2.
const COUNT: [u8; 9] = [0x2a, 0x86, 0x48, 0x86, 0xf7, 0x0d, 0x01, 0x09, 0x02];

// The contents octets of 1.2.840.113549.1.12.10.1.6.
const BAGS: [u8; 11] = [
    0x2a, 0x86, 0x48, 0x86, 0xf7, 0x0d, 0x01, 0x0c, 0x0a, 0x01, 0x06,
];
