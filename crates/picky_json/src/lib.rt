//! JSON trees: what `serde_json` reads, and what contracts say of it.
//!
//! - [`parse`]: the tree of bytes (`Tree` of `specs/Tree`), at most 127 deep.
//! - [`has_float`]: whether a tree is float-free (`FloatFree`).
//! - [`next_member`]: objects with exactly some members (`object_of` of `specs/Object`).
//! - [`json_text_of`], [`compact`]: compact texts.
#![tactic(auto)]

pub mod laws;
mod object;
mod text;
mod tree;

pub use object::next_member;
pub use text::{compact, json_text_of};
pub use tree::{has_float, parse};
