//! Members of a JSON object as fields of a value, both ways.
//!
//! - [`JsonForm`]: a type whose values are told by trees; texts and lists are.
//! - [`required`], [`optional`], [`either_spelling`], [`additional_of`]: members that are read.
//! - [`put`], [`put_optional`], [`put_text`], [`members_of`]: members that are written.
//! - [`from_text`], [`to_text`], [`to_pretty_text`]: whole texts.
//! - [`nests_within`]: how deep a tree nests.
#![tactic(auto)]

mod depth;
mod document;
mod form;
mod list;
mod names;
mod read;
mod text;
mod write;

pub use depth::nests_within;
pub use document::{from_text, to_pretty_text, to_text};
pub use form::{FormError, JsonForm};
pub use names::{additional_of, holds_any};
pub use read::{either_spelling, optional, required};
pub use write::{members_of, put, put_optional, put_text};
