//! Texts that a seed makes, and the records of their signatures: tokens under eight keys, of which each seventh has a record of another
//! message.
//!
//! [`words_of`] gives the words of a seed, [`text_of`] and [`record_of`] the text and the record of a word and its number, [`key_of`] and
//! [`key_name`] the keys.
#![tactic(auto)]

mod keys;
mod record;
mod token;
mod words;

pub use keys::{KEYS, key_name, key_of};
pub use record::record_of;
pub use token::text_of;
pub use words::words_of;
