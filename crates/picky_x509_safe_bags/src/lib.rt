//! The bags of PKCS #12, which may hold bags, as DER (RFC 7292 section 4.2).
//!
//! - [`SafeBag`]: a bag, with what it holds ([`SafeBagKind`]) and its attributes. [`SafeBag::read_levels`] reads one whose bags
//!   are nested so many levels at most.
//! - [`SafeContents`]: the bags of a part of a store. [`read_contents_levels`] reads them so. [`SafeContentsContentInfo`] is a part.
#![tactic(auto)]

mod contents;
pub mod laws;
mod reading;
mod safe_bag;
mod traits;
mod writing;

pub use contents::{SafeContents, SafeContentsContentInfo, read_contents_levels};
pub use safe_bag::{SafeBag, SafeBagKind};
