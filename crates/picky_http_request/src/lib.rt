//! Requests, as an HTTP signature sees them (draft-cavage-http-signatures-12, section 2.3).
//!
//! - [`HttpRequest`]: what a request answers to the name of a header, its method and its target.
//! - [`RequestHead`]: a request head with owned fields; [`read_head`] reads one from bytes.
//! - `Parts` and `Request<T>` of the crate `http`, and [`NoRequest`], which answers nothing, are requests too.
#![tactic(auto)]

mod error;
mod head;
mod join;
mod parts;
mod read;
mod request;

pub use error::{HeadFault, HttpRequestError};
pub use head::{RequestField, RequestHead};
pub use read::read_head;
pub use request::{HttpRequest, NoRequest};
