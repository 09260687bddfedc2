//! HTTP signatures (draft-cavage-http-signatures-12): header texts, signing strings, building, verifying.
//!
//! - [`HttpSignature`]: what a header text says; `from_str` reads one, and Display prints it.
//! - [`HttpSignatureBuilder`]: makes a signature over a request, or over a signing string that is given.
//! - [`HttpSignatureVerifier`]: whether a signature holds of a request, under a key and at a moment.
//! - [`HttpRequest`]: what is asked of a request; [`RequestHead`], `Parts` and `Request<T>` of the crate
//!   `http`, and [`NoRequest`] are requests. [`read_head`] reads a request head from bytes.
#![tactic(auto)]

mod algorithm;
mod builder;
mod check;
mod content;
mod error;
mod given;
mod header;
pub mod laws;
mod making;
mod printing;
mod read;
mod signature;
mod signing;
mod verifier;
mod view;

pub use algorithm::HttpSigAlgorithm;
pub use builder::HttpSignatureBuilder;
pub use error::HttpSignatureError;
pub use header::Header;
pub use picky_http_request::{
    HeadFault, HttpRequest, HttpRequestError, NoRequest, RequestField, RequestHead, read_head,
};
pub use signature::HttpSignature;
pub use verifier::HttpSignatureVerifier;
