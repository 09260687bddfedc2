//! Rows over keys and signatures in DER: lines that name a call and its arguments, answered by what the call gives.
//!
//!     public_key.read BYTES             what the key is, or the refusal
//!     public_key.again BYTES            what the key that was read is written as
//!     public_key.family BYTES           its family
//!     public_key.point CURVE X Y        what the key of these coordinates is written as, or the refusal
//!     public_key.rsa N E                what the RSA key of these numbers is written as, or the refusal
//!     public_key.edwards NAME BYTES     what the key of this algorithm is written as, or the refusal
//!     public_key.damaged BYTES          a letter for each of the first 64 bytes: what the key is with this byte changed
//!     private_key.read BYTES            what the key is, with its public part, or the refusal
//!     private_key.again BYTES           its PKCS #8 bytes
//!     private_key.damaged BYTES         the same of a private key
//!     ecdsa.of SIZE BYTES               what the pair of two halves is written as, or the refusal
//!     ecdsa.fixed SIZE BYTES            the two halves of a pair in DER, or the refusal
//!     records.read RECORDS              `Ok`, or the refusal
//!     records.verify KEY ALGORITHM MESSAGE BYTES RECORDS     whether they have that signature
//!     records.sign PKCS8 ALGORITHM MESSAGE RECORDS           the signature, or `none`
//!     records.public PKCS8 RECORDS                           the public key, or `none`
//!     records.unwrap SCHEME PKCS8 WRAPPED RECORDS            the content key, or `none`
//!     records.wrap SCHEME KEY BYTES RECORDS                  the wrapped key of that content key, or `none`
//!     records.agree PKCS8 KEY RECORDS                        the secret, or `none`
//!     records.ephemeral KEY RECORDS                          the ephemeral key and the secret, or `none`
//!     users.signed PKCS8 ALGORITHM MESSAGE RECORDS           whether what is signed is verified, where something is
//!     users.wrapped PKCS8 SCHEME BYTES RECORDS               whether what is wrapped is unwrapped to that content key
#![tactic(auto)]

mod damage;
mod ecdsa;
mod private;
mod public;
mod records;
mod users;

use anyhow::Result;
use rows::{Answer, Calls, Words, answer_rows, refused};
use std::alloc::Global;
use std::process::ExitCode;

struct KeyCalls;

impl Calls for KeyCalls {
    fn answer(alloc: Global, notion: &str, call: &str, words: &mut Words<'_>) -> Result<Answer> {
        match notion {
            "public_key" => public::answer(alloc, call, words),
            "private_key" => private::answer(alloc, call, words),
            "ecdsa" => ecdsa::answer(alloc, call, words),
            "records" => records::answer(alloc, call, words),
            "users" => users::answer(alloc, call, words),
            _ => refused("no such notion"),
        }
    }
}

fn main(rt: HostRuntime) -> Result<ExitCode> {
    answer_rows::<KeyCalls>(&rt)
}
