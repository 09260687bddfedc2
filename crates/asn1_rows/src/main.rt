//! Answers rows over values of ASN.1 and over the containers of PKCS #12: each names a call and its arguments, and is answered
//! by what the call gives.
#![tactic(auto)]

mod store;
mod values;

use anyhow::{Error, Result};
use rows::{Answer, Calls, Words, answer_rows};
use std::alloc::Global;
use std::process::ExitCode;

// The calls of this program.
struct Asn1Calls;

impl Calls for Asn1Calls {
    fn answer(alloc: Global, notion: &str, call: &str, words: &mut Words<'_>) -> Result<Answer> {
        match notion {
            "tag" => values::tag::answer(alloc, call, words),
            "type" => values::types::answer(alloc, call, words),
            "integer" => values::integer::answer(alloc, call, words),
            "bits" => values::bits::answer(alloc, call, words),
            "octets" => values::octets::answer(alloc, call, words),
            "oid" => values::oid::answer(alloc, call, words),
            "text" => values::text::answer(alloc, call, words),
            "date" => values::date::answer(alloc, call, words),
            "store" => store::types::answer(alloc, call, words),
            "attribute" => store::attributes::answer(alloc, call, words),
            "bags" => store::bags::answer(alloc, call, words),
            _ => bad_row("no such call"),
        }
    }
}

// The error of a row that is no call. It has no clause, so a caller knows nothing of the text.
fn bad_row<T>(cause: &'static str) -> Result<T> {
    Err(Error::msg(cause))
}

fn main(rt: HostRuntime) -> Result<ExitCode> {
    answer_rows::<Asn1Calls>(&rt)
}
