// What `admit` says, called in one place.
use picky_gate::{Admitted, Policy, Refusal, Ring, admit};
use picky_http_request::NoRequest;
use picky_jose::{JwtDate, JwtValidator};
use picky_records::Recorded;
use std::alloc::Global;

/// What is said of a text, where there is no request.
pub(crate) fn judged(
    alloc: Global,
    text: &str,
    ring: &Ring,
    records: &Recorded,
    policy: &Policy,
) -> Result<Admitted, Refusal> {
    admit(alloc, text, &NoRequest, ring, records, policy)
}

/// The records of a document; none where it is of another form.
pub(crate) fn records_of(alloc: Global, lines: &str) -> Option<Recorded> {
    Recorded::read(alloc, lines).ok()
}

/// Dates are judged where they are said.
pub(crate) fn lenient() -> Policy {
    Policy {
        validator: JwtValidator::lenient(JwtDate::new(0)),
        now: Some(0),
        leeway: 0,
    }
}

/// Dates are wanted, and judged at 1700000000.
pub(crate) fn strict() -> Policy {
    Policy {
        validator: JwtValidator::strict(JwtDate::new(1_700_000_000)),
        now: Some(1_700_000_000),
        leeway: 0,
    }
}
