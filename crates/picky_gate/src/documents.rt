// The documents of a command, and what the command comes to over them.
ghost use Rattle.std.specs.Prelude.{◌≡◌, option_map};
ghost use Rattle.picky_http_request.specs.Heads.{head_view};
ghost use Rattle.picky_http.specs.Lines.{request_of};
ghost use Rattle.picky_contract.specs.Refusals.{Meets, named};
ghost use Rattle.picky_jwk.specs.Jwk.{JwkSetOf};
ghost use Rattle.picky_jwk.specs.Refusals.{json_table};
ghost use Rattle.picky_jwk.specs.Views.{set_view};
ghost use Rattle.picky_ring.specs.Refusals.{keys_fault, of_jwk};
ghost use Rattle.picky_gate.specs.Asked.{admit_of};
ghost use Rattle.picky_gate.specs.Faults.{flaw_of, why_of};
ghost use Rattle.picky_gate.specs.Documents.{text_table, records_table, set_table, keys_table, head_table, request_table, text_decision, request_decision, keys_decision, decision};
ghost use Rattle.picky_gate.specs.Refusals.{admission_of};

use crate::{AdmitWords, Admitted, KeysFault, Refusal, Ring, admit, ring_from_jwks};
use picky_contract::Bytes;
use picky_http_request::{HeadFault, HttpRequest, NoRequest, RequestHead, read_head};
use picky_jwk::JwkSet;
use picky_records::{RecordFault, Recorded};
use std::alloc::{AllocError, Global};
use std::str;

/// The greatest length of a document in bytes.
pub const LIMIT: usize = 1_048_576;

/// A document that a command names.
#[derive(Clone, Copy, Debug, PartialEq, Eq)]
pub enum Document {
    Keys,
    Records,
    Request,
}

/// The bytes of the documents that a command names, each cut after one byte above the limit.
#[derive(Drop)]
pub struct Documents {
    pub keys: Bytes,
    pub records: Bytes,
    pub request: Option<Bytes>,
}

/// What is wrong with a document.
#[derive(Debug, Drop)]
pub enum DocumentFault {
    TooLong,
    Utf8,
    Keys(KeysFault),
    Records(RecordFault),
    Head(HeadFault),
    OutOfMemory,
}

impl From<AllocError> for DocumentFault {
    ghost use Rattle.picky_gate.specs.declared.documents.DocumentFault.TheVariants.{OutOfMemory};

    ghost from_gives = { λ _ fault. fault ≡ OutOfMemory };

    fn from(_error: AllocError) -> DocumentFault {
        DocumentFault::OutOfMemory
    }
}

/// Why there is no admitted text.
#[derive(Debug, Drop)]
pub enum Fault {
    Bad {
        document: Document,
        fault: DocumentFault,
    },
    Refused(Refusal),
}

#[tactic(auto, unfolding(crate::specs::Documents::text_table))]
fn text_of(document: &[u8]) -> Result<&str, DocumentFault>
    ensures { Meets (λ s. s.now) flaw_of result (text_table document.now) }
{
    if document.len() > LIMIT {
        return Err(DocumentFault::TooLong);
    }
    match str::from_utf8(document) {
        Ok(text) => Ok(text),
        Err(_) => Err(DocumentFault::Utf8),
    }
}

#[tactic(auto, unfolding(crate::specs::Documents::records_table))]
fn read_records(alloc: Global, document: &[u8]) -> Result<Recorded, DocumentFault>
    ensures { Meets (λ p. p.lines.items) flaw_of result (records_table document.now) }
{
    match text_of(document) {
        Ok(text) => match Recorded::read(alloc, text) {
            Ok(records) => Ok(records),
            Err(fault) => Err(DocumentFault::Records(fault)),
        },
        Err(fault) => Err(fault),
    }
}

// The set of keys that a text tells.
fn set_of(alloc: Global, text: &str) -> Result<JwkSet, KeysFault>
    ensures { Meets set_view keys_fault result (named of_jwk (json_table JwkSetOf text.now)) }
{
    match JwkSet::from_json(alloc, text) {
        Ok(set) => Ok(set),
        Err(error) => Err(KeysFault::from(error)),
    }
}

// The ring of the set of keys that a text tells.
#[tactic(auto, unfolding(crate::specs::Documents::set_table))]
fn ring_of(alloc: Global, text: &str) -> Result<Ring, KeysFault>
    ensures { Meets (λ r. r) keys_fault result (set_table text.now) }
{
    let set = match set_of(alloc, text) {
        Ok(set) => set,
        Err(fault) => return Err(fault),
    };
    ring_from_jwks(alloc, &set)
}

#[tactic(auto, unfolding(crate::specs::Documents::keys_table))]
fn read_keys(alloc: Global, document: &[u8]) -> Result<Ring, DocumentFault>
    ensures { Meets (λ r. r) flaw_of result (keys_table document.now) }
{
    match text_of(document) {
        Ok(text) => match ring_of(alloc, text) {
            Ok(ring) => Ok(ring),
            Err(fault) => Err(DocumentFault::Keys(fault)),
        },
        Err(fault) => Err(fault),
    }
}

#[tactic(auto, unfolding(crate::specs::Documents::head_table))]
fn read_request(alloc: Global, document: &[u8]) -> Result<RequestHead, DocumentFault>
    ensures { Meets head_view flaw_of result (head_table document.now) }
{
    if document.len() > LIMIT {
        return Err(DocumentFault::TooLong);
    }
    match read_head(alloc, document) {
        Ok(head) => Ok(head),
        Err(fault) => Err(DocumentFault::Head(fault)),
    }
}

// The provider of a records document.
fn provider_in(alloc: Global, document: &Bytes) -> Result<Recorded, DocumentFault>
    ensures { Meets (λ p. p.lines.items) flaw_of result (records_table document.now) }
{
    read_records(alloc, document.as_slice())
}

// The ring of a keys document.
fn ring_in(alloc: Global, document: &Bytes) -> Result<Ring, DocumentFault>
    ensures { Meets (λ r. r) flaw_of result (keys_table document.now) }
{
    read_keys(alloc, document.as_slice())
}

// The request of a request document, where there is one.
fn request_in(alloc: Global, document: &Option<Bytes>) -> Result<Option<RequestHead>, DocumentFault>
    ensures { Meets (option_map head_view) flaw_of result (request_table document.now) }
{
    match document {
        None => Ok(None),
        Some(document) => match read_request(alloc, document.as_slice()) {
            Ok(head) => Ok(Some(head)),
            Err(fault) => Err(fault),
        },
    }
}

// What the command comes to over its text and a request.
fn decide_text<Q: HttpRequest>(
    alloc: Global,
    words: AdmitWords<'_>,
    provider: &Recorded,
    ring: &Ring,
    request: &Q,
) -> Result<Admitted, Fault>
    ensures { Meets admission_of why_of result (text_decision (admit_of words.entry) provider.now.lines.items ring.now (request_of Q.answer Q.method Q.target request.now)) }
{
    match admit(alloc, words.text, request, ring, provider, &words.policy()) {
        Ok(admitted) => Ok(admitted),
        Err(refusal) => Err(Fault::Refused(refusal)),
    }
}

// What the command comes to from the request on.
fn decide_from_request(
    alloc: Global,
    words: AdmitWords<'_>,
    documents: &Documents,
    provider: &Recorded,
    ring: &Ring,
) -> Result<Admitted, Fault>
    ensures { Meets admission_of why_of result (request_decision (admit_of words.entry) documents.now provider.now.lines.items ring.now) }
{
    let request = match request_in(alloc, &documents.request) {
        Ok(request) => request,
        Err(fault) => {
            return Err(Fault::Bad {
                document: Document::Request,
                fault,
            });
        }
    };
    match &request {
        None => decide_text(alloc, words, provider, ring, &NoRequest),
        Some(head) => decide_text(alloc, words, provider, ring, head),
    }
}

// What the command comes to from the keys on.
fn decide_from_keys(
    alloc: Global,
    words: AdmitWords<'_>,
    documents: &Documents,
    provider: &Recorded,
) -> Result<Admitted, Fault>
    ensures { Meets admission_of why_of result (keys_decision (admit_of words.entry) documents.now provider.now.lines.items) }
{
    let ring = match ring_in(alloc, &documents.keys) {
        Ok(ring) => ring,
        Err(fault) => {
            return Err(Fault::Bad {
                document: Document::Keys,
                fault,
            });
        }
    };
    decide_from_request(alloc, words, documents, provider, &ring)
}

/// What the command comes to over its documents.
pub fn decide(
    alloc: Global,
    words: AdmitWords<'_>,
    documents: &Documents,
) -> Result<Admitted, Fault>
    ensures { Meets admission_of why_of result (decision (admit_of words.entry) documents.now) }
{
    let provider = match provider_in(alloc, &documents.records) {
        Ok(provider) => provider,
        Err(fault) => {
            return Err(Fault::Bad {
                document: Document::Records,
                fault,
            });
        }
    };
    decide_from_keys(alloc, words, documents, &provider)
}
