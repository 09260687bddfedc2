// What a signature that is built covers.
ghost use Rattle.std.specs.Prelude.{◌≡◌, ◌≤◌, OnOk, map, string_bytes};
ghost use Rattle.std.specs.Str.Lines.{lines};
ghost use Rattle.picky_contract.specs.Refusals.{Meets};
ghost use Rattle.picky_http.specs.Content.{content_of, with_entry, given_table, asked_table, listed_table};
ghost use Rattle.picky_http.specs.Faults.{http_fault};
ghost use Rattle.picky_http.specs.Given.{entry_view};
ghost use Rattle.picky_http.specs.Lines.{request_of};
ghost use Rattle.picky_http.specs.Parts.{part_of};

use crate::error::HttpSignatureError;
use crate::given::{Entry, entry_of};
use crate::header::{Header, copy_of};
use crate::signing::signing_text;
use picky_http_request::HttpRequest;
use std::alloc::{AllocError, Global};
use std::borrow::CowStr;

// The parts that are covered, the two numbers, and the bytes that are signed.
#[derive(Debug, Drop)]
pub(crate) struct Content<'a> {
    pub(crate) headers: Vec<Header>,
    pub(crate) created: Option<u64>,
    pub(crate) expires: Option<u64>,
    pub(crate) message: CowStr<'a>,
}

impl<'a> Content<'a> {
    // Covers what one line more gives.
    fn add(&mut self, entry: Entry) -> Result<(), AllocError>
        ensures { OnOk result (content_of self.new ≡ with_entry (content_of self.old) (entry_view entry)) }
    {
        match entry {
            Entry::Covers(header) => self.headers.push(header)?,
            Entry::CreatedAt(n) => {
                self.headers.push(Header::Created)?;
                self.created = Some(n);
            }
            Entry::ExpiresAt(n) => {
                self.headers.push(Header::Expires)?;
                self.expires = Some(n);
            }
        }
        Ok(())
    }
}

// What the lines of a given signing string cover.
fn listed_content<'a>(alloc: Global, text: &'a str) -> Result<Content<'a>, HttpSignatureError>
    ensures { Meets content_of http_fault result (listed_table text.now) }
{
    let mut content = Content {
        headers: Vec::new(alloc),
        created: None,
        expires: None,
        message: CowStr::Borrowed(text),
    };
    for line in text.lines() {
        let Some(entry) = entry_of(alloc, line)? else {
            let line = String::from_str(alloc, line)?;
            return Err(HttpSignatureError::InvalidSigningString { line });
        };
        content.add(entry)?;
    }
    Ok(content)
}

// What a given signing string covers, where nothing is covered beside it.
#[tactic(auto, unfolding(crate::specs::Content::given_table))]
pub(crate) fn given_content<'a>(
    alloc: Global,
    headers: &[Header],
    text: &'a str,
) -> Result<Content<'a>, HttpSignatureError>
    ensures { Meets content_of http_fault result (given_table (map part_of headers.now) text.now) }
{
    match headers {
        [] => listed_content(alloc, text),
        _ => Err(HttpSignatureError::BuilderHeadersProvidedWithPreGenerated),
    }
}

// What is covered of a request.
#[tactic(auto, unfolding(crate::specs::Content::asked_table))]
pub(crate) fn asked_content<'a, Q: HttpRequest>(
    alloc: Global,
    headers: &[Header],
    request: &'a Q,
    created: Option<u64>,
    expires: Option<u64>,
) -> Result<Content<'a>, HttpSignatureError>
    ensures { Meets content_of http_fault result (asked_table (record { request = request_of Q.answer Q.method Q.target request.now; created = created; expires = expires }) (map part_of headers.now)) }
{
    if headers.is_empty() {
        return Err(HttpSignatureError::BuilderEmptyHeaders);
    }
    let text = signing_text(alloc, headers, request, created, expires)?;
    let headers = copy_of(alloc, headers)?;
    Ok(Content {
        headers,
        created,
        expires,
        message: CowStr::Owned(text),
    })
}
