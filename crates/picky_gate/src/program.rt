// The program over any cabinet and any sink.
ghost use Rattle.std.specs.Prelude.{◌≡◌, ◌≢◌, ◌⊎◌, ◌≤◌, ◌<◌, ℕ, List, IfOk, length, option_map, string_bytes};
ghost use Rattle.picky_contract.specs.Causes.{Rose};
ghost use Rattle.picky_gate.specs.Asked.{admit_of};
ghost use Rattle.picky_gate.specs.Command.{Command, IsCommand};
ghost use Rattle.picky_gate.specs.Documents.{limit};
ghost use Rattle.picky_gate.specs.Outcome.{Outcome};
ghost use Rattle.picky_outside.specs.Outside.{IsFetched, Adds, texts_of};
ghost use Rattle.picky_gate.specs.Reply.{IsFetchedIf, AreFetched, UnfetchedCause, OneAsked, OneAskedIf, AllAsked, Delivers, Replies, Said, IsSuccess, reply_text, unread};

use crate::asked::CommandWords;
use crate::documents::{Document, Documents, LIMIT, decide};
use crate::generated::generated_line;
use crate::lines::{admitted_lines, fault_line};
use crate::words::read_words;
use crate::{AdmitWords, Cabinet, FetchFault, Sink};
use picky_contract::Bytes;
use picky_outside::write_all;
use std::alloc::{AllocError, Global};

/// The status of the program: 0 admitted or generated, 1 refused, 2 the words are no command, 3 a document can't be
/// read, 4 a document is bad, 5 want of memory, 6 a write failed.
#[derive(Clone, Copy, Debug, PartialEq, Eq)]
pub struct Status {
    pub code: u8,
}

// Why there are no documents.
enum Unfetched {
    Failed(Document),
    OutOfMemory,
}

fn fetch_one<C: Cabinet>(
    alloc: Global,
    cabinet: &mut C,
    path: &str,
    document: Document,
) -> Result<Bytes, Unfetched>
    ensures bytes { IfOk result (λ bytes. IsFetched (C.content cabinet.old path.now) limit bytes) }
    ensures same { (p : List ℕ) → C.content cabinet.new p ≡ C.content cabinet.old p }
    ensures asks { OneAsked (C.asked cabinet.old) path.now document (C.asked cabinet.new) result }
    ensures cause { UnfetchedCause (C.faults cabinet.old) (C.faults cabinet.new) result }
{
    match cabinet.fetch(alloc, path, LIMIT) {
        Ok(bytes) => Ok(Bytes::new(bytes)),
        Err(FetchFault::Failed) => Err(Unfetched::Failed(document)),
        Err(FetchFault::OutOfMemory) => Err(Unfetched::OutOfMemory),
    }
}

// The document under a path that may be absent.
fn fetch_request<C: Cabinet>(
    alloc: Global,
    cabinet: &mut C,
    path: Option<&str>,
) -> Result<Option<Bytes>, Unfetched>
    ensures bytes { IfOk result (λ bytes. IsFetchedIf (C.content cabinet.old) (option_map (λ p. p.now) path.entry) bytes) }
    ensures same { (p : List ℕ) → C.content cabinet.new p ≡ C.content cabinet.old p }
    ensures asks { OneAskedIf (C.asked cabinet.old) (option_map (λ p. p.now) path.entry) (C.asked cabinet.new) result }
    ensures cause { UnfetchedCause (C.faults cabinet.old) (C.faults cabinet.new) result }
{
    match path {
        None => Ok(None),
        Some(path) => match fetch_one(alloc, cabinet, path, Document::Request) {
            Ok(bytes) => Ok(Some(bytes)),
            Err(unfetched) => Err(unfetched),
        },
    }
}

// Fetches the documents in their order, up to the first that fails.
fn fetch_documents<C: Cabinet>(
    alloc: Global,
    cabinet: &mut C,
    words: AdmitWords<'_>,
) -> Result<Documents, Unfetched>
    ensures bytes { IfOk result (λ docs. AreFetched (C.content cabinet.old) (admit_of words.entry) docs) }
    ensures same { (p : List ℕ) → C.content cabinet.new p ≡ C.content cabinet.old p }
    ensures asks { AllAsked (C.asked cabinet.old) (admit_of words.entry) (C.asked cabinet.new) result }
    ensures cause { UnfetchedCause (C.faults cabinet.old) (C.faults cabinet.new) result }
{
    let keys = match fetch_one(alloc, cabinet, words.keys, Document::Keys) {
        Ok(keys) => keys,
        Err(unfetched) => return Err(unfetched),
    };
    let records = match fetch_one(alloc, cabinet, words.records, Document::Records) {
        Ok(records) => records,
        Err(unfetched) => return Err(unfetched),
    };
    let request = match fetch_request(alloc, cabinet, words.request) {
        Ok(request) => request,
        Err(unfetched) => return Err(unfetched),
    };
    Ok(Documents {
        keys,
        records,
        request,
    })
}

// Writes the text, and says the status.
fn finish<K: Sink>(out: &mut K, text: &[u8], code: u8) -> Status
    requires { code ≢ 6 }
    ensures delivers { Delivers text.now code (K.room out.old) (K.written out.old) (K.written out.new) result.code }
    ensures failed { K.faults out.old < K.faults out.new → result.code ≡ 6 }
    ensures later { K.faults out.old ≤ K.faults out.new }
    ensures cause { result.code ≡ 6 → Rose (K.faults out.old) (K.faults out.new) }
    ensures other { result.code ≢ 6 → result.code ≡ code }
{
    match write_all(out, text) {
        Ok(()) => Status { code },
        Err(_) => Status { code: 6 },
    }
}

fn unread_line(document: Document) -> &'static [u8]
    ensures { result.now ≡ reply_text (unread document) }
{
    match document {
        Document::Keys => b"cannot read keys\n",
        Document::Records => b"cannot read records\n",
        Document::Request => b"cannot read request\n",
    }
}

// The status and the text of what the command comes to.
fn answer(
    alloc: Global,
    words: AdmitWords<'_>,
    documents: &Documents,
) -> Result<(u8, String), AllocError>
    ensures { IfOk result (λ r. Said (admit_of words.entry) documents.now r.0 (string_bytes r.1)) }
{
    match decide(alloc, words, documents) {
        Ok(admitted) => {
            let text = admitted_lines(alloc, &admitted)?;
            Ok((0, text))
        }
        Err(fault) => fault_line(alloc, &fault),
    }
}

// What the program does.
fn perform<C: Cabinet, K: Sink>(
    alloc: Global,
    words: &[String],
    cabinet: &mut C,
    out: &mut K,
) -> Status
    ensures replies { Replies (record {
      words = texts_of words.now;
      status = result.code;
      content = C.content cabinet.old;
      asked = record { before = C.asked cabinet.old; after = C.asked cabinet.new };
      fetch_faults = record { before = C.faults cabinet.old; after = C.faults cabinet.new };
      written = record { before = K.written out.old; after = K.written out.new };
      write_faults = record { before = K.faults out.old; after = K.faults out.new };
      room = K.room out.old;
    }) }
    ensures write_failed { K.faults out.old < K.faults out.new → result.code ≡ 6 }
    ensures fetch_failed { result.code ≢ 6 → C.faults cabinet.old < C.faults cabinet.new → result.code ≡ 3 }
    ensures six { result.code ≡ 6 → Rose (K.faults out.old) (K.faults out.new) }
    ensures three { result.code ≡ 3 → Rose (C.faults cabinet.old) (C.faults cabinet.new) }
    ensures later { (C.faults cabinet.old ≤ C.faults cabinet.new) × (K.faults out.old ≤ K.faults out.new) }
    ensures same { (p : List ℕ) → C.content cabinet.new p ≡ C.content cabinet.old p }
{
    let command = match read_words(words) {
        Some(CommandWords::Admit(command)) => command,
        Some(CommandWords::Generate(command)) => {
            return match generated_line(alloc, command) {
                Ok(line) => finish(out, line.as_bytes(), 0),
                Err(_) => Status { code: 5 },
            };
        }
        None => return finish(out, b"usage\n", 2),
    };
    let documents = match fetch_documents(alloc, cabinet, command) {
        Ok(documents) => documents,
        Err(Unfetched::Failed(document)) => return finish(out, unread_line(document), 3),
        Err(Unfetched::OutOfMemory) => return Status { code: 5 },
    };
    match answer(alloc, command, &documents) {
        Ok((code, text)) => finish(out, text.as_bytes(), code),
        Err(_) => Status { code: 5 },
    }
}

/// The program: what the words ask, over the cabinet, into the sink.
///
/// For `admit` the documents are fetched (keys, records, then the request where one is named) and
/// checked (records, keys, then the request), and the text is judged; for `generate` nothing is fetched, and each text is judged that the seed
/// makes. The whole output is built before its first byte is written.
pub fn run<C: Cabinet, K: Sink>(
    alloc: Global,
    words: &[String],
    cabinet: &mut C,
    out: &mut K,
) -> Status
    // What was replied and asked, and the headline: over documents that are told, with no failure, the status is 0,
    // with its two lines, exactly where the text is admissible, otherwise the code is that of the first condition
    // that fails; a command `generate` ends with status 0 and the line of how many of its texts are admissible. Want of
    // memory is free.
    ensures outcome { Outcome (record {
      words = texts_of words.now;
      status = result.code;
      content = C.content cabinet.old;
      asked = record { before = C.asked cabinet.old; after = C.asked cabinet.new };
      fetch_faults = record { before = C.faults cabinet.old; after = C.faults cabinet.new };
      written = record { before = K.written out.old; after = K.written out.new };
      write_faults = record { before = K.faults out.old; after = K.faults out.new };
      room = K.room out.old;
    }) }

    // Where a write failed the status is 6, else where a fetch failed it is 3; and they have no other cause.
    ensures write_failed { K.faults out.old < K.faults out.new → result.code ≡ 6 }
    ensures fetch_failed { result.code ≢ 6 → C.faults cabinet.old < C.faults cabinet.new → result.code ≡ 3 }
    ensures six { result.code ≡ 6 → Rose (K.faults out.old) (K.faults out.new) }
    ensures three { result.code ≡ 3 → Rose (C.faults cabinet.old) (C.faults cabinet.new) }
    ensures later { (C.faults cabinet.old ≤ C.faults cabinet.new) × (K.faults out.old ≤ K.faults out.new) }

    // What stands under each path is as before.
    ensures same { (p : List ℕ) → C.content cabinet.new p ≡ C.content cabinet.old p }

    // Words that are no command: 2, or 6 where a write failed; and 2 comes only of such words.
    ensures no_command { ((c : Command) → ¬ (IsCommand (texts_of words.now) c)) → (result.code ≡ 2) ⊎ (result.code ≡ 6) }
    ensures two { result.code ≡ 2 → (c : Command) → ¬ (IsCommand (texts_of words.now) c) }

    // Status 0 comes only where nothing failed, with a text of the command written whole: the two lines of what was admitted, or the line of
    // how many texts were.
    ensures zero { result.code ≡ 0 → (C.faults cabinet.new ≡ C.faults cabinet.old) × (K.faults out.new ≡ K.faults out.old)
        × ((c : Command) × IsCommand (texts_of words.now) c × ((text : List ℕ) × IsSuccess c text × Adds (K.written out.old) text (K.written out.new))) }
{
    perform(alloc, words, cabinet, out)
}
