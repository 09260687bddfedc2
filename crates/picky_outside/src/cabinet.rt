// Where documents come from.
ghost use Rattle.std.specs.Prelude.{◌≡◌, ◌⊎◌, ◌≤◌, ◌+◌, ℕ, List, [], ◌∷◌, ◌++◌, Option, Some, None, IfOk, OnOk, OnErr, IsErr, IsErrOf, IsOkUnless, take};
ghost use Rattle.std.specs.FinMap as finite;
ghost use Rattle.picky_outside.specs.Outside.{texts_of};
ghost use Rattle.picky_outside.specs.Outside.{IsFetched, FetchCause, FetchAsks};
ghost use Rattle.picky_outside.specs.Shelf.{counted, called, noted, FailsNext};

use picky_contract::Bytes;
use picky_ring::text_map::{look_up, put};
use std::alloc::{AllocError, Global};
use std::collections::BTreeMap;
use std::marker::Model;

/// Why a fetch gave nothing.
#[derive(Clone, Copy, Debug, PartialEq, Eq)]
pub enum FetchFault {
    /// What stands under the path can't be read.
    Failed,
    /// There was no memory for it.
    OutOfMemory,
}

/// A source of documents, each under a path.
///
/// Its meaning is the content under each path and the paths that it was asked for so far, where it
/// tells those, and a count of faults that never falls. A fetch changes no content.
pub trait Cabinet {
    /// The bytes under a path; none where the cabinet doesn't tell them.
    ghost content: { Self → List ℕ → Option (List ℕ) };

    /// The paths that it was asked for so far, in their order; none where the cabinet doesn't tell them.
    ghost asked: { Self → Option (List (List ℕ)) };

    /// How often a fetch has failed.
    ghost faults: { Self → ℕ };

    /// The bytes under the path: all of them, or the first `limit` + 1 where there are more.
    ///
    /// `Failed` comes only where the count of faults rose in this call or stands at its last value;
    /// every other answer leaves the count as it was. The path is then the last that was asked for,
    /// whatever the answer; only where memory is wanting it may be missing from them.
    fn fetch(&mut self, alloc: Global, path: &str, limit: usize) -> Result<Vec<u8>, FetchFault>
        ensures bytes { IfOk result (λ bytes. IsFetched (content self.old path.now) limit bytes.items) }
        ensures same { (p : List ℕ) → content self.new p ≡ content self.old p }
        ensures asks { FetchAsks (asked self.old) path.now (asked self.new) result }
        ensures cause { FetchCause (faults self.old) (faults self.new) result };
}

pub(crate) fn first_bytes(
    alloc: Global,
    content: &[u8],
    limit: usize,
) -> Result<Vec<u8>, FetchFault>
    ensures bytes { IfOk result (λ bytes. IsFetched (Some content.now) limit bytes.items) }
    ensures memory { IsOkUnless result FetchFault.OutOfMemory }
{
    let first = if content.len() > limit {
        &content[..limit + 1]
    } else {
        content
    };
    match first.to_vec(alloc) {
        Ok(bytes) => Ok(bytes),
        Err(_) => Err(FetchFault::OutOfMemory),
    }
}

// Puts the path after those that were asked for. After an Err they are as before.
pub(crate) fn note(alloc: Global, asked: &mut Vec<String>, path: &str) -> Result<(), AllocError>
    ensures ok { OnOk result (texts_of asked.new.items ≡ texts_of asked.old.items ++ path.now ∷ []) }
    ensures err { OnErr result (texts_of asked.new.items ≡ texts_of asked.old.items) }
{
    let path = String::from_str(alloc, path)?;
    asked.push(path)?;
    Ok(())
}

/// A cabinet in memory, which tells its contents and what it was asked. A path that it doesn't hold is a
/// fault, and so is each call that it was told to fail.
#[derive(Drop)]
pub struct MemoryCabinet {
    alloc: Global,
    files: BTreeMap<String, Bytes>,
    asked: Vec<String>,
    faults: u64,
    calls: u64,
    failing: Vec<u64>,
}

impl Model for MemoryCabinet {
    ghost use Rattle.picky_outside.specs.Outside.{texts_of};
    ghost use Rattle.picky_outside.specs.Shelf.{Shelf, shelf_code};
    ghost use Rattle.picky_ring.specs.TextMap.{by_text};

    ghost Value = { Shelf };

    ghost coded = { shelf_code };

    ghost view = { λ c. record { files = by_text c.files; asked = texts_of c.asked.items; faults = c.faults; calls = c.calls; failing = c.failing.items } };
}

impl MemoryCabinet {
    /// An empty cabinet, without taking memory.
    pub fn new(alloc: Global) -> MemoryCabinet
        ensures { result ≡ record { files = finite.empty; asked = []; faults = 0; calls = 0; failing = [] } }
    {
        MemoryCabinet {
            alloc,
            files: BTreeMap::new(alloc),
            asked: Vec::new(alloc),
            faults: 0,
            calls: 0,
            failing: Vec::new(alloc),
        }
    }

    /// Puts the bytes under the path, in the place of what was there. After an Err all is as before.
    pub fn put(&mut self, path: &str, bytes: Vec<u8>) -> Result<(), AllocError>
        ensures ok { OnOk result (self.new ≡ record self.old { files = finite.insert self.old.files path.now bytes.items }) }
        ensures err { OnErr result (self.new ≡ self.old) }
    {
        let path = String::from_str(self.alloc, path)?;
        put(&mut self.files, path, Bytes::new(bytes))
    }

    /// Lets a call fail, counted from 1 over all that are made. After an Err all is as before.
    pub fn fail_at(&mut self, call: u64) -> Result<(), AllocError>
        ensures ok { OnOk result (self.new ≡ record self.old { failing = self.old.failing ++ call ∷ [] }) }
        ensures err { OnErr result (self.new ≡ self.old) }
    {
        self.failing.push(call)?;
        Ok(())
    }

    /// The paths that were asked for so far, in their order.
    pub fn asked(&self) -> &[String]
        ensures { texts_of result.now ≡ self.now.asked }
    {
        &self.asked
    }
}

impl Cabinet for MemoryCabinet {
    ghost content = { λ c p. finite.get c.files p };

    ghost asked = { λ c. Some c.asked };

    ghost faults = { λ c. c.faults };

    /// `Failed` only where the cabinet doesn't hold the path or the call was to fail, and Ok only elsewhere.
    fn fetch(&mut self, alloc: Global, path: &str, limit: usize) -> Result<Vec<u8>, FetchFault>
        ensures bytes { IfOk result (λ bytes. IsFetched (finite.get self.old.files path.now) limit bytes.items) }
        ensures same { (p : List ℕ) → finite.get self.new.files p ≡ finite.get self.old.files p }
        ensures asks { FetchAsks (Some self.old.asked) path.now (Some self.new.asked) result }
        ensures cause { FetchCause self.old.faults self.new.faults result }

        // Of a path that is held, where the call isn't to fail: its bytes or want of memory.
        ensures held { (content : List ℕ) → finite.get self.old.files path.now ≡ Some content → ¬ (FailsNext self.old)
            → IfOk result (λ bytes. bytes.items ≡ take (limit + 1) content) × IsOkUnless result FetchFault.OutOfMemory }

        // Of any other path: a fault or want of memory.
        ensures missing { finite.get self.old.files path.now ≡ None → IsErr result }

        // A call that is to fail: likewise.
        ensures listed { FailsNext self.old → IsErr result }

        // Afterwards the path is noted, and a fault is counted; only where memory is wanting the path may be missing.
        ensures fetched { OnOk result (self.new ≡ noted self.old path.now) }
        ensures failed { IsErrOf result FetchFault.Failed
            → self.new ≡ record (noted self.old path.now) { faults = counted self.old.faults } }
        ensures memory { IsErrOf result FetchFault.OutOfMemory
            → (self.new ≡ called self.old) ⊎ (self.new ≡ noted self.old path.now) }
    {
        self.calls = self.calls.saturating_add(1);
        if note(self.alloc, &mut self.asked, path).is_err() {
            return Err(FetchFault::OutOfMemory);
        }
        if self.failing.contains(&self.calls) {
            self.faults = self.faults.saturating_add(1);
            return Err(FetchFault::Failed);
        }
        match look_up(&self.files, path) {
            Some(content) => first_bytes(alloc, content.as_slice(), limit),
            None => {
                self.faults = self.faults.saturating_add(1);
                Err(FetchFault::Failed)
            }
        }
    }
}
