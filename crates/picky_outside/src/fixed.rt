// A cabinet in memory that never fails.
ghost use Rattle.std.specs.Prelude.{◌≡◌, ◌⊎◌, ◌+◌, ℕ, List, [], ◌∷◌, ◌++◌, Some, IfOk, OnOk, OnErr, IsOkUnless, take};
ghost use Rattle.std.specs.FinMap as finite;
ghost use Rattle.picky_outside.specs.Outside.{texts_of};
ghost use Rattle.picky_outside.specs.Outside.{IsFetched, FetchCause, FetchAsks};
ghost use Rattle.picky_outside.specs.Shelf.{or_nothing};

use crate::cabinet::{first_bytes, note};
use crate::{Cabinet, FetchFault};
use picky_contract::Bytes;
use picky_ring::text_map::{look_up, put};
use std::alloc::{AllocError, Global};
use std::collections::BTreeMap;
use std::marker::Model;

/// A cabinet in memory, which tells its contents and what it was asked. A path that it doesn't hold is
/// empty, and no fetch fails.
#[derive(Drop)]
pub struct FixedCabinet {
    alloc: Global,
    files: BTreeMap<String, Bytes>,
    asked: Vec<String>,
}

impl Model for FixedCabinet {
    ghost use Rattle.picky_outside.specs.Outside.{texts_of};
    ghost use Rattle.picky_outside.specs.Shelf.{Fixed, fixed_code};
    ghost use Rattle.picky_ring.specs.TextMap.{by_text};

    ghost Value = { Fixed };

    ghost coded = { fixed_code };

    ghost view = { λ c. record { files = by_text c.files; asked = texts_of c.asked.items } };
}

impl FixedCabinet {
    /// An empty cabinet, without taking memory.
    pub fn new(alloc: Global) -> FixedCabinet
        ensures { result ≡ record { files = finite.empty; asked = [] } }
    {
        FixedCabinet {
            alloc,
            files: BTreeMap::new(alloc),
            asked: Vec::new(alloc),
        }
    }

    /// Puts the bytes under the path, in the place of what was there. After an Err all is as before.
    pub fn put(&mut self, path: &str, bytes: Vec<u8>) -> Result<(), AllocError>
        ensures ok { OnOk result (self.new ≡ record self.old { files = finite.insert self.old.files path.now bytes.items }) }
        ensures err { OnErr result (self.new ≡ self.old) }
    {
        let path = String::from_str(self.alloc, path)?;
        put(&mut self.files, path, Bytes::new(bytes))
    }

    /// The paths that were asked for so far, in their order.
    pub fn asked(&self) -> &[String]
        ensures { texts_of result.now ≡ self.now.asked }
    {
        &self.asked
    }
}

impl Cabinet for FixedCabinet {
    ghost content = { λ c p. Some (or_nothing (finite.get c.files p)) };

    ghost asked = { λ c. Some c.asked };

    ghost faults = { λ c. 0 };

    /// `OutOfMemory` is the one refusal.
    fn fetch(&mut self, alloc: Global, path: &str, limit: usize) -> Result<Vec<u8>, FetchFault>
        ensures bytes { IfOk result (λ bytes. IsFetched (Some (or_nothing (finite.get self.old.files path.now))) limit bytes.items) }
        ensures same { (p : List ℕ) → Some (or_nothing (finite.get self.new.files p)) ≡ Some (or_nothing (finite.get self.old.files p)) }
        ensures asks { FetchAsks (Some self.old.asked) path.now (Some self.new.asked) result }
        ensures cause { FetchCause 0 0 result }
        ensures memory { IsOkUnless result FetchFault.OutOfMemory }
        ensures held { (self.new ≡ self.old) ⊎ (self.new ≡ record self.old { asked = self.old.asked ++ path.now ∷ [] }) }
    {
        if note(self.alloc, &mut self.asked, path).is_err() {
            return Err(FetchFault::OutOfMemory);
        }
        match look_up(&self.files, path) {
            Some(content) => first_bytes(alloc, content.as_slice(), limit),
            None => first_bytes(alloc, &[], limit),
        }
    }
}
