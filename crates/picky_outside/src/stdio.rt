// The standard output. What it took is not told, so no clause speaks of it.
ghost use Rattle.std.specs.Prelude.{◌≡◌, ◌⊎◌, ◌≤◌, ◌<◌, ℕ, ◌+◌, List, Option, None, IfOk, IfSome, OnOk, OnErr, IfNone, length, take};
ghost use Rattle.std.specs.Io.KnownBytes.{Keeps, Appends};
ghost use Rattle.picky_outside.specs.Outside.{Adds, WriteCause, IsTakenOf};
ghost use Rattle.picky_outside.specs.Shelf.{counted};

use crate::{Failed, Sink};
use std::io;
use std::io::Write;
use std::marker::Model;

/// The standard output. Every error, and an Ok of 0 bytes for a piece that isn't empty, raises the
/// count of faults.
#[derive(Drop)]
pub struct StdSink<'a, R: Print> {
    rt: &'a R,
    faults: u64,
}

impl<'a, R: Print> Model for StdSink<'a, R> {
    ghost use Rattle.std.specs.Prelude.{ℕ};

    ghost Value = { ℕ };

    ghost view = { λ s. s.faults };
}

impl<'a, R: Print> StdSink<'a, R> {
    /// The standard output of the runtime; contracts see the count of faults, which is 0.
    pub fn new(rt: &'a R) -> StdSink<'a, R>
        ensures { result ≡ 0 }
    {
        StdSink { rt, faults: 0 }
    }
}

// How many bytes of a piece were taken, where the system said this; none of an error, and where nothing of a
// piece that isn't empty was.
fn taken(said: io::Result<usize>, bytes: &[u8]) -> Option<usize>
    ensures { IsTakenOf bytes.now said result }
{
    match said {
        Ok(count) if count > 0 || bytes.is_empty() => Some(count),
        _ => None,
    }
}

// Writes the piece once, and says how many of its first bytes were taken.
fn write_once<W: Write>(out: &mut W, bytes: &[u8]) -> Option<usize>
    ensures some { IfSome result (λ n. (n ≤ length bytes.now) × (0 < length bytes.now → 0 < n)) }
    ensures added { IfSome result (λ n. Appends (W.contents out.old) (W.contents out.new) (take n bytes.now)) }
    ensures nothing { IfNone result (Keeps (W.contents out.old) (W.contents out.new)) }
{
    taken(out.write(bytes), bytes)
}

impl<R: Print> Sink for StdSink<'_, R> {
    ghost written = { λ s. None };

    ghost faults = { λ s. s };

    ghost room = { λ s. 0 };

    fn write(&mut self, bytes: &[u8]) -> Result<usize, Failed> {
        match write_once(&mut io::writer(self.rt), bytes) {
            Some(count) => Ok(count),
            None => {
                self.faults = self.faults.saturating_add(1);
                Err(Failed)
            }
        }
    }
}
