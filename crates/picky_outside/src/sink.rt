// Where the output goes.
ghost use Rattle.std.specs.Prelude.{◌≡◌, ◌⊎◌, ◌≤◌, ◌<◌, ℕ, ◌++◌, ◌+◌, List, [], Option, Some, IfOk, OnOk, OnErr, IsErr, IsOkAnd, length, take};
ghost use Rattle.picky_outside.specs.Outside.{Adds, WriteCause};
ghost use Rattle.picky_outside.specs.Shelf.{counted, taken, filled};

use std::alloc::{AllocError, Global};
use std::marker::Model;

/// A write that failed, and took nothing.
#[derive(Clone, Copy, Debug, PartialEq, Eq)]
pub struct Failed;

/// A sink of bytes.
///
/// Its meaning is the bytes written, where it tells them, and a count of faults that never falls.
pub trait Sink {
    /// The bytes written; none where the sink doesn't tell them.
    ghost written: { Self → Option (List ℕ) };

    /// How often a write has failed.
    ghost faults: { Self → ℕ };

    /// So many bytes are taken before a write may fail; 0 where the sink promises none.
    ghost room: { Self → ℕ };

    /// Takes the first bytes of the piece, at least one of a piece that isn't empty, and says how many.
    ///
    /// `Failed` takes nothing, and comes only where the count of faults rose in this call or stands at
    /// its last value; Ok leaves the count as it was.
    fn write(&mut self, bytes: &[u8]) -> Result<usize, Failed>
        ensures some { IfOk result (λ n. (n ≤ length bytes.now) × (0 < length bytes.now → 0 < n)) }
        ensures added { IfOk result (λ n. Adds (written self.old) (take n bytes.now) (written self.new)) }
        ensures room { IfOk result (λ n. room self.old ≤ room self.new + n) }
        ensures full { OnErr result (0 < length bytes.now → room self.old ≡ 0) }
        ensures nothing { OnErr result (written self.new ≡ written self.old) }
        ensures cause { WriteCause (faults self.old) (faults self.new) result };
}

/// Writes all the bytes, piece by piece, up to the first write that fails.
pub fn write_all<K: Sink>(out: &mut K, bytes: &[u8]) -> Result<(), Failed>
    ensures all { OnOk result (Adds (K.written out.old) bytes.now (K.written out.new)) }
    ensures front { OnErr result ((n : ℕ) × (n < length bytes.now) × Adds (K.written out.old) (take n bytes.now) (K.written out.new)) }
    ensures full { OnErr result (K.room out.old < length bytes.now) }
    ensures cause { WriteCause (K.faults out.old) (K.faults out.new) result }
{
    let mut rest = bytes;
    while !rest.is_empty() {
        match out.write(rest) {
            Ok(count) => rest = &rest[count..],
            Err(failed) => return Err(failed),
        }
    }
    Ok(())
}

/// A sink in memory, which tells what was written. It takes bytes up to its room, and then fails.
#[derive(Drop)]
pub struct MemorySink {
    bytes: Vec<u8>,
    room: usize,
    faults: u64,
}

impl Model for MemorySink {
    ghost use Rattle.std.specs.Prelude.{◌≤◌, ◌+◌, vec_capacity, vec_len};
    ghost use Rattle.picky_outside.specs.Shelf.{Filled};

    ghost Value = { Filled };

    ghost view = { λ s. record { bytes = s.bytes.items; room = s.room; faults = s.faults } };

    ghost invariant = { λ s. vec_len s.bytes + s.room ≤ vec_capacity s.bytes };
}

impl MemorySink {
    /// An empty sink with room for so many bytes, whose memory is taken here; no write takes any.
    pub fn new(alloc: Global, room: usize) -> Result<MemorySink, AllocError>
        ensures { IfOk result (λ sink. sink ≡ record { bytes = []; room = room; faults = 0 }) }
    {
        Ok(MemorySink {
            bytes: Vec::with_capacity(alloc, room)?,
            room,
            faults: 0,
        })
    }

    /// The bytes written.
    pub fn written(&self) -> &[u8]
        ensures { result.now ≡ self.now.bytes }
    {
        &self.bytes
    }
}

impl Sink for MemorySink {
    ghost written = { λ s. Some s.bytes };

    ghost faults = { λ s. s.faults };

    ghost room = { λ s. s.room };

    /// `Failed` exactly where there is no room and the piece isn't empty.
    fn write(&mut self, bytes: &[u8]) -> Result<usize, Failed>
        ensures some { IfOk result (λ n. (n ≤ length bytes.now) × (0 < length bytes.now → 0 < n)) }
        ensures added { IfOk result (λ n. Adds (Some self.old.bytes) (take n bytes.now) (Some self.new.bytes)) }
        ensures room { IfOk result (λ n. self.old.room ≤ self.new.room + n) }
        ensures full { OnErr result (0 < length bytes.now → self.old.room ≡ 0) }
        ensures nothing { OnErr result (Some self.new.bytes ≡ Some self.old.bytes) }
        ensures cause { WriteCause self.old.faults self.new.faults result }

        // With room, or of an empty piece: the bytes that there is room for.
        ensures taken { (0 < self.old.room) ⊎ (length bytes.now ≡ 0)
            → IsOkAnd result (λ n. n ≡ taken self.old bytes.now) × (self.new ≡ filled self.old bytes.now) }

        // Without room, of a piece that isn't empty: a fault, which is counted.
        ensures failed { self.old.room ≡ 0 → 0 < length bytes.now
            → IsErr result × (self.new ≡ record self.old { faults = counted self.old.faults }) }
    {
        let count = bytes.len().min(self.room);
        if count == 0 && !bytes.is_empty() {
            self.faults = self.faults.saturating_add(1);
            return Err(Failed);
        }
        self.room -= count;
        self.bytes.extend_from_slice(&bytes[..count]).unwrap();
        Ok(count)
    }
}
