// The files of the system. What they hold is not told, so no clause speaks of it.
ghost use Rattle.std.specs.Prelude.{◌≡◌, ◌≢◌, ◌≤◌, ◌+◌, ℕ, List, Option, None, Ok, IfOk, IfErr, OnOk, IsErrOf, vec_len};
ghost use Rattle.std.specs.IoError.{error_kind};
ghost use Rattle.picky_outside.specs.Outside.{IsFetched, FetchCause, FetchAsks};
ghost use Rattle.picky_outside.specs.Shelf.{counted};

use crate::{Cabinet, FetchFault};
use std::alloc::Global;
use std::fs::File;
use std::io;
use std::io::{ErrorKind, Read};
use std::marker::Model;
use std::rt::Files;

/// The files of the system, by their paths. Every error but want of memory raises the count of faults.
#[derive(Drop)]
pub struct FileCabinet<'a, R: Files> {
    rt: &'a R,
    faults: u64,
}

impl<'a, R: Files> Model for FileCabinet<'a, R> {
    ghost use Rattle.std.specs.Prelude.{ℕ};

    ghost Value = { ℕ };

    ghost view = { λ c. c.faults };
}

impl<'a, R: Files> FileCabinet<'a, R> {
    /// The files that the runtime reaches; contracts see the count of faults, which is 0.
    pub fn new(rt: &'a R) -> FileCabinet<'a, R>
        ensures { result ≡ 0 }
    {
        FileCabinet { rt, faults: 0 }
    }

    // What a fetch answers where the system said this: its bytes; `OutOfMemory` exactly where its error is that;
    // and `Failed`, which is counted, of any other error.
    fn answer(&mut self, said: io::Result<Vec<u8>>) -> Result<Vec<u8>, FetchFault>
        ensures fetched { IfOk said (λ bytes. (result ≡ Ok bytes) × (self.new ≡ self.old)) }
        ensures memory { IfErr said (λ e. error_kind e ≡ ErrorKind.OutOfMemory
            → IsErrOf result FetchFault.OutOfMemory × (self.new ≡ self.old)) }
        ensures failed { IfErr said (λ e. error_kind e ≢ ErrorKind.OutOfMemory
            → IsErrOf result FetchFault.Failed × (self.new ≡ counted self.old)) }
        ensures cause { FetchCause self.old self.new result }
    {
        match said {
            Ok(bytes) => Ok(bytes),
            Err(error) => {
                if error.kind() == ErrorKind::OutOfMemory {
                    return Err(FetchFault::OutOfMemory);
                }
                self.faults = self.faults.saturating_add(1);
                Err(FetchFault::Failed)
            }
        }
    }
}

// Reads to the end, or up to `limit` + 1 bytes.
fn read_first<F: Read>(alloc: Global, file: &mut F, limit: usize) -> io::Result<Vec<u8>>
    ensures { IfOk result (λ bytes. (vec_len bytes ≤ limit + 1) × IsFetched (F.remaining file.old) limit bytes.items) }
{
    let mut bytes = Vec::new(alloc);
    let mut buffer = [0u8; 4096];
    while bytes.len() <= limit {
        let want = (limit - bytes.len()).saturating_add(1).min(buffer.len());
        let count = file.read(&mut buffer[..want])?;
        if count == 0 {
            break;
        }
        bytes.extend_from_slice(&buffer[..count])?;
    }
    Ok(bytes)
}

fn fetch_file<R: Files>(rt: &R, alloc: Global, path: &str, limit: usize) -> io::Result<Vec<u8>>
    ensures { IfOk result (λ bytes. vec_len bytes ≤ limit + 1) }
{
    let mut file = File::open(rt, path)?;
    read_first(alloc, &mut file, limit)
}

impl<R: Files> Cabinet for FileCabinet<'_, R> {
    ghost content = { λ c p. None };

    ghost asked = { λ c. None };

    ghost faults = { λ c. c };

    fn fetch(&mut self, alloc: Global, path: &str, limit: usize) -> Result<Vec<u8>, FetchFault>
        ensures bytes { IfOk result (λ bytes. IsFetched None limit bytes.items) }
        ensures asks { FetchAsks None path.now None result }
        ensures cause { FetchCause self.old self.new result }

        // A fault is counted as one.
        ensures failed { IsErrOf result FetchFault.Failed → self.new ≡ counted self.old }
    {
        let said = fetch_file(self.rt, alloc, path, limit);
        self.answer(said)
    }
}
