// Rings of keys.
ghost use Rattle.std.specs.Prelude.{◌≡◌, OnErr, string_bytes};
ghost use Rattle.std.specs.Option.{option_copied};
ghost use Rattle.std.specs.FinMap as finite;
ghost use Rattle.picky_contract.specs.Refusals.{Meets};
ghost use Rattle.picky_ring.specs.Refusals.{keys_fault, added_table};

use crate::text_map::{look_up, put};
use picky_contract::Bytes;
use picky_jwk_key::JwkError;
use picky_key::{PrivateKey, PublicKey, SignatureAlgorithm};
use std::alloc::{AllocError, Global};
use std::collections::BTreeMap;
use std::marker::Model;
use thiserror::Error;

/// The name of a key: the `kid` of a token or of a JSON Web Key, the key id of a header text.
#[derive(Debug, Drop)]
pub struct KeyName(pub String);

/// What a ring holds under a name.
#[derive(Debug, Drop)]
pub enum RingEntry {
    /// A public key, and the algorithm with which signatures are checked under it.
    Verify {
        key: PublicKey,
        algorithm: SignatureAlgorithm,
    },
    /// A private key and its public key, and the algorithm with which signatures are checked under that, where there is one.
    Pair {
        private: PrivateKey,
        public: PublicKey,
        algorithm: Option<SignatureAlgorithm>,
    },
    /// The bytes of a secret.
    Secret(Bytes),
}

impl RingEntry {
    ghost use Rattle.std.specs.Prelude.{option_map};
    ghost use Rattle.picky_ring.specs.Entry.{verifying};

    /// The key and the algorithm with which signatures are checked; `None` exactly for a pair without an algorithm and for a secret.
    pub fn verifying(&self) -> Option<(&PublicKey, SignatureAlgorithm)>
        ensures { option_map (λ p. (p.0.now, p.1)) result ≡ verifying self.now }
    {
        match self {
            RingEntry::Verify { key, algorithm } => Some((key, *algorithm)),
            RingEntry::Pair {
                public,
                algorithm: Some(algorithm),
                ..
            } => Some((public, *algorithm)),
            RingEntry::Pair {
                algorithm: None,
                ..
            } => None,
            RingEntry::Secret(_) => None,
        }
    }
}

/// Why keys make no ring.
#[derive(Debug, Drop, Error)]
pub enum KeysFault {
    /// A set isn't read, or a key of it has no public key.
    #[error("no public key: {0}")]
    Jwk(JwkError),
    /// The algorithm of the key of this name isn't of its family.
    #[error("an algorithm of another family")]
    AlgorithmFamily { name: KeyName },
    /// The ring holds an entry of this name.
    #[error("two keys of one name")]
    DuplicateName { name: KeyName },
    #[error("out of memory")]
    OutOfMemory,
}

impl From<AllocError> for KeysFault {
    ghost use Rattle.picky_ring.specs.declared.ring.KeysFault.TheVariants.{OutOfMemory};

    ghost from_gives = { λ _ fault. fault ≡ OutOfMemory };

    fn from(_error: AllocError) -> KeysFault {
        KeysFault::OutOfMemory
    }
}

impl From<JwkError> for KeysFault {
    ghost use Rattle.std.specs.Prelude.{◌≡◌, option_map};
    ghost use Rattle.picky_jwk_key.specs.Refusals.{fault as jwk_fault};
    ghost use Rattle.picky_ring.specs.Refusals.{keys_fault, of_jwk};

    ghost from_gives = { λ error fault. keys_fault fault ≡ option_map of_jwk (jwk_fault error) };

    #[tactic(auto, using(crate::proofs::Causes::jwk_held))]
    fn from(error: JwkError) -> KeysFault {
        match error {
            JwkError::OutOfMemory => KeysFault::OutOfMemory,
            error => KeysFault::Jwk(error),
        }
    }
}

/// A finite map from names to entries.
#[derive(Drop)]
pub struct Ring {
    entries: BTreeMap<String, RingEntry>,
}

impl Model for Ring {
    ghost use Rattle.std.specs.Coded.{coded_list, coded_ℕ};
    ghost use Rattle.std.specs.FinMap as finite;
    ghost use Rattle.picky_ring.specs.TextMap.{TextMap, by_text};
    ghost use Rattle.picky_ring.specs.declared.ring.RingEntry.{RingEntry};
    ghost use Rattle.picky_ring.specs.contracts.ring.RingEntry as entry;

    ghost Value = { TextMap RingEntry };

    ghost coded = { finite.code (coded_list coded_ℕ) entry.the_row.coded };

    ghost view = { λ r. by_text r.entries };
}

impl Ring {
    /// The ring without names, without taking memory.
    pub fn empty(alloc: Global) -> Ring
        ensures { result ≡ finite.empty }
    {
        Ring {
            entries: BTreeMap::new(alloc),
        }
    }

    /// Puts the entry under the name.
    ///
    /// `DuplicateName` exactly where the ring has the name. After an Err the ring is as before.
    #[tactic(auto, unfolding(crate::specs::Refusals::added_table))]
    pub fn insert(&mut self, name: KeyName, entry: RingEntry) -> Result<(), KeysFault>
        ensures first { Meets (λ _. self.new) keys_fault result (added_table self.old (string_bytes name.0) entry) }
        ensures err { OnErr result (self.new ≡ self.old) }
    {
        if look_up(&self.entries, name.0.as_str()).is_some() {
            drop(entry);
            return Err(KeysFault::DuplicateName { name });
        }
        put(&mut self.entries, name.0, entry)?;
        Ok(())
    }

    /// The entry under the name; `None` exactly where the ring hasn't the name. No memory is taken.
    pub fn lookup(&self, name: &str) -> Option<&RingEntry>
        ensures { option_copied result ≡ finite.get self.now name.now }
    {
        look_up(&self.entries, name)
    }
}
