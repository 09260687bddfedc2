// The ring of a set of JSON Web Keys.
ghost use Rattle.std.specs.Prelude.{◌≡◌, IfOk, map, option_map};
ghost use Rattle.picky_contract.specs.Refusals.{Meets, OkOrMemory};
ghost use Rattle.picky_jwk.specs.Views.{jwk_view, set_view};
ghost use Rattle.picky_ring.specs.Refusals.{keys_fault, entry_table, key_table, turn_table, ring_table};
ghost use Rattle.picky_ring.specs.Ring.{RingOfJwks};
ghost use Rattle.picky_ring.specs.Seen.{taken_view};
ghost use Rattle.picky_ring.specs.Taken.{taken_as as as_taken, algorithm_for as for_key};
ghost use Rattle.picky_ring.specs.TextMap.{TextMap};
ghost use Rattle.picky_ring.specs.declared.ring.RingEntry.{RingEntry as Entry};

use crate::algorithm::{algorithm_asked, default_of};
use crate::{KeyName, KeysFault, Ring, RingEntry};
use picky_jwk::{Jwk, JwkSet};
use picky_jwk_key::JwkKeyType;
use picky_jwk_names::JwkPubKeyUse;
use picky_key::SignatureAlgorithm;
use std::alloc::Global;

// A key that is taken.
#[derive(Clone, Copy)]
pub(crate) struct TakenKey<'a> {
    name: &'a str,
    key: &'a JwkKeyType,
    algorithm: SignatureAlgorithm,
}

// The algorithm with which signatures are checked under a key; none where it checks none.
fn algorithm_for(jwk: &Jwk) -> Option<SignatureAlgorithm>
    ensures { result ≡ for_key (jwk_view jwk.now) }
{
    let default = default_of(&jwk.key)?;
    algorithm_asked(jwk.alg, default)
}

// What a key is taken as, unless it is skipped.
fn taken_as(jwk: &Jwk) -> Option<TakenKey<'_>>
    ensures { option_map taken_view result ≡ as_taken (jwk_view jwk.now) }
{
    if let Some(JwkPubKeyUse::Encryption) = jwk.key_use {
        return None;
    }
    let Some(name) = &jwk.kid else {
        return None;
    };
    let algorithm = algorithm_for(jwk)?;
    Some(TakenKey {
        name,
        key: &jwk.key,
        algorithm,
    })
}

// The entry of a key that is taken.
#[tactic(auto, unfolding(crate::specs::Refusals::entry_table))]
fn entry_of(alloc: Global, taken: TakenKey<'_>) -> Result<RingEntry, KeysFault>
    ensures { Meets (λ e. e) keys_fault result (entry_table (taken_view taken.entry)) }
{
    let TakenKey {
        name,
        key,
        algorithm,
    } = taken;
    let key = match key.to_public_key(alloc) {
        Ok(key) => key,
        Err(error) => return Err(KeysFault::from(error)),
    };
    if algorithm.is_of_family(&key) {
        return Ok(RingEntry::Verify { key, algorithm });
    }
    drop(key);
    let name = KeyName(String::from_str(alloc, name)?);
    Err(KeysFault::AlgorithmFamily { name })
}

// Puts the entry of a key that is taken into the ring.
#[tactic(auto, unfolding(crate::specs::Refusals::key_table))]
fn add(alloc: Global, ring: &mut Ring, taken: TakenKey<'_>) -> Result<(), KeysFault>
    ensures { Meets (λ _. ring.new) keys_fault result (key_table ring.old (taken_view taken.entry)) }
{
    let name = KeyName(String::from_str(alloc, taken.name)?);
    match entry_of(alloc, taken) {
        Ok(entry) => ring.insert(name, entry),
        Err(fault) => {
            drop(name);
            Err(fault)
        }
    }
}

// The same, where the key is taken.
fn add_key(alloc: Global, ring: &mut Ring, jwk: &Jwk) -> Result<(), KeysFault>
    ensures { Meets (λ _. ring.new) keys_fault result (turn_table ring.old (as_taken (jwk_view jwk.now))) }
{
    match taken_as(jwk) {
        Some(taken) => add(alloc, ring, taken),
        None => Ok(()),
    }
}

// The ring of the keys.
#[tactic(auto, unfolding(crate::specs::Refusals::ring_table), using(crate::proofs::Keys::turn_leads, crate::proofs::Keys::turn_refuses, crate::proofs::Keys::end_meets))]
fn ring_of(alloc: Global, keys: &Vec<Jwk>) -> Result<Ring, KeysFault>
    ensures { Meets (λ r. r) keys_fault result (ring_table (map jwk_view keys.now.items)) }
{
    let mut ring = Ring::empty(alloc);
    for jwk in keys {
        add_key(alloc, &mut ring, jwk)?;
    }
    Ok(ring)
}

/// The ring of a set: under the name of each key that is taken, its public key with the algorithm of its `alg`, or, where it has none, with
/// that of its kind: RSASSA-PKCS1-v1_5 with SHA-256, ECDSA with SHA-256, SHA-384 or SHA-512 by the curve, Ed25519.
///
/// A key is skipped where it has no `kid`, where its `use` is `enc`, where it is an octet sequence, Ed448, X25519 or X448, and where it has an
/// `alg` without a signature algorithm.
///
/// Refused at the first key that is taken and fails, in this order: as `Jwk` where it has no public key, as `AlgorithmFamily` where its algorithm
/// isn't of its family, as `DuplicateName` where an earlier key has its name.
pub fn ring_from_jwks(alloc: Global, set: &JwkSet) -> Result<Ring, KeysFault>
    ensures found { IfOk result (RingOfJwks (set_view set.now)) }
    ensures every { (r : TextMap Entry) → RingOfJwks (set_view set.now) r → OkOrMemory (λ ring. ring) keys_fault result r }
    ensures first { Meets (λ ring. ring) keys_fault result (ring_table (set_view set.now)) }
{
    ring_of(alloc, &set.keys)
}
