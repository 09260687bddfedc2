// The texts that a seed makes, and how many of them are admitted, each with its own record alone.
ghost use Rattle.std.specs.Prelude.{◌≡◌, ◌↔◌, ◌<◌, ◌≤◌, ◌+◌, ◌^◌, IfOk, OnOk, IsTrue, false, None, string_bytes};
ghost use Rattle.std.specs.FinMap.{get, insert};
ghost use Rattle.picky_key.specs.declared.algorithm.SignatureAlgorithm.TheVariants.{Ed25519};
ghost use Rattle.picky_ring.specs.declared.ring.RingEntry.TheVariants.{Verify};
ghost use Rattle.picky_records.specs.Meanings.{signs_by};
ghost use Rattle.picky_records.specs.Reading.{fault as fault_of};
ghost use Rattle.picky_generate.specs.Texts.{key, key_name as name_of};
ghost use Rattle.picky_gate.specs.Admissible.{Admission, Admissible};
ghost use Rattle.picky_gate.specs.Asked.{generate_of};
ghost use Rattle.picky_gate.specs.Command.{generate};
ghost use Rattle.picky_gate.specs.Generated.{eight_keys, at_zero, IsGoodWith, IsGood, IsCounted, Counts};
ghost use Rattle.picky_gate.specs.Lines.{generated_text};
ghost use Rattle.picky_gate.specs.Refusals.{cause_of};
ghost use Rattle.picky_gate.specs.Reply.{IsSuccess};
ghost use Rattle.picky_gate.specs.Request.{asked_of};

use crate::asked::GenerateWords;
use crate::{KeyName, KeysFault, Policy, Refusal, Ring, RingEntry, admit};
use picky_generate::{KEYS, key_name, key_of, record_of, text_of, words_of};
use picky_http_request::NoRequest;
use picky_jose::{JwtDate, JwtValidator};
use picky_key::SignatureAlgorithm;
use picky_records::{RecordFault, Recorded};
use rand_core::utils::NextWord;
use std::alloc::{AllocError, Global};

// Puts a key under its name, which is new.
#[tactic(auto, unfolding(picky_ring::specs::Refusals::added_table))]
fn put_key(alloc: Global, ring: &mut Ring, number: u8) -> Result<(), AllocError>
    requires { get ring.now (name_of number) ≡ None }
    ensures { OnOk result (ring.new ≡ insert ring.old (name_of number) (Verify (key number) Ed25519)) }
{
    let name = KeyName(key_name(alloc, u32::from(number))?);
    let key = key_of(alloc, number)?;
    let algorithm = SignatureAlgorithm::Ed25519;
    match ring.insert(name, RingEntry::Verify { key, algorithm }) {
        Ok(()) => Ok(()),
        Err(KeysFault::OutOfMemory) => Err(AllocError),
        Err(_) => unreachable!(),
    }
}

// The ring of the keys.
#[tactic(auto, using(crate::proofs::Rings::new_name))]
fn ring_of_keys(alloc: Global) -> Result<Ring, AllocError>
    ensures { IfOk result (λ ring. ring ≡ eight_keys) }
{
    let mut ring = Ring::empty(alloc);
    for number in 0..KEYS as u8 {
        put_key(alloc, &mut ring, number)?;
    }
    Ok(ring)
}

// Moment 0, and lenient checks of dates.
fn policy_at_zero() -> Policy
    ensures { result ≡ at_zero }
{
    Policy {
        validator: JwtValidator::lenient(JwtDate::new(0)),
        now: Some(0),
        leeway: 0,
    }
}

// That a text isn't admitted, unless memory ran out.
#[tactic(auto, using(crate::proofs::Generating::no_cause))]
fn not_admitted(refusal: &Refusal) -> Result<bool, AllocError>
    ensures { IfOk result (λ holds. (holds ≡ false) × ¬ (cause_of refusal.now ≡ None)) }
{
    match refusal {
        Refusal::OutOfMemory => Err(AllocError),
        _ => Ok(false),
    }
}

// Whether a text is admitted over these records.
fn is_admitted(
    alloc: Global,
    text: &str,
    ring: &Ring,
    records: &Recorded,
) -> Result<bool, AllocError>
    ensures { IfOk result (λ holds. IsTrue holds
        ↔ ((a : Admission) × Admissible (signs_by records.now.lines.items) ring.now at_zero (asked_of None) text.now a)) }
{
    match admit(alloc, text, &NoRequest, ring, records, &policy_at_zero()) {
        Ok(_) => Ok(true),
        Err(refusal) => not_admitted(&refusal),
    }
}

// That a document isn't read, unless memory ran out.
#[tactic(auto, using(crate::proofs::Generating::no_fault))]
fn not_read(fault: &RecordFault) -> Result<bool, AllocError>
    ensures { IfOk result (λ holds. (holds ≡ false) × ¬ (fault_of fault.now ≡ None)) }
{
    match fault {
        RecordFault::OutOfMemory => Err(AllocError),
        _ => Ok(false),
    }
}

// Whether a text is admitted with this records document alone.
fn is_admitted_with(
    alloc: Global,
    ring: &Ring,
    text: &str,
    document: &str,
) -> Result<bool, AllocError>
    requires { ring.now ≡ eight_keys }
    ensures { IfOk result (λ good. IsTrue good ↔ IsGoodWith document.now text.now) }
{
    match Recorded::read(alloc, document) {
        Ok(records) => is_admitted(alloc, text, ring, &records),
        Err(fault) => not_read(&fault),
    }
}

// Whether the text of a word and its number is admitted with its own record alone.
fn is_good(alloc: Global, ring: &Ring, word: u32, number: u64) -> Result<bool, AllocError>
    requires { ring.now ≡ eight_keys }
    ensures { IfOk result (λ good. IsTrue good ↔ IsGood word number) }
{
    let record = record_of(alloc, word, number)?;
    let text = text_of(alloc, word, number)?;
    is_admitted_with(alloc, ring, &text, &record)
}

// How many are admitted with this one, where so many were before it.
fn one_more(
    alloc: Global,
    ring: &Ring,
    word: u32,
    number: u64,
    good: u64,
) -> Result<u64, AllocError>
    requires ring { ring.now ≡ eight_keys }
    requires room { good + 1 < 2 ^ 64 }
    ensures { IfOk result (λ more. IsCounted (IsGood word number) good more) }
{
    if is_good(alloc, ring, word, number)? {
        Ok(good + 1)
    } else {
        Ok(good)
    }
}

// How many of the texts of a seed are admitted.
fn count_good(alloc: Global, ring: &Ring, seed: u64, count: u64) -> Result<u64, AllocError>
    requires { ring.now ≡ eight_keys }
    ensures counted { IfOk result (λ good. Counts seed count good) }
    ensures few { IfOk result (λ good. good ≤ count) }
{
    let mut words = words_of(seed);
    let mut good = 0;
    for number in 0..count {
        let word = words.next_word();
        good = one_more(alloc, ring, word, number, good)?;
    }
    Ok(good)
}

// The line of so many texts and of those that were admitted.
fn line_of(alloc: Global, count: u64, good: u64) -> Result<String, AllocError>
    requires { good ≤ count }
    ensures { IfOk result (λ line. string_bytes line ≡ generated_text count good) }
{
    let rest = count - good;
    format!(in alloc; "generated {count} admitted {good} refused {rest}\n")
}

/// The line of a command `generate`: how many texts were made, how many of them were admitted, and how many not.
pub fn generated_line(alloc: Global, words: GenerateWords) -> Result<String, AllocError>
    ensures { IfOk result (λ line. IsSuccess (generate (generate_of words)) (string_bytes line)) }
{
    let ring = ring_of_keys(alloc)?;
    let good = count_good(alloc, &ring, words.seed, words.count)?;
    line_of(alloc, words.count, good)
}
