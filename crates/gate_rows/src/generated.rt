// The texts that a seed makes, and what `admit` says of each.
//
//     generated.text SEED I                text I of the seed, counted from 0
//     generated.record SEED I              its record
//     generated.each SEED COUNT            how many of the first texts `admit` admits with their own records alone, and how many it
//                                          refuses for their signatures
//     generated.speed STEP SEED COUNT      the microseconds of a step over all of them: `made`, `read` or `judged`; no row of `stdout`
use crate::admission::{judged, lenient, records_of};
use crate::timing::{Work, timed};
use anyhow::{Context, Result, bail};
use picky_gate::{Admitted, KeyName, Policy, Refusal, Ring, RingEntry};
use picky_generate::{KEYS, key_name, key_of, record_of, text_of, words_of};
use picky_jose::{JwsError, JwtError};
use picky_key::SignatureAlgorithm;
use picky_records::Recorded;
use rand_core::utils::NextWord;
use rows::{Answer, Words};
use std::alloc::{AllocError, Global};

pub(crate) fn answer(rt: &HostRuntime, call: &str, words: &mut Words<'_>) -> Result<Answer> {
    let alloc = rt.alloc();
    match call {
        "text" => text(alloc, words),
        "record" => record(alloc, words),
        "each" => each(alloc, words),
        "speed" => speed(rt, words),
        _ => bail!("no such call"),
    }
}

// The seed's word of this number.
fn word_at(seed: u64, number: u64) -> u32 {
    let mut words = words_of(seed);
    for _ in 0..number {
        words.next_word();
    }
    words.next_word()
}

fn text(alloc: Global, words: &mut Words<'_>) -> Result<Answer> {
    let seed = words.parsed::<u64>()?;
    let number = words.parsed::<u64>()?;
    let made = made_of(alloc, word_at(seed, number), number)?;
    Ok(Answer::Text(made.text))
}

fn record(alloc: Global, words: &mut Words<'_>) -> Result<Answer> {
    let seed = words.parsed::<u64>()?;
    let number = words.parsed::<u64>()?;
    let made = made_of(alloc, word_at(seed, number), number)?;
    Answer::lines(alloc, &made.record)
}

// A text, and its record alone as a document.
#[derive(Drop)]
struct Made {
    text: String,
    record: String,
}

fn made_of(alloc: Global, word: u32, number: u64) -> Result<Made, AllocError> {
    let text = text_of(alloc, word, number)?;
    let record = record_of(alloc, word, number)?;
    Ok(Made { text, record })
}

// The first texts of a seed.
fn all_made(alloc: Global, seed: u64, count: u32) -> Result<Vec<Made>, AllocError> {
    let mut words = words_of(seed);
    let mut all = Vec::new(alloc);
    for number in 0..count {
        all.push(made_of(alloc, words.next_word(), u64::from(number))?)?;
    }
    Ok(all)
}

// The records of each.
fn all_read(alloc: Global, made: &[Made]) -> Result<Vec<Recorded>> {
    let mut all = Vec::new(alloc);
    for one in made {
        all.push(records_of(alloc, &one.record).context("no records")?)?;
    }
    Ok(all)
}

fn add_key(alloc: Global, ring: &mut Ring, number: u8) -> Result<bool, AllocError> {
    let name = KeyName(key_name(alloc, u32::from(number))?);
    let key = key_of(alloc, number)?;
    let algorithm = SignatureAlgorithm::Ed25519;
    let added = ring.insert(name, RingEntry::Verify { key, algorithm });
    Ok(added.is_ok())
}

fn ring(alloc: Global) -> Result<Ring> {
    let mut ring = Ring::empty(alloc);
    for number in 0..KEYS as u8 {
        if !add_key(alloc, &mut ring, number)? {
            bail!("a key isn't taken");
        }
    }
    Ok(ring)
}

// Whether that is an admission; any refusal but that of the signature is an error.
fn is_admission(decision: &Result<Admitted, Refusal>) -> Result<bool> {
    match decision {
        Ok(_) => Ok(true),
        Err(
            Refusal::Token(
                JwtError::Jws {
                    source: JwsError::Signature { .. },
                },
            ),
        ) => Ok(false),
        Err(_) => bail!("another refusal"),
    }
}

// The texts of a seed, and what they are judged with.
#[derive(Drop)]
struct Texts {
    seed: u64,
    count: u32,
    ring: Ring,
    made: Vec<Made>,
    read: Vec<Recorded>,
    policy: Policy,
}

fn texts_asked(alloc: Global, words: &mut Words<'_>) -> Result<Texts> {
    let seed = words.parsed::<u64>()?;
    let count = words.parsed::<u32>()?;
    let made = all_made(alloc, seed, count)?;
    let read = all_read(alloc, &made)?;
    let ring = ring(alloc)?;
    let policy = lenient();
    Ok(Texts {
        seed,
        count,
        ring,
        made,
        read,
        policy,
    })
}

fn is_admitted(alloc: Global, texts: &Texts, text: &str, records: &Recorded) -> Result<bool> {
    let decision = judged(alloc, text, &texts.ring, records, &texts.policy);
    is_admission(&decision)
}

// How many are admitted, and how many are refused for their signatures.
fn all_judged(alloc: Global, texts: &Texts) -> Result<[u64; 2]> {
    let mut admitted: u64 = 0;
    let mut refused: u64 = 0;
    for (one, records) in texts.made.iter().zip(&texts.read) {
        if is_admitted(alloc, texts, &one.text, records)? {
            admitted = admitted.saturating_add(1);
        } else {
            refused = refused.saturating_add(1);
        }
    }
    Ok([admitted, refused])
}

fn each(alloc: Global, words: &mut Words<'_>) -> Result<Answer> {
    let texts = texts_asked(alloc, words)?;
    let counts = all_judged(alloc, &texts)?;
    Answer::numbers(alloc, &counts)
}

#[derive(Clone, Copy)]
enum Step {
    Made,
    Read,
    Judged,
}

fn step_of(word: &str) -> Option<Step> {
    match word {
        "made" => Some(Step::Made),
        "read" => Some(Step::Read),
        "judged" => Some(Step::Judged),
        _ => None,
    }
}

// A step, and what it is done with.
#[derive(Drop)]
struct Case<'a> {
    step: Step,
    texts: &'a Texts,
}

impl Work for Case<'_> {
    fn is_done(&self, alloc: Global) -> bool {
        match self.step {
            Step::Made => all_made(alloc, self.texts.seed, self.texts.count).is_ok(),
            Step::Read => all_read(alloc, &self.texts.made).is_ok(),
            Step::Judged => all_judged(alloc, self.texts).is_ok(),
        }
    }
}

fn speed(rt: &HostRuntime, words: &mut Words<'_>) -> Result<Answer> {
    let step = step_of(words.next()).context("no such step")?;
    let texts = texts_asked(rt.alloc(), words)?;
    let texts = &texts;
    timed(rt, 1, Some(&Case { step, texts }))
}
