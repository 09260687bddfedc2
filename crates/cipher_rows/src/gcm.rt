// Calls of GCM.
//
//     gcm.seal KEY NONCE AAD TEXT            the ciphertext and the tag behind it
//     gcm.open KEY NONCE AAD SEALED TAG      the text, or `refused`
//     gcm.left KEY NONCE AAD SEALED TAG      what opening leaves in the buffer
//     gcm.hash H AAD TEXT                    GHASH under the hash key H
//     gcm.tag_of_counted KEY NONCE AAD COUNT     the tag of so many bytes counted out
//     gcm.tag_of_opened KEY NONCE AAD COUNT      the same, where opening gives those bytes again
//     gcm.entry H I                          entry I of the table under H
//     gcm.hash_of_counted H AAD COUNT        GHASH of so many bytes counted out, where the table and the slow body agree
use crate::given::{aes, array, block, counted};
use crate::slow;
use anyhow::Result;
use picky_cipher::{Aes, HashTable, gcm_open, gcm_seal};
use rows::{Answer, Words, refused};
use std::alloc::Global;

const MOST_TEXT: usize = (1 << 36) - 32;

const MOST_AAD: usize = (1 << 61) - 1;

pub(crate) fn answer(alloc: Global, call: &str, words: &mut Words<'_>) -> Result<Answer> {
    match call {
        "seal" => seal(alloc, words),
        "open" => open(alloc, words, false),
        "left" => open(alloc, words, true),
        "hash" => hash(alloc, words),
        "tag_of_counted" => tag_of_counted(alloc, words),
        "tag_of_opened" => tag_of_opened(alloc, words),
        "entry" => entry(alloc, words),
        "hash_of_counted" => hash_of_counted(alloc, words),
        _ => refused("no such call"),
    }
}

// What sealing and opening are given first: the key's cipher, the nonce, and the data that is not sealed.
#[derive(Drop)]
struct Sealer {
    aes: Aes,
    nonce: [u8; 12],
    aad: Vec<u8>,
}

fn given(alloc: Global, words: &mut Words<'_>) -> Result<Sealer> {
    Ok(Sealer {
        aes: aes(alloc, words)?,
        nonce: array(words)?,
        aad: words.bytes(alloc)?,
    })
}

impl Sealer {
    // Seals in place and gives the tag, where the text and the data are not too long.
    fn seal(&self, buffer: &mut [u8]) -> Result<[u8; 16]> {
        if self.aad.len() > MOST_AAD || buffer.len() > MOST_TEXT {
            return refused("too long to seal");
        }
        Ok(gcm_seal(&self.aes, &self.nonce, &self.aad, buffer))
    }

    // Opens in place and says whether the tag was right, where the text and the data are not too long.
    fn open(&self, buffer: &mut [u8], tag: &[u8; 16]) -> Result<bool> {
        if self.aad.len() > MOST_AAD || buffer.len() > MOST_TEXT {
            return refused("too long to open");
        }
        Ok(gcm_open(&self.aes, &self.nonce, &self.aad, buffer, tag).is_some())
    }
}

fn seal(alloc: Global, words: &mut Words<'_>) -> Result<Answer> {
    let sealer = given(alloc, words)?;
    let mut buffer = words.bytes(alloc)?;
    let tag = sealer.seal(buffer.as_mut_slice())?;
    buffer.extend_from_slice(&tag)?;
    Answer::bytes(alloc, &buffer)
}

fn open(alloc: Global, words: &mut Words<'_>, left: bool) -> Result<Answer> {
    let sealer = given(alloc, words)?;
    let mut buffer = words.bytes(alloc)?;
    let tag = block(words)?;
    let opened = sealer.open(buffer.as_mut_slice(), &tag)?;
    told(alloc, &buffer, opened || left)
}

// The bytes where they are told, and else that they are refused.
fn told(alloc: Global, bytes: &[u8], tells: bool) -> Result<Answer> {
    if tells {
        return Answer::bytes(alloc, bytes);
    }
    Ok(Answer::Word("refused"))
}

// GHASH by the table, where the text and the data are not too long.
fn hashed(key: &[u8; 16], aad: &[u8], text: &[u8]) -> Result<[u8; 16]> {
    if aad.len() > MOST_AAD || text.len() > MOST_TEXT {
        return refused("too long to hash");
    }
    Ok(HashTable::new(key).ghash(aad, text))
}

fn hash(alloc: Global, words: &mut Words<'_>) -> Result<Answer> {
    let key = block(words)?;
    let aad = words.bytes(alloc)?;
    let text = words.bytes(alloc)?;
    Answer::bytes(alloc, &hashed(&key, &aad, &text)?)
}

// The bytes, where two ways of making them agree.
fn agreed(alloc: Global, bytes: &[u8], agree: bool) -> Result<Answer> {
    if agree {
        return Answer::bytes(alloc, bytes);
    }
    Ok(Answer::Word("differs"))
}

fn hash_of_counted(alloc: Global, words: &mut Words<'_>) -> Result<Answer> {
    let key = block(words)?;
    let aad = words.bytes(alloc)?;
    let text = counted(alloc, words.size()?)?;
    let hash = hashed(&key, &aad, &text)?;
    agreed(alloc, &hash, slow::ghash(&key, &aad, &text) == hash)
}

// The bytes of an entry of the table under a hash key.
fn entry_bytes(key: &[u8; 16], place: usize) -> Result<[u8; 16]> {
    let table = HashTable::new(key);
    match table.entries().get(place) {
        Some((high, low)) => Ok(joined(*high, *low)),
        None => refused("no such entry"),
    }
}

fn joined(high: u64, low: u64) -> [u8; 16] {
    ((high as u128) << 64 | low as u128).to_be_bytes()
}

fn entry(alloc: Global, words: &mut Words<'_>) -> Result<Answer> {
    let key = block(words)?;
    Answer::bytes(alloc, &entry_bytes(&key, words.size()?)?)
}

fn tag_of_counted(alloc: Global, words: &mut Words<'_>) -> Result<Answer> {
    let sealer = given(alloc, words)?;
    let mut text = counted(alloc, words.size()?)?;
    let tag = sealer.seal(text.as_mut_slice())?;
    Answer::bytes(alloc, &tag)
}

fn tag_of_opened(alloc: Global, words: &mut Words<'_>) -> Result<Answer> {
    let sealer = given(alloc, words)?;
    let text = counted(alloc, words.size()?)?;
    let mut buffer = text.clone()?;
    let tag = sealer.seal(buffer.as_mut_slice())?;
    let opened = sealer.open(buffer.as_mut_slice(), &tag)?;
    agreed(alloc, &tag, opened && buffer == text)
}
