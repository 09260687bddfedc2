// The record of a text's signature.
ghost use Rattle.std.specs.Prelude.{◌≡◌, IfOk, string_bytes};
ghost use Rattle.picky_key_der.specs.Writing.{public_der_of};
ghost use Rattle.picky_generate.specs.Texts.{changed, key, key_number, message, record_line, url};

use crate::keys::{KEYS, key_of};
use crate::token::{signature_of, signed_of, url_of};
use picky_key_der::KeyError;
use std::alloc::{AllocError, Global};

// The bytes, with the lowest bit of the last one changed.
fn changed_bytes(alloc: Global, bytes: &[u8]) -> Result<Vec<u8>, AllocError>
    ensures { IfOk result (λ out. out.items ≡ changed bytes.now) }
{
    let [front @ .., last] = bytes else {
        return Ok(Vec::new(alloc));
    };
    let mut out = Vec::from_slice(alloc, front)?;
    out.push(*last ^ 1)?;
    Ok(out)
}

// The message of the record in base64url.
fn message_of(alloc: Global, word: u32, number: u64) -> Result<String, AllocError>
    ensures { IfOk result (λ out. string_bytes out ≡ url (message word number)) }
{
    let signed = signed_of(alloc, word, number)?;
    if number % 7 == 6 {
        let other = changed_bytes(alloc, signed.as_bytes())?;
        url_of(alloc, &other)
    } else {
        url_of(alloc, signed.as_bytes())
    }
}

// The key's SubjectPublicKeyInfo in base64url.
fn spki_of(alloc: Global, number: u8) -> Result<String, AllocError>
    ensures { IfOk result (λ out. string_bytes out ≡ url (public_der_of (key number))) }
{
    let key = key_of(alloc, number)?;
    match key.to_der(alloc) {
        Ok(der) => url_of(alloc, &der),
        Err(KeyError::OutOfMemory) => Err(AllocError),
        Err(_) => unreachable!(),
    }
}

/// The records document of a text: the one line `sig ed25519-sha512 SPKI MESSAGE SIGNATURE`, for the text's key, the bytes before its last dot
/// and its signature, byte fields in base64url; but where the number modulo 7 is 6 the message's last byte has its lowest bit changed.
///
/// The one error is want of memory.
pub fn record_of(alloc: Global, word: u32, number: u64) -> Result<String, AllocError>
    ensures { IfOk result (λ out. string_bytes out ≡ record_line word number) }
{
    let spki = spki_of(alloc, (word % KEYS) as u8)?;
    let message = message_of(alloc, word, number)?;
    let signature = signature_of(alloc, word)?;
    format!(in alloc; "sig ed25519-sha512 {spki} {message} {signature}\n")
}
