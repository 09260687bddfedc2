// A text that is sealed under a password.
ghost use Rattle.std.specs.Prelude.{◌≡◌, ◌≤◌, ◌-◌, ◌^◌, ℕ, List, [], length, IfOk, OnErr, IsSome, option_map};
ghost use Rattle.picky_gcm.specs.Gcm.{Open, Seal};
ghost use Rattle.uses.specs.Seals.{key_of};

use picky_cipher::{Aes, Pkcs12HashAlgorithm, gcm_open, gcm_seal, pbkdf2};
use std::alloc::{AllocError, Global};

// How many HMACs a guess at a password costs.
const ITERATIONS: u32 = 600_000;

// The cipher under the key of a password.
fn cipher_of(alloc: Global, password: &[u8], salt: &[u8]) -> Result<Aes, AllocError>
    ensures { IfOk result (λ aes. aes ≡ key_of password.now salt.now) }
{
    let hash = Pkcs12HashAlgorithm::Sha256;
    let key = pbkdf2(alloc, hash, password, salt, ITERATIONS, 32)?;
    Ok(Aes::new(&key))
}

/// Seals a text in place under a password, and gives its tag. No nonce is to be used twice under one password and salt.
pub fn seal_text(
    alloc: Global,
    password: &[u8],
    salt: &[u8],
    nonce: &[u8; 12],
    text: &mut [u8],
) -> Result<[u8; 16], AllocError>
    requires { length text.old ≤ 2 ^ 36 - 32 }
    ensures sealed { IfOk result (λ tag. Seal (key_of password.now salt.now) nonce.now [] text.old ≡ record { text = text.new; tag = tag }) }
    ensures kept { OnErr result (text.new ≡ text.old) }
{
    let aes = cipher_of(alloc, password, salt)?;
    Ok(gcm_seal(&aes, nonce, &[], text))
}

/// Opens a sealed text in place; none where the password, the text or its tag isn't right.
pub fn open_text(
    alloc: Global,
    password: &[u8],
    salt: &[u8],
    nonce: &[u8; 12],
    sealed: &mut [u8],
    tag: &[u8; 16],
) -> Result<Option<()>, AllocError>
    requires { length sealed.old ≤ 2 ^ 36 - 32 }
    ensures opened { IfOk result (λ o. Open (key_of password.now salt.now) nonce.now [] (record { text = sealed.old; tag = tag.now }) (option_map (λ _. sealed.new) o)) }
    ensures back { (text : List ℕ) → Seal (key_of password.now salt.now) nonce.now [] text ≡ record { text = sealed.old; tag = tag.now } → IfOk result (λ o. IsSome o × (sealed.new ≡ text)) }
    ensures kept { OnErr result (sealed.new ≡ sealed.old) }
{
    let aes = cipher_of(alloc, password, salt)?;
    Ok(gcm_open(&aes, nonce, &[], sealed, tag))
}
