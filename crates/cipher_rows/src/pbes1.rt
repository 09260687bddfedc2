// Calls of CBC over an eight-byte block cipher that is handed in. CIPHER is rc2, with a key of 5 bytes, or tdes, of 24.
//
//     pbes1.encrypt CIPHER KEY IV TEXT
//     pbes1.decrypt CIPHER KEY IV SEALED     the text, or `refused`
//     pbes1.left CIPHER KEY IV SEALED        what decrypting leaves in the buffer
//     pbes1.none_serves CIPHER               whether `NoPbes1` serves it
ghost use Rattle.std.specs.Prelude.{◌≡◌, ◌<◌, ◌↔◌, length, IsTrue};
ghost use Rattle.picky_modes.specs.Pbes1.{key_size};
ghost use Rattle.cipher_rows.specs.Added.{added};

use crate::cbc::decrypted;
use crate::given::array;
use anyhow::Result;
use picky_cipher::{NoPbes1, Pbes1Blocks, Pbes1Kind, pbes1_cbc_decrypt, pbes1_cbc_encrypt};
use rows::{Answer, Words, refused};
use std::alloc::Global;

// The cipher that adds its key to a block, over and over.
struct Adding;

fn add(key: &[u8], block: &mut [u8; 8])
    requires { 0 < length key.now }
    ensures { block.new ≡ added key.now block.old }
{
    for i in 0..8usize {
        block[i] ^= key[i % key.len()];
    }
}

impl Pbes1Blocks for Adding {
    ghost use Rattle.std.specs.Prelude.{true};

    ghost serving = { λ _ _. true };

    ghost encrypted = { λ _ _ key block. added key block };

    fn serves(&self, _cipher: Pbes1Kind) -> bool {
        true
    }

    fn encrypt_block(&self, _cipher: Pbes1Kind, key: &[u8], block: &mut [u8; 8]) {
        add(key, block);
    }

    fn decrypt_block(&self, _cipher: Pbes1Kind, key: &[u8], block: &mut [u8; 8]) {
        add(key, block);
    }
}

pub(crate) fn answer(alloc: Global, call: &str, words: &mut Words<'_>) -> Result<Answer> {
    match call {
        "encrypt" => encrypt(alloc, words),
        "decrypt" => decrypt(alloc, words, false),
        "left" => decrypt(alloc, words, true),
        "none_serves" => Ok(Answer::Truth(NoPbes1.serves(cipher(words)?))),
        _ => refused("no such call"),
    }
}

fn cipher(words: &mut Words<'_>) -> Result<Pbes1Kind> {
    match words.next() {
        "rc2" => Ok(Pbes1Kind::Rc2),
        "tdes" => Ok(Pbes1Kind::Tdes),
        _ => refused("no such cipher"),
    }
}

// Whether a key has the cipher's size.
fn fits(cipher: Pbes1Kind, key: &[u8]) -> bool
    ensures { IsTrue result ↔ (length key.now ≡ key_size cipher) }
{
    match cipher {
        Pbes1Kind::Rc2 => key.len() == 5,
        Pbes1Kind::Tdes => key.len() == 24,
    }
}

// The sealed text, where the key is the cipher's.
fn sealed(
    alloc: Global,
    cipher: Pbes1Kind,
    key: &[u8],
    iv: &[u8; 8],
    text: &[u8],
) -> Result<Vec<u8>> {
    if !fits(cipher, key) {
        return refused("no key of this cipher");
    }
    Ok(pbes1_cbc_encrypt(alloc, &Adding, cipher, key, iv, text)?)
}

fn encrypt(alloc: Global, words: &mut Words<'_>) -> Result<Answer> {
    let cipher = cipher(words)?;
    let key = words.bytes(alloc)?;
    let iv = array(words)?;
    let text = words.bytes(alloc)?;
    Answer::bytes(alloc, &sealed(alloc, cipher, &key, &iv, &text)?)
}

// Decrypts in place and gives the size of the text, where the key is the cipher's.
fn opened(cipher: Pbes1Kind, key: &[u8], iv: &[u8; 8], buffer: &mut [u8]) -> Result<Option<usize>> {
    if !fits(cipher, key) {
        return refused("no key of this cipher");
    }
    Ok(pbes1_cbc_decrypt(&Adding, cipher, key, iv, buffer))
}

fn decrypt(alloc: Global, words: &mut Words<'_>, left: bool) -> Result<Answer> {
    let cipher = cipher(words)?;
    let key = words.bytes(alloc)?;
    let iv = array(words)?;
    let mut buffer = words.bytes(alloc)?;
    let size = opened(cipher, &key, &iv, buffer.as_mut_slice())?;
    decrypted(alloc, &buffer, size, left)
}
