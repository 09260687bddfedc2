// The cipher and its inverse (FIPS 197, 5.1 and 5.3).
ghost use Rattle.std.specs.Prelude.{◌≡◌, ◌≤◌, ℕ, List, length};
ghost use Rattle.picky_aes.specs.Cipher.{IsBlock, IsKeySize, cipher, cipher_under};
ghost use Rattle.picky_aes.specs.Words.{IsUnmixed, bytes_of};

use crate::key_schedule::{key_words, schedule, unmixed_words};
use crate::steps::{last_column, round_column};
use crate::undo::{first_column, unround_column};
use crate::words::{bytes, words};
use std::marker::Model;

// Encrypts a block by so many full rounds, the first of which stands before the loop, and a last one.
fn encrypt(keys: &[u32; 60], rounds: usize, block: &mut [u8; 16])
    requires low { 1 ≤ rounds }
    requires high { rounds ≤ 13 }
    ensures { block.new ≡ cipher_under (bytes_of keys.now) rounds block.old }
{
    let state = words(block);
    let e = state[0] ^ keys[0];
    let f = state[1] ^ keys[1];
    let g = state[2] ^ keys[2];
    let h = state[3] ^ keys[3];
    let mut a = round_column(e, f, g, h, keys[4]);
    let mut b = round_column(f, g, h, e, keys[5]);
    let mut c = round_column(g, h, e, f, keys[6]);
    let mut d = round_column(h, e, f, g, keys[7]);
    for r in 1..rounds {
        let e = round_column(a, b, c, d, keys[4 * r + 4]);
        let f = round_column(b, c, d, a, keys[4 * r + 5]);
        let g = round_column(c, d, a, b, keys[4 * r + 6]);
        let h = round_column(d, a, b, c, keys[4 * r + 7]);
        a = e;
        b = f;
        c = g;
        d = h;
    }
    let e = last_column(a, b, c, d, keys[4 * rounds + 4]);
    let f = last_column(b, c, d, a, keys[4 * rounds + 5]);
    let g = last_column(c, d, a, b, keys[4 * rounds + 6]);
    let h = last_column(d, a, b, c, keys[4 * rounds + 7]);
    *block = bytes(e, f, g, h);
}

// Undoes the last round, then so many full rounds from the last to the first, of which the first to be undone stands before the
// loop (the equivalent inverse cipher, FIPS 197, 5.3.5).
fn decrypt(keys: &[u32; 60], unmixed: &[u32; 60], rounds: usize, block: &mut [u8; 16])
    requires low { 1 ≤ rounds }
    requires high { rounds ≤ 13 }
    requires unmixed { IsUnmixed keys.now unmixed.now }
    ensures back { cipher_under (bytes_of keys.now) rounds block.new ≡ block.old }
    ensures alone { (x : List ℕ) → IsBlock x → cipher_under (bytes_of keys.now) rounds x ≡ block.old → x ≡ block.new }
{
    let state = words(block);
    let e = state[0] ^ keys[4 * rounds + 4];
    let f = state[1] ^ keys[4 * rounds + 5];
    let g = state[2] ^ keys[4 * rounds + 6];
    let h = state[3] ^ keys[4 * rounds + 7];
    let mut a = unround_column(e, h, g, f, unmixed[4 * rounds]);
    let mut b = unround_column(f, e, h, g, unmixed[4 * rounds + 1]);
    let mut c = unround_column(g, f, e, h, unmixed[4 * rounds + 2]);
    let mut d = unround_column(h, g, f, e, unmixed[4 * rounds + 3]);
    let mut left = rounds - 1;
    while left > 0 {
        let e = unround_column(a, d, c, b, unmixed[4 * left]);
        let f = unround_column(b, a, d, c, unmixed[4 * left + 1]);
        let g = unround_column(c, b, a, d, unmixed[4 * left + 2]);
        let h = unround_column(d, c, b, a, unmixed[4 * left + 3]);
        a = e;
        b = f;
        c = g;
        d = h;
        left -= 1;
    }
    let e = first_column(a, d, c, b, keys[0]);
    let f = first_column(b, a, d, c, keys[1]);
    let g = first_column(c, b, a, d, keys[2]);
    let h = first_column(d, c, b, a, keys[3]);
    *block = bytes(e, f, g, h);
}

/// The block cipher AES (FIPS 197) under one key of 16, 24 or 32 bytes, which is kept expanded.
///
/// Contracts see an `Aes` as the list of its key's bytes.
#[derive(Drop)]
pub struct Aes {
    // the words of the key: 4, 6 or 8
    pub(crate) words: usize,
    // the key schedule, in the first `4 * words + 28` words
    pub(crate) keys: [u32; 60],
    // the same words after InvMixColumns, for decryption
    unmixed: [u32; 60],
}

impl Model for Aes {
    ghost use Rattle.std.specs.Prelude.{ℕ, ◌*◌, List, take};
    ghost use Rattle.picky_aes.specs.Expanded.{IsKept};
    ghost use Rattle.picky_aes.specs.Words.{bytes_of};

    ghost Value = { List ℕ };

    ghost view = { λ a. take (4 * a.words) (bytes_of a.keys) };

    ghost invariant = { λ a. IsKept a.words a.keys a.unmixed };
}

impl Aes {
    /// Expands a key of 16, 24 or 32 bytes (FIPS 197, 5.2).
    pub fn new(key: &[u8]) -> Aes
        requires { IsKeySize (length key.now) }
        ensures { result ≡ key.now }
    {
        let words = key.len() / 4;
        let keys = key_words(&schedule(key, words));
        let unmixed = unmixed_words(&keys);
        Aes {
            words,
            keys,
            unmixed,
        }
    }

    /// Encrypts a block in place (FIPS 197, 5.1).
    pub fn encrypt_block(&self, block: &mut [u8; 16])
        ensures { block.new ≡ cipher self.now block.old }
    {
        encrypt(&self.keys, self.words + 5, block);
    }

    /// Decrypts a block in place (FIPS 197, 5.3): what it leaves is the one block that encrypts to the given one.
    pub fn decrypt_block(&self, block: &mut [u8; 16])
        ensures back { cipher self.now block.new ≡ block.old }
        ensures alone { (x : List ℕ) → IsBlock x → cipher self.now x ≡ block.old → x ≡ block.new }
    {
        decrypt(&self.keys, &self.unmixed, self.words + 5, block);
    }
}
