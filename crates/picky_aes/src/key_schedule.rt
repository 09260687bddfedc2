// The key expansion (FIPS 197, 5.2), word by word.
ghost use Rattle.std.specs.Prelude.{◌≡◌, ◌<◌, ◌≤◌, ◌+◌, ◌*◌, length, take};
ghost use Rattle.picky_contract.specs.Sums.{add_bytes};
ghost use Rattle.picky_aes.specs.Cipher.{key_step, schedule, word_at};
ghost use Rattle.picky_aes.specs.Expanded.{IsWordCount};
ghost use Rattle.picky_aes.specs.Words.{IsUnmixed, bytes_of};

use crate::steps::substituted;
use crate::undo::unmixed_column;
use crate::words::joined;

// x^0, .., x^9, the first bytes of the round constants.
const POWERS: [u8; 10] = [0x01, 0x02, 0x04, 0x08, 0x10, 0x20, 0x40, 0x80, 0x1b, 0x36];

fn word_at(keys: &[u8; 240], i: usize) -> [u8; 4]
    requires { i < 60 }
    ensures { result ≡ word_at keys.now i }
{
    [
        keys[4 * i],
        keys[4 * i + 1],
        keys[4 * i + 2],
        keys[4 * i + 3],
    ]
}

// What is added to word `i - words` to give word `i`, where `before` is word `i - 1`.
fn key_step(words: usize, i: usize, before: [u8; 4]) -> [u8; 4]
    requires count { IsWordCount words }
    requires low { words ≤ i }
    requires high { i < 4 * words + 28 }
    ensures { result ≡ key_step words i before }
{
    let [a, b, c, d] = before;
    if i % words == 0 {
        [
            substituted(b) ^ POWERS[i / words - 1],
            substituted(c),
            substituted(d),
            substituted(a),
        ]
    } else if words > 6 && i % words == 4 {
        [
            substituted(a),
            substituted(b),
            substituted(c),
            substituted(d),
        ]
    } else {
        before
    }
}

fn add_words(s: [u8; 4], t: [u8; 4]) -> [u8; 4]
    ensures { result ≡ add_bytes s t }
{
    let [a, b, c, d] = s;
    let [e, f, g, h] = t;
    [a ^ e, b ^ f, c ^ g, d ^ h]
}

// The key of so many words and the words after it: 44, 52 or 60 in all.
pub(crate) fn schedule(key: &[u8], words: usize) -> [u8; 240]
    requires count { IsWordCount words }
    requires size { length key.now ≡ 4 * words }
    ensures { take (16 * words + 112) result ≡ schedule words key.now (3 * words + 28) }
{
    let mut keys = [0; 240];
    keys[..key.len()].copy_from_slice(key);
    for m in 0..3 * words + 28 {
        let i = words + m;
        let before = word_at(&keys, i - 1);
        let word = add_words(word_at(&keys, m), key_step(words, i, before));
        keys[4 * i..4 * i + 4].copy_from_slice(&word);
    }
    keys
}

// The words of an expanded key.
pub(crate) fn key_words(keys: &[u8; 240]) -> [u32; 60]
    ensures { bytes_of result ≡ keys.now }
{
    let mut words = [0; 60];
    for i in 0..60 {
        let [a, b, c, d] = word_at(keys, i);
        words[i] = joined(a, b, c, d);
    }
    words
}

// The words of a key schedule after InvMixColumns (FIPS 197, 5.3.5).
pub(crate) fn unmixed_words(keys: &[u32; 60]) -> [u32; 60]
    ensures { IsUnmixed keys.now result }
{
    let mut words = [0; 60];
    for i in 0..60usize {
        words[i] = unmixed_column(keys[i]);
    }
    words
}
