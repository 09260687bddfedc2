// The steps that undo those of a round (FIPS 197, 5.3), one column of a word at a time.
ghost use Rattle.std.specs.Prelude.{◌≡◌, [], ◌∷◌, map, slice_index};
ghost use Rattle.std.specs.Int.{byte_at, to_be_bytes, w32, w64};
ghost use Rattle.picky_contract.specs.Sums.{add_bytes};
ghost use Rattle.picky_aes.specs.Cipher.{column_product};
ghost use Rattle.picky_aes.specs.Field.{product};

use crate::steps::substituted;
use crate::tables::{INVERSE_SBOX, UNROUND};
use crate::words::{joined, low_word};

// The inverse S-box at one byte.
fn unsubstituted(byte: u8) -> u8
    ensures { result ≡ slice_index INVERSE_SBOX byte }
{
    INVERSE_SBOX[byte as usize]
}

// What a byte adds to its column in InvMixColumns after InvSubBytes, twice over.
fn unmixed_byte(byte: u8) -> u64
    ensures { to_be_bytes w64 result ≡ map (λ p. product p (slice_index INVERSE_SBOX byte)) (14 ∷ 9 ∷ 13 ∷ 11 ∷ 14 ∷ 9 ∷ 13 ∷ 11 ∷ []) }
{
    UNROUND[byte as usize]
}

// One column before a full round, from the columns that its bytes went to; `key` is the round key's column after InvMixColumns.
pub(crate) fn unround_column(a: u32, b: u32, c: u32, d: u32, key: u32) -> u32
    ensures { to_be_bytes w32 result
        ≡ add_bytes (map (column_product (14 ∷ 9 ∷ 13 ∷ 11 ∷ []) (slice_index INVERSE_SBOX (byte_at 3 a) ∷ slice_index INVERSE_SBOX (byte_at 2 b) ∷ slice_index INVERSE_SBOX (byte_at 1 c) ∷ slice_index INVERSE_SBOX (byte_at 0 d) ∷ []) 0) (0 ∷ 1 ∷ 2 ∷ 3 ∷ []))
        (to_be_bytes w32 key) }
{
    low_word(unmixed_byte((a >> 24) as u8))
        ^ low_word(unmixed_byte((d % 256) as u8) >> 24)
        ^ low_word(unmixed_byte(((c >> 8) % 256) as u8) >> 16)
        ^ low_word(unmixed_byte(((b >> 16) % 256) as u8) >> 8)
        ^ key
}

// One column of the first state, which no MixColumns came before.
pub(crate) fn first_column(a: u32, b: u32, c: u32, d: u32, key: u32) -> u32
    ensures { to_be_bytes w32 result
        ≡ add_bytes (slice_index INVERSE_SBOX (byte_at 3 a) ∷ slice_index INVERSE_SBOX (byte_at 2 b) ∷ slice_index INVERSE_SBOX (byte_at 1 c) ∷ slice_index INVERSE_SBOX (byte_at 0 d) ∷ []) (to_be_bytes w32 key) }
{
    joined(
        unsubstituted((a >> 24) as u8),
        unsubstituted(((b >> 16) % 256) as u8),
        unsubstituted(((c >> 8) % 256) as u8),
        unsubstituted((d % 256) as u8),
    ) ^ key
}

// InvMixColumns on one column. The S-box makes up for its inverse in the table.
pub(crate) fn unmixed_column(column: u32) -> u32
    ensures { to_be_bytes w32 result ≡ map (column_product (14 ∷ 9 ∷ 13 ∷ 11 ∷ []) (to_be_bytes w32 column) 0) (0 ∷ 1 ∷ 2 ∷ 3 ∷ []) }
{
    let [a, b, c, d] = column.to_be_bytes();
    let word = joined(
        substituted(a),
        substituted(b),
        substituted(c),
        substituted(d),
    );
    unround_column(word, word, word, word, 0)
}
