// The steps of a round, one column of a word at a time (FIPS 197, 5.1).
ghost use Rattle.std.specs.Prelude.{◌≡◌, [], ◌∷◌, map};
ghost use Rattle.std.specs.Int.{byte_at, to_be_bytes, w32, w64};
ghost use Rattle.picky_contract.specs.Sums.{add_bytes};
ghost use Rattle.picky_aes.specs.Cipher.{column_product};
ghost use Rattle.picky_aes.specs.Field.{product, substitute};

use crate::tables::{ROUND, SBOX};
use crate::words::{joined, low_word};

// The S-box at one byte.
pub(crate) fn substituted(byte: u8) -> u8
    ensures { result ≡ substitute byte }
{
    SBOX[byte as usize]
}

// What a byte adds to its column in MixColumns, twice over: the low word of it shifted right by r bytes is for a byte of row r.
fn mixed_byte(byte: u8) -> u64
    ensures { to_be_bytes w64 result ≡ map (λ p. product p (substitute byte)) (2 ∷ 1 ∷ 1 ∷ 3 ∷ 2 ∷ 1 ∷ 1 ∷ 3 ∷ []) }
{
    ROUND[byte as usize]
}

// One column of a full round, from the columns that ShiftRows takes its bytes from.
pub(crate) fn round_column(a: u32, b: u32, c: u32, d: u32, key: u32) -> u32
    ensures { to_be_bytes w32 result
        ≡ add_bytes (map (column_product (2 ∷ 1 ∷ 1 ∷ 3 ∷ []) (substitute (byte_at 3 a) ∷ substitute (byte_at 2 b) ∷ substitute (byte_at 1 c) ∷ substitute (byte_at 0 d) ∷ []) 0) (0 ∷ 1 ∷ 2 ∷ 3 ∷ []))
        (to_be_bytes w32 key) }
{
    low_word(mixed_byte((a >> 24) as u8))
        ^ low_word(mixed_byte((d % 256) as u8) >> 24)
        ^ low_word(mixed_byte(((c >> 8) % 256) as u8) >> 16)
        ^ low_word(mixed_byte(((b >> 16) % 256) as u8) >> 8)
        ^ key
}

// One column of the last round, which leaves MixColumns out.
pub(crate) fn last_column(a: u32, b: u32, c: u32, d: u32, key: u32) -> u32
    ensures { to_be_bytes w32 result
        ≡ add_bytes (substitute (byte_at 3 a) ∷ substitute (byte_at 2 b) ∷ substitute (byte_at 1 c) ∷ substitute (byte_at 0 d) ∷ []) (to_be_bytes w32 key) }
{
    joined(
        substituted((a >> 24) as u8),
        substituted(((b >> 16) % 256) as u8),
        substituted(((c >> 8) % 256) as u8),
        substituted((d % 256) as u8),
    ) ^ key
}
