// A state as four words, one for each column, the byte of the first row the highest of its word.
ghost use Rattle.std.specs.Prelude.{◌≡◌, ◌%◌, ◌^◌, [], ◌∷◌};
ghost use Rattle.std.specs.Int.{to_be_bytes, w32};
ghost use Rattle.picky_aes.specs.Words.{bytes_of};

// The word of four bytes, from the highest.
pub(crate) fn joined(a: u8, b: u8, c: u8, d: u8) -> u32
    ensures { to_be_bytes w32 result ≡ a ∷ b ∷ c ∷ d ∷ [] }
{
    u32::from_be_bytes([a, b, c, d])
}

pub(crate) fn low_word(n: u64) -> u32
    ensures { result ≡ n % 2 ^ 32 }
{
    (n % 0x1_0000_0000) as u32
}

pub(crate) fn words(block: &[u8; 16]) -> [u32; 4]
    ensures { bytes_of result ≡ block.now }
{
    let b = *block;
    [
        joined(b[0], b[1], b[2], b[3]),
        joined(b[4], b[5], b[6], b[7]),
        joined(b[8], b[9], b[10], b[11]),
        joined(b[12], b[13], b[14], b[15]),
    ]
}

pub(crate) fn bytes(a: u32, b: u32, c: u32, d: u32) -> [u8; 16]
    ensures { result ≡ bytes_of (a ∷ b ∷ c ∷ d ∷ []) }
{
    let [a0, a1, a2, a3] = a.to_be_bytes();
    let [b0, b1, b2, b3] = b.to_be_bytes();
    let [c0, c1, c2, c3] = c.to_be_bytes();
    let [d0, d1, d2, d3] = d.to_be_bytes();
    [
        a0, a1, a2, a3, b0, b1, b2, b3, c0, c1, c2, c3, d0, d1, d2, d3,
    ]
}
