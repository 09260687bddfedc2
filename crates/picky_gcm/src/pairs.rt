// Blocks as pairs of numbers: the first and the last eight bytes, the highest byte first.
ghost use Rattle.std.specs.Prelude.{◌≡◌, ◌∷◌, ◌<◌, ◌%◌, false};
ghost use Rattle.picky_gcm.specs.Polynomial.{coefficients, plus, remainder, times_x};
ghost use Rattle.picky_gcm.specs.Table.{pair_block, pair_bytes, times_x4};

// What four coefficients leave that x^4 takes past x^127: entry `i` where the bits of `i` are those of x^124 to x^127,
// the highest first. An entry is the first half of a block; the second is zero.
const REDUCTION: [u64; 16] = [
    0x0000_0000_0000_0000,
    0x1c20_0000_0000_0000,
    0x3840_0000_0000_0000,
    0x2460_0000_0000_0000,
    0x7080_0000_0000_0000,
    0x6ca0_0000_0000_0000,
    0x48c0_0000_0000_0000,
    0x54e0_0000_0000_0000,
    0xe100_0000_0000_0000,
    0xfd20_0000_0000_0000,
    0xd940_0000_0000_0000,
    0xc560_0000_0000_0000,
    0x9180_0000_0000_0000,
    0x8da0_0000_0000_0000,
    0xa9c0_0000_0000_0000,
    0xb5e0_0000_0000_0000,
];

pub(crate) fn pair_of(block: [u8; 16]) -> (u64, u64)
    ensures { pair_bytes result ≡ block }
{
    let [a, b, c, d, e, f, g, h, i, j, k, l, m, n, o, p] = block;
    (
        u64::from_be_bytes([a, b, c, d, e, f, g, h]),
        u64::from_be_bytes([i, j, k, l, m, n, o, p]),
    )
}

pub(crate) fn bytes_of(pair: (u64, u64)) -> [u8; 16]
    ensures { result ≡ pair_bytes pair }
{
    let [a, b, c, d, e, f, g, h] = pair.0.to_be_bytes();
    let [i, j, k, l, m, n, o, p] = pair.1.to_be_bytes();
    [a, b, c, d, e, f, g, h, i, j, k, l, m, n, o, p]
}

pub(crate) fn add(a: (u64, u64), b: (u64, u64)) -> (u64, u64)
    ensures { pair_block result ≡ plus (pair_block a) (pair_block b) }
{
    (a.0 ^ b.0, a.1 ^ b.1)
}

pub(crate) fn times_x(pair: (u64, u64)) -> (u64, u64)
    ensures { pair_block result ≡ times_x (pair_block pair) }
{
    let (high, low) = pair;
    let halved = (high >> 1, (high << 63) | (low >> 1));
    if low % 2 == 1 {
        add(halved, (0xe100_0000_0000_0000, 0))
    } else {
        halved
    }
}

// The first half of what four coefficients leave that x^4 takes past x^127. Its last four bits are zero, so that x^4 times it
// takes nothing past x^127.
#[inline(always)]
fn reduced(fallen: u64) -> u64
    requires { fallen < 16 }
    ensures left { pair_block (result, 0) ≡ remainder (false ∷ false ∷ false ∷ false ∷ coefficients 128 fallen) }
    ensures last { result % 16 ≡ 0 }
{
    REDUCTION[fallen as usize]
}

pub(crate) fn times_x4(pair: (u64, u64)) -> (u64, u64)
    ensures { pair_block result ≡ times_x4 (pair_block pair) }
{
    let (high, low) = pair;
    let shifted = (high >> 4, (high << 60) | (low >> 4));
    add(shifted, (reduced(low % 16), 0))
}

// Eight coefficients fall past x^127 at once: what the last four leave is moved on by x^4.
#[inline(always)]
pub(crate) fn times_x8(pair: (u64, u64)) -> (u64, u64)
    ensures { pair_block result ≡ times_x4 (times_x4 (pair_block pair)) }
{
    let (high, low) = pair;
    let shifted = (high >> 8, (high << 56) | (low >> 8));
    let first = reduced((low >> 4) % 16);
    let last = reduced(low % 16);
    add(shifted, (first ^ (last >> 4), 0))
}
