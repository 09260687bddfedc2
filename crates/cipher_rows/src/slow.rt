// GHASH (SP 800-38D, 6.4) with each product formed bit by bit over one `u128`: slow, and the comparison for the table.

fn times_x(v: u128) -> u128 {
    if v % 2 == 1 {
        (v >> 1) ^ 0xe100_0000_0000_0000_0000_0000_0000_0000
    } else {
        v >> 1
    }
}

// The product, one coefficient of `x` after another from that of x^0 on.
fn multiply(x: u128, h: u128) -> u128 {
    let mut product = 0;
    let mut multiple = h;
    for i in 0..128u32 {
        if (x >> (127 - i)) % 2 == 1 {
            product ^= multiple;
        }
        multiple = times_x(multiple);
    }
    product
}

// The hash of what was hashed to `before` and of the blocks of more bytes, with zeros past their end.
fn hashed_on(key: u128, before: u128, bytes: &[u8]) -> u128 {
    let mut hash = before;
    for k in 0..bytes.len().div_ceil(16) {
        let start = 16 * k;
        let count = (bytes.len() - start).min(16);
        let mut block = [0; 16];
        block[..count].copy_from_slice(&bytes[start..start + count]);
        hash = multiply(hash ^ u128::from_be_bytes(block), key);
    }
    hash
}

pub(crate) fn ghash(key: &[u8; 16], aad: &[u8], text: &[u8]) -> [u8; 16] {
    let key = u128::from_be_bytes(*key);
    let of_both = hashed_on(key, hashed_on(key, 0, aad), text);
    let lengths = ((8 * aad.len() as u128) << 64) | (8 * text.len() as u128);
    multiply(of_both ^ lengths, key).to_be_bytes()
}
