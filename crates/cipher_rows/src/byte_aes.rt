// AES byte by byte (FIPS 197, 5.1 to 5.3), with an S-box that is made by its definition: the slow body that `picky_aes`, which
// works on words with tables, is compared with. A block is four columns of four bytes, and so is a round key.
ghost use Rattle.std.specs.Prelude.{◌≡◌, ◌≤◌, length};
ghost use Rattle.picky_aes.specs.Expanded.{IsWordCount};

fn times_x(byte: u8) -> u8 {
    if byte < 128 {
        byte << 1
    } else {
        (byte << 1) ^ 0x1b
    }
}

// The product of two bytes as polynomials (4.2).
fn product(a: u8, b: u8) -> u8 {
    let mut sum = 0;
    let mut term = b;
    let mut rest = a;
    for _ in 0..8u32 {
        if rest % 2 == 1 {
            sum ^= term;
        }
        term = times_x(term);
        rest /= 2;
    }
    sum
}

// The affine map of the byte whose product with this one is 1, and of 0 for 0 (5.1.1).
fn image(byte: u8) -> u8 {
    let mut b = 0;
    for c in 1..=255u8 {
        if product(byte, c) == 1 {
            b = c;
        }
    }
    b ^ b.rotate_left(1) ^ b.rotate_left(2) ^ b.rotate_left(3) ^ b.rotate_left(4) ^ 0x63
}

// The S-box and its inverse.
fn fill_boxes(sub: &mut [u8; 256], unsub: &mut [u8; 256]) {
    for byte in 0..=255u8 {
        let to = image(byte);
        sub[byte as usize] = to;
        unsub[to as usize] = byte;
    }
}

fn columns(block: [u8; 16]) -> [[u8; 4]; 4] {
    let [a, b, c, d, e, f, g, h, i, j, k, l, m, n, o, p] = block;
    [[a, b, c, d], [e, f, g, h], [i, j, k, l], [m, n, o, p]]
}

fn bytes(state: [[u8; 4]; 4]) -> [u8; 16] {
    let [[a, b, c, d], [e, f, g, h], [i, j, k, l], [m, n, o, p]] = state;
    [a, b, c, d, e, f, g, h, i, j, k, l, m, n, o, p]
}

fn replaced([a, b, c, d]: [u8; 4], table: &[u8; 256]) -> [u8; 4] {
    [
        table[a as usize],
        table[b as usize],
        table[c as usize],
        table[d as usize],
    ]
}

fn sum([a, b, c, d]: [u8; 4], [e, f, g, h]: [u8; 4]) -> [u8; 4] {
    [a ^ e, b ^ f, c ^ g, d ^ h]
}

fn replace(state: &mut [[u8; 4]; 4], table: &[u8; 256]) {
    for column in state.iter_mut() {
        *column = replaced(*column, table);
    }
}

fn shift_rows(state: [[u8; 4]; 4]) -> [[u8; 4]; 4] {
    let [[a, b, c, d], [e, f, g, h], [i, j, k, l], [m, n, o, p]] = state;
    [[a, f, k, p], [e, j, o, d], [i, n, c, h], [m, b, g, l]]
}

// One byte of a column times a polynomial, given by its coefficients from the lowest, each beside the byte that it meets.
fn dot([p, q, r, s]: [u8; 4], [a, b, c, d]: [u8; 4]) -> u8 {
    product(p, a) ^ product(q, b) ^ product(r, c) ^ product(s, d)
}

fn times([a, b, c, d]: [u8; 4], p: [u8; 4]) -> [u8; 4] {
    [
        dot(p, [a, d, c, b]),
        dot(p, [b, a, d, c]),
        dot(p, [c, b, a, d]),
        dot(p, [d, c, b, a]),
    ]
}

// Each column times a polynomial.
fn times_columns(state: &mut [[u8; 4]; 4], p: [u8; 4]) {
    for column in state.iter_mut() {
        *column = times(*column, p);
    }
}

fn add_key(state: &mut [[u8; 4]; 4], keys: &[[u8; 4]; 60], round: usize)
    requires { round ≤ 14 }
{
    for i in 0..4usize {
        state[i] = sum(state[i], keys[4 * round + i]);
    }
}

// What is added to word `i - words` of a key schedule to give word `i`, where word `i - 1` is given (5.2).
fn key_step(sub: &[u8; 256], words: usize, i: usize, before: [u8; 4], power: u8) -> [u8; 4]
    requires { IsWordCount words }
{
    if i % words == 0 {
        let [a, b, c, d] = replaced(before, sub);
        [b ^ power, c, d, a]
    } else if words > 6 && i % words == 4 {
        replaced(before, sub)
    } else {
        before
    }
}

// The key schedule, where the key of so many words stands in front.
fn expand(keys: &mut [[u8; 4]; 60], sub: &[u8; 256], words: usize)
    requires { IsWordCount words }
{
    let mut power = 1;
    for m in 0..3 * words + 28 {
        let i = words + m;
        let step = key_step(sub, words, i, keys[i - 1], power);
        if i % words == 0 {
            power = times_x(power);
        }
        keys[i] = sum(keys[m], step);
    }
}

// The cipher under one key.
#[derive(Drop)]
pub(crate) struct ByteAes {
    sub: [u8; 256],
    unsub: [u8; 256],
    keys: [[u8; 4]; 60],
    rounds: usize,
    ghost in_range: { rounds ≤ 14 },
}

impl ByteAes {
    ghost use Rattle.picky_aes.specs.Cipher.{IsKeySize};

    pub(crate) fn new(key: &[u8]) -> ByteAes
        requires { IsKeySize (length key.now) }
    {
        let mut sub = [0; 256];
        let mut unsub = [0; 256];
        fill_boxes(&mut sub, &mut unsub);
        let words = key.len() / 4;
        let mut keys = [[0; 4]; 60];
        for i in 0..words {
            keys[i] = [key[4 * i], key[4 * i + 1], key[4 * i + 2], key[4 * i + 3]];
        }
        expand(&mut keys, &sub, words);
        ByteAes {
            sub,
            unsub,
            keys,
            rounds: words + 6,
        }
    }

    pub(crate) fn encrypt_block(&self, block: &mut [u8; 16]) {
        let mut state = columns(*block);
        add_key(&mut state, &self.keys, 0);
        for round in 1..self.rounds {
            replace(&mut state, &self.sub);
            state = shift_rows(state);
            times_columns(&mut state, [2, 1, 1, 3]);
            add_key(&mut state, &self.keys, round);
        }
        replace(&mut state, &self.sub);
        state = shift_rows(state);
        add_key(&mut state, &self.keys, self.rounds);
        *block = bytes(state);
    }

    pub(crate) fn decrypt_block(&self, block: &mut [u8; 16]) {
        let mut state = columns(*block);
        add_key(&mut state, &self.keys, self.rounds);
        for round in (1..self.rounds).rev() {
            self.unshift(&mut state);
            add_key(&mut state, &self.keys, round);
            times_columns(&mut state, [14, 9, 13, 11]);
        }
        self.unshift(&mut state);
        add_key(&mut state, &self.keys, 0);
        *block = bytes(state);
    }

    // Three turns of the rows undo one.
    fn unshift(&self, state: &mut [[u8; 4]; 4]) {
        *state = shift_rows(shift_rows(shift_rows(*state)));
        replace(state, &self.unsub);
    }
}
