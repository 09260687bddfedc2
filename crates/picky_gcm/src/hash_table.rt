// GHASH (SP 800-38D, 6.4) over additional data and a text.
ghost use Rattle.std.specs.Prelude.{◌≡◌, ◌<◌, ◌≤◌, ◌+◌, ◌-◌, ◌*◌, ◌^◌, ◌++◌, Bool, List, get_or, length, slice_range};
ghost use Rattle.picky_gcm.specs.Hash.{Ghash_from, blocks, hash_of, padded};
ghost use Rattle.picky_gcm.specs.Polynomial.{Mul, block_of, coefficients};
ghost use Rattle.picky_gcm.specs.Table.{IsMoved, IsTable, pair_block};

use crate::pairs::{add, bytes_of, pair_of, times_x, times_x4, times_x8};
use std::marker::Model;

// Block `k` of the bytes, with zeros past their end.
fn padded_block(bytes: &[u8], k: usize) -> [u8; 16]
    requires { 16 * k < length bytes.now }
    ensures { result ≡ slice_range (padded bytes.now) (16 * k) (16 * k + 16) }
{
    let start = 16 * k;
    let mut block = [0; 16];
    if bytes.len() - start >= 16 {
        block.copy_from_slice(&bytes[start..start + 16]);
    } else {
        let count = bytes.len() - start;
        block[..count].copy_from_slice(&bytes[start..start + count]);
    }
    block
}

// The products of a block and the sixteen polynomials of four coefficients.
fn products_of(key: (u64, u64)) -> [(u64, u64); 16]
    ensures table { IsTable (pair_block key) result }
    ensures key { get_or result 8 (0, 0) ≡ key }
{
    let e8 = key;
    let e4 = times_x(e8);
    let e2 = times_x(e4);
    let e1 = times_x(e2);
    let e3 = add(e2, e1);
    let e5 = add(e4, e1);
    let e6 = add(e4, e2);
    let e7 = add(e4, e3);
    let e9 = add(e8, e1);
    let e10 = add(e8, e2);
    let e11 = add(e8, e3);
    let e12 = add(e8, e4);
    let e13 = add(e8, e5);
    let e14 = add(e8, e6);
    let e15 = add(e8, e7);
    [
        (0, 0),
        e1,
        e2,
        e3,
        e4,
        e5,
        e6,
        e7,
        e8,
        e9,
        e10,
        e11,
        e12,
        e13,
        e14,
        e15,
    ]
}

/// The hash function GHASH (SP 800-38D, 6.4) under one hash key, a block of 16 bytes.
///
/// Contracts see a `HashTable` as the bytes of its hash key. It keeps the sixteen products that [`HashTable::entries`] gives.
#[derive(Drop)]
pub struct HashTable {
    entries: [(u64, u64); 16],
}

impl Model for HashTable {
    ghost use Rattle.std.specs.Prelude.{ℕ, List, get_or};
    ghost use Rattle.picky_gcm.specs.Table.{IsTable, pair_block, pair_bytes};

    ghost Value = { List ℕ };

    ghost view = { λ t. pair_bytes (get_or t.entries 8 (0, 0)) };

    ghost invariant = { λ t. IsTable (pair_block (get_or t.entries 8 (0, 0))) t.entries };
}

impl HashTable {
    /// Takes the hash key, in GCM the cipher of the zero block.
    pub fn new(h: &[u8; 16]) -> Self
        ensures { result ≡ h.now }
    {
        HashTable {
            entries: products_of(pair_of(*h)),
        }
    }

    /// The products of the hash key and the sixteen polynomials of four coefficients: entry `i` is that of the polynomial
    /// whose coefficients of x^0 to x^3 are the four bits of `i`, the highest first. An entry is the first and the last
    /// eight bytes of a block as big-endian numbers.
    pub fn entries(&self) -> &[(u64, u64); 16]
        ensures { IsTable (block_of self.now) result.now }
    {
        &self.entries
    }

    // x^4 times each of the sixteen products.
    fn moved(&self) -> [(u64, u64); 16]
        ensures { IsMoved (block_of self.now) result }
    {
        let e = &self.entries;
        [
            times_x4(e[0]),
            times_x4(e[1]),
            times_x4(e[2]),
            times_x4(e[3]),
            times_x4(e[4]),
            times_x4(e[5]),
            times_x4(e[6]),
            times_x4(e[7]),
            times_x4(e[8]),
            times_x4(e[9]),
            times_x4(e[10]),
            times_x4(e[11]),
            times_x4(e[12]),
            times_x4(e[13]),
            times_x4(e[14]),
            times_x4(e[15]),
        ]
    }

    // The product of the hash key and a polynomial that begins with 64 coefficients, of which `after` is the product of
    // the others: two entries a step, four coefficients each, the later four from the entries that are moved by x^4.
    fn times_half(&self, moved: &[(u64, u64); 16], half: u64, after: (u64, u64)) -> (u64, u64)
        requires { IsMoved (block_of self.now) moved.now }
        ensures { (p : List Bool) → pair_block after ≡ Mul p (block_of self.now) → pair_block result ≡ Mul (coefficients 64 half ++ p) (block_of self.now) }
    {
        let mut product = after;
        for i in 0..8u32 {
            let later = moved[((half >> (8 * i)) % 16) as usize];
            let entry = self.entries[((half >> (8 * i + 4)) % 16) as usize];
            product = add(add(times_x8(product), later), entry);
        }
        product
    }

    fn multiply(&self, moved: &[(u64, u64); 16], block: (u64, u64)) -> (u64, u64)
        requires { IsMoved (block_of self.now) moved.now }
        ensures { pair_block result ≡ Mul (pair_block block) (block_of self.now) }
    {
        self.times_half(moved, block.0, self.times_half(moved, block.1, (0, 0)))
    }

    // The hash of what was hashed to `before` and of the blocks of more bytes.
    fn hashed_on(&self, moved: &[(u64, u64); 16], before: (u64, u64), bytes: &[u8]) -> (u64, u64)
        requires { IsMoved (block_of self.now) moved.now }
        ensures { pair_block result ≡ Ghash_from (block_of self.now) (pair_block before) (blocks (padded bytes.now)) }
    {
        let mut hash = before;
        for k in 0..bytes.len().div_ceil(16) {
            hash = self.multiply(moved, add(hash, pair_of(padded_block(bytes, k))));
        }
        hash
    }

    /// The hash of additional data and a text: of both padded with zeros to whole blocks, and of their numbers of bits.
    /// At most 2^61 - 1 bytes of additional data and 2^36 - 32 bytes of text.
    pub fn ghash(&self, aad: &[u8], text: &[u8]) -> [u8; 16]
        requires aad { length aad.now ≤ 2 ^ 61 - 1 }
        requires text { length text.now ≤ 2 ^ 36 - 32 }
        ensures { result ≡ hash_of self.now aad.now text.now }
    {
        let moved = self.moved();
        let of_aad = self.hashed_on(&moved, (0, 0), aad);
        let of_both = self.hashed_on(&moved, of_aad, text);
        let lengths = (8 * aad.len() as u64, 8 * text.len() as u64);
        bytes_of(self.multiply(&moved, add(of_both, lengths)))
    }
}
