// Key wrap under AES (RFC 3394).
ghost use Rattle.std.specs.Prelude.{◌≡◌, ◌<◌, ◌≤◌, ◌+◌, ◌-◌, ◌*◌, ◌/◌, ◌%◌, ◌^◌, ℕ, List, ◌++◌, length, IfOk, IfSome, IsSomeAnd};
ghost use Rattle.std.specs.Int.{to_be_bytes, w64};
ghost use Rattle.picky_contract.specs.Sums.{add_bytes};
ghost use Rattle.picky_aes.specs.Cipher.{cipher};
ghost use Rattle.picky_modes.specs.Blocks.{IsBlock, IsBytes, block};
ghost use Rattle.picky_modes.specs.KeyWrap.{with_register, wrap_step, wrap_steps, wrapped_key};

use crate::block_cipher::xor_into;
use picky_aes::Aes;
use picky_aes::laws::encrypts_to_blocks;
use picky_contract::equal_bytes;
use std::alloc::{AllocError, Global};

// The initial value of A (2.2.3.1).
const INITIAL_VALUE: [u8; 8] = [0xA6; 8];

// A and register `i` as one block.
fn joined_registers(registers: &[u8], i: usize) -> [u8; 16]
    requires { 8 * i + 8 ≤ length registers.now }
    ensures { result ≡ block 8 registers.now 0 ++ block 8 registers.now i }
{
    let mut joined = [0; 16];
    joined[..8].copy_from_slice(&registers[..8]);
    joined[8..].copy_from_slice(&registers[8 * i..8 * i + 8]);
    joined
}

// Replaces register `i`, where A is register 0.
fn replace_register(registers: &mut [u8], i: usize, value: &[u8])
    requires fits { 8 * i + 8 ≤ length registers.old }
    requires size { length value.now ≡ 8 }
    ensures { registers.new ≡ with_register registers.old i value.now }
{
    registers[8 * i..8 * i + 8].copy_from_slice(value);
}

// Step `t` of the wrap of `n` registers (2.2.1).
fn wrap_once(aes: &Aes, registers: &mut [u8], n: usize, t: usize)
    requires some { 0 < n }
    requires fits { 8 * n + 8 ≤ length registers.old }
    requires step { 0 < t }
    ensures { registers.new ≡ wrap_step (cipher aes.now) n t registers.old }
{
    let i = (t - 1) % n + 1;
    let mut joined = joined_registers(registers, i);
    aes.encrypt_block(&mut joined);
    replace_register(registers, i, &joined[8..]);
    xor_into(&mut joined[..8], &(t as u64).to_be_bytes());
    replace_register(registers, 0, &joined[..8]);
}

// Undoes step `t` of the wrap of `n` registers (2.2.2).
fn unwrap_once(aes: &Aes, registers: &mut [u8], n: usize, t: usize)
    requires some { 0 < n }
    requires fits { 8 * n + 8 ≤ length registers.old }
    requires step { 0 < t }
    ensures back { wrap_step (cipher aes.now) n t registers.new ≡ registers.old }
    ensures alone { (s : List ℕ) → IsBlock (length registers.old) s → wrap_step (cipher aes.now) n t s ≡ registers.old → s ≡ registers.new }
{
    encrypts_to_blocks(aes);
    let i = (t - 1) % n + 1;
    let mut joined = joined_registers(registers, i);
    xor_into(&mut joined[..8], &(t as u64).to_be_bytes());
    aes.decrypt_block(&mut joined);
    replace_register(registers, i, &joined[8..]);
    replace_register(registers, 0, &joined[..8]);
}

// The 6 n steps of the wrap of `n` registers (2.2.1).
fn wrap_registers(aes: &Aes, registers: &mut [u8], n: usize)
    requires some { 0 < n }
    requires small { n ≤ 128 }
    requires fits { 8 * n + 8 ≤ length registers.old }
    ensures { registers.new ≡ wrap_steps (cipher aes.now) n registers.old (6 * n) }
{
    for t in 0..6 * n {
        wrap_once(aes, registers, n, t + 1);
    }
}

// Undoes the 6 n steps of the wrap of `n` registers, the last one first (2.2.2).
fn unwrap_registers(aes: &Aes, registers: &mut [u8], n: usize)
    requires some { 0 < n }
    requires small { n ≤ 128 }
    requires fits { 8 * n + 8 ≤ length registers.old }
    ensures back { wrap_steps (cipher aes.now) n registers.new (6 * n) ≡ registers.old }
    ensures alone { (s : List ℕ) → IsBlock (length registers.old) s → wrap_steps (cipher aes.now) n s (6 * n) ≡ registers.old → s ≡ registers.new }
{
    encrypts_to_blocks(aes);
    let mut t = 6 * n;
    while t > 0 {
        unwrap_once(aes, registers, n, t);
        t -= 1;
    }
}

/// Wraps a key of 16 to 1,024 bytes, a multiple of 8, under AES (RFC 3394, 2.2.1, with the initial
/// value of 2.2.3.1). What it gives is eight bytes longer.
pub fn key_wrap(alloc: Global, aes: &Aes, plain: &[u8]) -> Result<Vec<u8>, AllocError>
    requires whole { length plain.now % 8 ≡ 0 }
    requires low { 16 ≤ length plain.now }
    requires high { length plain.now ≤ 1024 }
    ensures wrapped { IfOk result (λ v. v.items ≡ wrapped_key (cipher aes.now) plain.now) }
    ensures size { IfOk result (λ v. length v.items ≡ length plain.now + 8) }
{
    let mut registers = Vec::with_capacity(alloc, plain.len() + 8)?;
    registers.extend_from_slice(&INITIAL_VALUE)?;
    registers.extend_from_slice(plain)?;
    wrap_registers(aes, registers.as_mut_slice(), plain.len() / 8);
    Ok(registers)
}

/// The key that a wrapped key of 24 to 1,024 bytes, a multiple of 8, holds under AES (RFC 3394,
/// 2.2.2).
///
/// None exactly where the check of the initial value fails: no key wraps to these bytes.
pub fn key_unwrap(alloc: Global, aes: &Aes, wrapped: &[u8]) -> Result<Option<Vec<u8>>, AllocError>
    requires whole { length wrapped.now % 8 ≡ 0 }
    requires low { 24 ≤ length wrapped.now }
    requires high { length wrapped.now ≤ 1024 }
    ensures key { IfOk result (λ r. IfSome r (λ v. wrapped_key (cipher aes.now) v.items ≡ wrapped.now)) }
    ensures size { IfOk result (λ r. IfSome r (λ v. length v.items + 8 ≡ length wrapped.now)) }
    ensures every { (plain : List ℕ) → IsBytes plain → wrapped_key (cipher aes.now) plain ≡ wrapped.now → IfOk result (λ r. IsSomeAnd r (λ v. v.items ≡ plain)) }
{
    encrypts_to_blocks(aes);
    let mut registers = Vec::from_slice(alloc, wrapped)?;
    unwrap_registers(aes, registers.as_mut_slice(), wrapped.len() / 8 - 1);
    if !equal_bytes(&registers[..8], &INITIAL_VALUE) {
        return Ok(None);
    }
    Ok(Some(Vec::from_slice(alloc, &registers[8..])?))
}
