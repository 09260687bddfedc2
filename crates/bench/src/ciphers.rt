// How long the calls of the ciphers take, by bytes and microseconds.
use crate::timing::{MEBIBYTE, counted, report};
use anyhow::{Result, bail};
use picky_cipher::{Aes, HashTable, cbc_decrypt, cbc_encrypt, gcm_seal};
use std::time::Instant;

const MOST_TEXT: usize = (1 << 36) - 32;

// Prints a line for single blocks both ways, for GHASH, and for texts of three sizes.
pub(crate) fn print(rt: &HostRuntime) -> Result<()> {
    let aes = Aes::new(&[7; 16]);
    time_blocks(rt, &aes)?;
    time_hash(rt)?;
    time_gcm(rt, "gcm-of-16-bytes", &aes, 16, 1 << 16)?;
    time_gcm(rt, "gcm-of-1-kib", &aes, 1024, 1 << 12)?;
    time_gcm(rt, "gcm-of-1-mib", &aes, MEBIBYTE, 8)
}

fn time_blocks(rt: &HostRuntime, aes: &Aes) -> Result<()> {
    let mut block = [0; 16];
    let start = Instant::now(rt)?;
    for _ in 0..MEBIBYTE {
        aes.encrypt_block(&mut block);
    }
    report(rt, "aes-128-blocks", 16 * MEBIBYTE as u64, &start)?;
    let start = Instant::now(rt)?;
    for _ in 0..MEBIBYTE {
        aes.decrypt_block(&mut block);
    }
    if block != [0; 16] {
        bail!("the blocks did not come back");
    }
    report(rt, "aes-128-blocks-back", 16 * MEBIBYTE as u64, &start)
}

fn time_hash(rt: &HostRuntime) -> Result<()> {
    let text = counted(rt.alloc(), MEBIBYTE)?;
    if text.len() > MOST_TEXT {
        bail!("too long to hash");
    }
    let mut hash = [7; 16];
    let start = Instant::now(rt)?;
    for _ in 0..8 {
        hash = HashTable::new(&hash).ghash(&[], &text);
    }
    report(rt, "ghash", 8 * MEBIBYTE as u64, &start)
}

// Sealing a text of so many bytes so often.
pub(crate) fn time_gcm(
    rt: &HostRuntime,
    name: &str,
    aes: &Aes,
    size: usize,
    times: u64,
) -> Result<()> {
    let mut text = counted(rt.alloc(), size)?;
    let start = Instant::now(rt)?;
    for _ in 0..times {
        if text.len() > MOST_TEXT {
            bail!("too long to seal");
        }
        let _tag = gcm_seal(aes, &[0; 12], &[], text.as_mut_slice());
    }
    report(rt, name, times.saturating_mul(size as u64), &start)
}

// CBC of a text of 1 MiB so often, both ways.
pub(crate) fn time_cbc(rt: &HostRuntime, aes: &Aes, times: u64) -> Result<()> {
    let mut text = counted(rt.alloc(), MEBIBYTE)?;
    let bytes = times.saturating_mul(MEBIBYTE as u64);
    let start = Instant::now(rt)?;
    for _ in 0..times {
        let _sealed = cbc_encrypt(rt.alloc(), aes, &[0; 16], text.as_slice())?;
    }
    report(rt, "aes-256-cbc", bytes, &start)?;
    let start = Instant::now(rt)?;
    for _ in 0..times {
        let _size = cbc_decrypt(aes, &[0; 16], text.as_mut_slice());
    }
    report(rt, "aes-256-cbc-back", bytes, &start)
}
