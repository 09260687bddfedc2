// How long HMAC and the derivations take, and one key of very many iterations.
use crate::timing::{MEBIBYTE, counted, report};
use anyhow::Result;
use picky_cipher::{Pbkdf1Usage, Pkcs12HashAlgorithm, hmac, pbkdf1, pbkdf2};
use std::time::Instant;

const HASH: Pkcs12HashAlgorithm = Pkcs12HashAlgorithm::Sha256;

// Prints PBKDF2-HMAC-SHA1 of `password`, `salt`, 20 bytes, at 16,777,216 iterations: RFC 6070 has
// eefe3d61cd4da4e4e9945b3d6ba2158c2634e984.
pub(crate) fn print_large(rt: &HostRuntime) -> Result<()> {
    let sha1 = Pkcs12HashAlgorithm::Sha1;
    let key = pbkdf2(rt.alloc(), sha1, b"password", b"salt", 1 << 24, 20)?;
    println!(rt; "{}", hex::encode(rt.alloc(), key.as_slice())?)?;
    Ok(())
}

// HMAC-SHA256 over 1 MiB, 32 times.
pub(crate) fn time_mac(rt: &HostRuntime) -> Result<()> {
    let text = counted(rt.alloc(), MEBIBYTE)?;
    let start = Instant::now(rt)?;
    for _ in 0..32 {
        let _mac = hmac(rt.alloc(), HASH, &[7; 32], text.as_slice())?;
    }
    report(rt, "hmac-sha256", 32 * MEBIBYTE as u64, &start)
}

// Keys of 32 bytes by SHA-256, with 600,000 iterations.
pub(crate) fn time_keys(rt: &HostRuntime) -> Result<()> {
    let (alloc, password, salt) = (rt.alloc(), b"password", b"saltsalt");
    let start = Instant::now(rt)?;
    let _key = pbkdf2(alloc, HASH, password, salt, 600_000, 32)?;
    report(rt, "pbkdf2-hmac-sha256", 600_000, &start)?;
    let start = Instant::now(rt)?;
    let _key = pbkdf1(alloc, HASH, password, salt, 600_000, Pbkdf1Usage::Key, 32)?;
    report(rt, "pkcs12-sha256", 600_000, &start)
}
