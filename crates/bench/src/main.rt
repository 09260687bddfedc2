//! How long the ciphers take.
//!
//! With the word `time` it prints how long each call of the ciphers takes; with the word `speed` how long those take that
//! `scripts/bench-speed` holds against openssl; with the word `iterate` it prints a key of 16,777,216 iterations of PBKDF2.
//! With no word it prints these words.
#![tactic(auto)]

mod ciphers;
mod derivations;
mod timing;

use anyhow::{Result, bail};
use picky_cipher::Aes;
use std::env;

fn time(rt: &HostRuntime) -> Result<()> {
    ciphers::print(rt)?;
    derivations::time_mac(rt)
}

fn speed(rt: &HostRuntime) -> Result<()> {
    let aes = Aes::new(&[7; 32]);
    ciphers::time_gcm(rt, "aes-256-gcm", &aes, timing::MEBIBYTE, 16)?;
    ciphers::time_cbc(rt, &aes, 16)?;
    derivations::time_keys(rt)
}

fn main(rt: HostRuntime) -> Result<()> {
    let mut words = env::args(&rt)?;
    let _program = words.next();
    match words.next() {
        None => {
            println!(rt; "bench time | speed | iterate")?;
            Ok(())
        }
        Some(word) => match word.as_str() {
            "time" => time(&rt),
            "speed" => speed(&rt),
            "iterate" => derivations::print_large(&rt),
            _ => bail!("the words are `time`, `speed` and `iterate`"),
        },
    }
}
