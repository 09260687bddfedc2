// The words of a seed.
ghost use Rattle.std.specs.Prelude.{◌≡◌};
ghost use Rattle.rand_chacha.specs.ChaCha.{of_seed};
ghost use Rattle.picky_generate.specs.Words.{seed_bytes};

use rand_chacha::ChaCha20Rng;
use rand_core::SeedableRng;

/// The generator whose next words are those of the seed, from the first: ChaCha20 (RFC 8439, section 2.3, with a 64-bit counter) with the
/// seed's eight bytes in little-endian order and 24 bytes 00 as its key.
pub fn words_of(seed: u64) -> ChaCha20Rng
    ensures { result ≡ of_seed (seed_bytes seed) }
{
    let mut bytes = [0u8; 32];
    bytes[..8].copy_from_slice(&seed.to_le_bytes());
    ChaCha20Rng::from_seed(bytes)
}
