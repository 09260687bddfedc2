// CBC over the eight-byte block ciphers of PBES1, which the caller brings.
ghost use Rattle.std.specs.Prelude.{◌≡◌, ◌+◌, ◌-◌, ◌%◌, Bool, false, IsTrue, List, ℕ, length, IfOk};
ghost use Rattle.picky_modes.specs.Blocks.{IsBlock};
ghost use Rattle.picky_modes.specs.Cbc.{IsCbc, IsDecryption};
ghost use Rattle.picky_modes.specs.Pbes1.{key_size};
ghost use Rattle.picky_modes.specs.declared.pbes1.Pbes1Kind.{Pbes1Kind};

use crate::block_cipher::BlockCipher;
use crate::cbc::{open_text, sealed_text};
use std::alloc::{AllocError, Global};

/// A block cipher of PBES1 in PKCS #12 (RFC 7292, appendix C).
#[derive(Clone, Copy, Debug, PartialEq, Eq)]
pub enum Pbes1Kind {
    /// RC2 under a key of 40 bits: 5 bytes.
    Rc2,
    /// Triple DES under three keys: 24 bytes.
    Tdes,
}

/// The eight-byte block ciphers that a caller brings for PBES1.
pub trait Pbes1Blocks {
    // Whether the value serves the cipher.
    ghost serving: { Self → Pbes1Kind → Bool };

    // What a cipher makes of a block under a key.
    ghost encrypted: { Self → Pbes1Kind → List ℕ → List ℕ → List ℕ };

    /// Whether the value serves the cipher.
    fn serves(&self, cipher: Pbes1Kind) -> bool
        ensures { result ≡ serving self.now cipher };

    /// Encrypts the block of eight bytes in place. The key has 5 bytes for RC2 and 24 for Triple
    /// DES.
    fn encrypt_block(&self, cipher: Pbes1Kind, key: &[u8], block: &mut [u8; 8])
        requires served { IsTrue (serving self.now cipher) }
        requires fits { length key.now ≡ key_size cipher }
        ensures { block.new ≡ encrypted self.now cipher key.now block.old };

    /// Decrypts the block of eight bytes in place, under a key of the same size as for encrypting:
    /// what it leaves is the one block that encrypts to the given one.
    fn decrypt_block(&self, cipher: Pbes1Kind, key: &[u8], block: &mut [u8; 8])
        requires served { IsTrue (serving self.now cipher) }
        requires fits { length key.now ≡ key_size cipher }
        ensures back { encrypted self.now cipher key.now block.new ≡ block.old }
        ensures alone { (x : List ℕ) → IsBlock 8 x → encrypted self.now cipher key.now x ≡ block.old → x ≡ block.new };
}

/// Serves no cipher, so that no caller may ask for a block.
#[derive(Clone, Copy, Debug)]
pub struct NoPbes1;

impl Pbes1Blocks for NoPbes1 {
    ghost serving = { λ _ _. false };

    ghost encrypted = { λ _ _ _ x. x };

    fn serves(&self, _cipher: Pbes1Kind) -> bool {
        false
    }

    fn encrypt_block(&self, _cipher: Pbes1Kind, _key: &[u8], block: &mut [u8; 8])
        ensures { block.new ≡ block.old }
    {
        let _block = block;
    }

    fn decrypt_block(&self, _cipher: Pbes1Kind, _key: &[u8], block: &mut [u8; 8])
        ensures back { block.new ≡ block.old }
        ensures alone { (x : List ℕ) → IsBlock 8 x → x ≡ block.old → x ≡ block.new }
    {
        let _block = block;
    }
}

// One of the ciphers under a key.
#[derive(Drop)]
struct Keyed<'a, B> {
    blocks: &'a B,
    cipher: Pbes1Kind,
    key: &'a [u8],
}

impl<B: Pbes1Blocks> BlockCipher for Keyed<'_, B> {
    ghost size = { λ _. 8 };

    ghost is_ready = { λ s. IsTrue (B.serving s.blocks.now s.cipher) × (length s.key.now ≡ key_size s.cipher) };

    ghost enciphered = { λ s x. B.encrypted s.blocks.now s.cipher s.key.now x };

    fn encipher(&self, block: &mut [u8]) {
        let mut room = [0; 8];
        room.copy_from_slice(block);
        self.blocks.encrypt_block(self.cipher, self.key, &mut room);
        block.copy_from_slice(&room);
    }

    fn decipher(&self, block: &mut [u8]) {
        let mut room = [0; 8];
        room.copy_from_slice(block);
        self.blocks.decrypt_block(self.cipher, self.key, &mut room);
        block.copy_from_slice(&room);
    }
}

/// The CBC encryption of the text with the padding of PKCS #7, under the cipher that `blocks`
/// serves and a key of 5 bytes for RC2 and 24 for Triple DES.
pub fn pbes1_cbc_encrypt<B: Pbes1Blocks>(
    alloc: Global,
    blocks: &B,
    cipher: Pbes1Kind,
    key: &[u8],
    iv: &[u8; 8],
    text: &[u8],
) -> Result<Vec<u8>, AllocError>
    requires served { IsTrue (B.serving blocks.now cipher) }
    requires fits { length key.now ≡ key_size cipher }
    ensures sealed { IfOk result (λ v. IsCbc (B.encrypted blocks.now cipher key.now) 8 iv.now text.now v.items) }
    ensures size { IfOk result (λ v. length v.items ≡ length text.now + (8 - length text.now % 8)) }
{
    let keyed = Keyed {
        blocks,
        cipher,
        key,
    };
    let mut chain = *iv;
    sealed_text(alloc, &keyed, &mut chain, text)
}

/// Decrypts the buffer in place by CBC: the number of bytes of the text, which then stands in its
/// front.
///
/// None where the length isn't a positive multiple of eight, which leaves the buffer as it was, or
/// the padding is wrong, which leaves the buffer decrypted.
pub fn pbes1_cbc_decrypt<B: Pbes1Blocks>(
    blocks: &B,
    cipher: Pbes1Kind,
    key: &[u8],
    iv: &[u8; 8],
    buffer: &mut [u8],
) -> Option<usize>
    requires served { IsTrue (B.serving blocks.now cipher) }
    requires fits { length key.now ≡ key_size cipher }
    ensures { IsDecryption (B.encrypted blocks.now cipher key.now) 8 iv.now buffer.old buffer.new result }
{
    let keyed = Keyed {
        blocks,
        cipher,
        key,
    };
    let mut chain = *iv;
    open_text(&keyed, &mut chain, buffer)
}
