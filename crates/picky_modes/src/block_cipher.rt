// What the modes need of a block cipher, and the exclusive or of blocks.
ghost use Rattle.std.specs.Prelude.{◌≡◌, ◌<◌, ◌≤◌, ℕ, List, length};
ghost use Rattle.picky_contract.specs.Sums.{add_bytes};
ghost use Rattle.picky_modes.specs.Blocks.{IsBlock};

use picky_aes::Aes;

// A block cipher under a key, with blocks of `size` bytes.
pub(crate) trait BlockCipher {
    // The bytes of a block.
    ghost size: { Self → ℕ };

    // The blocks can be enciphered and deciphered.
    ghost is_ready: { Self → Type 0 };

    // What a block is enciphered to.
    ghost enciphered: { Self → List ℕ → List ℕ };

    fn encipher(&self, block: &mut [u8])
        requires ready { is_ready self.now }
        requires fits { length block.old ≡ size self.now }
        ensures { block.new ≡ enciphered self.now block.old };

    fn decipher(&self, block: &mut [u8])
        requires ready { is_ready self.now }
        requires fits { length block.old ≡ size self.now }
        ensures back { enciphered self.now block.new ≡ block.old }
        ensures alone { (x : List ℕ) → IsBlock (size self.now) x → enciphered self.now x ≡ block.old → x ≡ block.new };
}

impl BlockCipher for Aes {
    ghost use Rattle.picky_aes.specs.Cipher.{cipher};

    ghost size = { λ _. 16 };

    ghost is_ready = { λ _. Unit {0} };

    ghost enciphered = { cipher };

    #[inline(always)]
    fn encipher(&self, block: &mut [u8]) {
        let mut room = [0; 16];
        room.copy_from_slice(block);
        self.encrypt_block(&mut room);
        block.copy_from_slice(&room);
    }

    #[inline(always)]
    fn decipher(&self, block: &mut [u8]) {
        let mut room = [0; 16];
        room.copy_from_slice(block);
        self.decrypt_block(&mut room);
        block.copy_from_slice(&room);
    }
}

// Adds `mask` to the block.
#[inline(always)]
pub(crate) fn xor_into(block: &mut [u8], mask: &[u8])
    requires { length block.old ≡ length mask.now }
    ensures { block.new ≡ add_bytes block.old mask.now }
{
    for i in 0..block.len() {
        block[i] ^= mask[i];
    }
}
