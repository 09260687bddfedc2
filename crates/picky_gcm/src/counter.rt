// Counter mode (SP 800-38D, 6.5), four counter blocks at a time, and the rest one by one.
ghost use Rattle.std.specs.Prelude.{◌≡◌, ◌≤◌, ◌<◌, ◌+◌, ◌-◌, ◌*◌, ◌^◌, ℕ, List, length};
ghost use Rattle.picky_aes.specs.Cipher.{cipher};
ghost use Rattle.picky_gcm.specs.Counter.{counted, counted_to, counter_block};

use picky_aes::Aes;

// The cipher of the counter block `k` places after J0.
pub(crate) fn stream_block(aes: &Aes, nonce: &[u8; 12], k: u32) -> [u8; 16]
    requires { k + 1 < 2 ^ 32 }
    ensures { result ≡ cipher aes.now (counter_block nonce.now k) }
{
    let [c0, c1, c2, c3] = (k + 1).to_be_bytes();
    let mut block = [
        nonce[0], nonce[1], nonce[2], nonce[3], nonce[4], nonce[5], nonce[6], nonce[7], nonce[8],
        nonce[9], nonce[10], nonce[11], c0, c1, c2, c3,
    ];
    aes.encrypt_block(&mut block);
    block
}

// Adds the block of the key stream that stands `k` blocks after its first to `count` bytes, from byte `16 * k` on.
#[inline(always)]
fn add_stream(stream: &[u8; 16], k: usize, count: usize, buffer: &mut [u8])
    requires count { count ≤ 16 }
    requires room { 16 * k + count ≤ length buffer.old }
    ensures { (key : List ℕ) → (nonce : List ℕ) → (text : List ℕ) → stream.now ≡ cipher key (counter_block nonce (k + 1)) → buffer.old ≡ counted_to key nonce text (16 * k) → buffer.new ≡ counted_to key nonce text (16 * k + count) }
{
    for i in 0..count {
        buffer[16 * k + i] ^= stream[i];
    }
}

// Adds the key stream to four blocks, of which the first stands `k` blocks after the text's first.
fn count_four(aes: &Aes, nonce: &[u8; 12], k: usize, buffer: &mut [u8])
    requires size { length buffer.old ≤ 2 ^ 36 - 32 }
    requires room { 16 * k + 64 ≤ length buffer.old }
    ensures { (text : List ℕ) → buffer.old ≡ counted_to aes.now nonce.now text (16 * k) → buffer.new ≡ counted_to aes.now nonce.now text (16 * k + 64) }
{
    let first = stream_block(aes, nonce, k as u32 + 1);
    let second = stream_block(aes, nonce, k as u32 + 2);
    let third = stream_block(aes, nonce, k as u32 + 3);
    let fourth = stream_block(aes, nonce, k as u32 + 4);
    add_stream(&first, k, 16, buffer);
    add_stream(&second, k + 1, 16, buffer);
    add_stream(&third, k + 2, 16, buffer);
    add_stream(&fourth, k + 3, 16, buffer);
}

// Adds the key stream to a text in place.
pub(crate) fn count(aes: &Aes, nonce: &[u8; 12], buffer: &mut [u8])
    requires { length buffer.old ≤ 2 ^ 36 - 32 }
    ensures { buffer.new ≡ counted aes.now nonce.now buffer.old }
{
    let size = buffer.len();
    let fours = size / 64;
    for j in 0..fours {
        count_four(aes, nonce, 4 * j, buffer);
    }
    for k in 4 * fours..size.div_ceil(16) {
        let stream = stream_block(aes, nonce, k as u32 + 1);
        add_stream(&stream, k, (size - 16 * k).min(16), buffer);
    }
}
