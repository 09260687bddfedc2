// Numbers in two digits each, and Z.
ghost use Rattle.std.specs.Prelude.{◌≡◌, ◌≢◌, ◌<◌, ◌+◌, ◌++◌, ◌∷◌, List, ℕ, length, All, IfOk, IfSome, IfNone};
ghost use Rattle.std.specs.Int.{IsInRange};
ghost use Rattle.picky_asn1_date.specs.DateText.{two_digits, digits_and_z};

use std::alloc::{AllocError, Global};

/// The text of these numbers below 100.
pub fn write_pairs(alloc: Global, numbers: &[u8]) -> Result<Vec<u8>, AllocError>
    requires { All (λ n. n < 100) numbers.now }
    ensures { IfOk result (λ text. text.items ≡ digits_and_z numbers.now) }
{
    let mut text = Vec::new(alloc);
    for number in numbers {
        text.extend_from_slice(&[b'0' + number / 10, b'0' + number % 10])?;
    }
    text.push(b'Z')?;
    Ok(text)
}

/// The numbers whose text this is; `None` exactly where it isn't the text of N numbers below 100.
pub fn read_pairs<const N: usize>(bytes: &[u8]) -> Option<[u8; N]>
    ensures found { IfSome result (λ numbers. (length numbers ≡ N) × All (λ n. n < 100) numbers × (bytes.now ≡ digits_and_z numbers)) }
    ensures none { IfNone result ((numbers : List ℕ) → length numbers ≡ N → All (λ n. n < 100) numbers → bytes.now ≢ digits_and_z numbers) }
{
    let mut numbers = [0; N];
    let mut left = bytes;
    for number in numbers.iter_mut() {
        let Some((value, rest)) = first_pair(left) else {
            return None;
        };
        *number = value;
        left = rest;
    }
    if left == b"Z".as_slice() {
        Some(numbers)
    } else {
        None
    }
}

/// The number of the first two digits, and the bytes after them.
fn first_pair(bytes: &[u8]) -> Option<(u8, &[u8])>
    ensures found { IfSome result (λ x. (x.0 < 100) × (bytes.now ≡ two_digits x.0 ++ x.1.now)) }
    ensures none { IfNone result ((n : ℕ) (rest : List ℕ) → n < 100 → bytes.now ≢ two_digits n ++ rest) }
{
    let [tens, ones, rest @ ..] = bytes else {
        return None;
    };
    let tens = digit(*tens)?;
    let ones = digit(*ones)?;
    Some((10 * tens + ones, rest))
}

/// The number of a decimal digit.
fn digit(byte: u8) -> Option<u8>
    ensures found { IfSome result (λ n. (n < 10) × (byte ≡ 48 + n)) }
    ensures none { IfNone result (¬ (IsInRange 48 57 byte)) }
{
    if byte.is_ascii_digit() {
        Some(byte - b'0')
    } else {
        None
    }
}
