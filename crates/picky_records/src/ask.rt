// What a list of lines answers: the first line that fits.
ghost use Rattle.std.specs.Prelude.{◌≡◌, ◌↔◌, IsTrue, option_copied};
ghost use Rattle.picky_records.specs.Lines.{first, some_conflicts, signature_in, pair_in, unwrapped_in, secret_in, wrapped_in, ephemeral_in, pair_of_bors};
ghost use Rattle.picky_records.specs.Meanings.{signs_by};

use crate::Line;
use picky_contract::Bytes;
use picky_key::{PrivateKey, PublicKey, SignatureAlgorithm, WrapScheme};

// Whether some line is the `sig` line of that key, algorithm, message and signature.
pub(crate) fn is_signed(
    lines: &[Line],
    key: &PublicKey,
    algorithm: SignatureAlgorithm,
    message: &[u8],
    signature: &[u8],
) -> bool
    ensures { IsTrue result ↔ signs_by lines.now key.now algorithm message.now signature.now }
{
    let mut rest = lines;
    while let [line, after @ ..] = rest {
        if line.signs(key, algorithm, message, signature) {
            return true;
        }
        rest = after;
    }
    false
}

// The signature of the first `sig` line with that key, algorithm and message.
pub(crate) fn first_signature<'a>(
    lines: &'a [Line],
    key: &PublicKey,
    algorithm: SignatureAlgorithm,
    message: &[u8],
) -> Option<&'a Bytes>
    ensures { option_copied result ≡ first (signature_in key.now algorithm message.now) lines.now }
{
    let mut rest = lines;
    while let [line, after @ ..] = rest {
        if let Some(signature) = line.signature(key, algorithm, message) {
            return Some(signature);
        }
        rest = after;
    }
    None
}

// The public key of the first `pair` line with that private key.
pub(crate) fn first_pair<'a>(lines: &'a [Line], key: &PrivateKey) -> Option<&'a PublicKey>
    ensures { option_copied result ≡ first (pair_in key.now) lines.now }
{
    let mut rest = lines;
    while let [line, after @ ..] = rest {
        if let Some(public) = line.pair(key) {
            return Some(public);
        }
        rest = after;
    }
    None
}

// The content key of the first `unwrap` line with that scheme, public part and wrapped key.
pub(crate) fn first_unwrapped<'a>(
    lines: &'a [Line],
    scheme: WrapScheme,
    part: &PublicKey,
    bytes: &[u8],
) -> Option<&'a Bytes>
    ensures { option_copied result ≡ first (unwrapped_in scheme part.now bytes.now) lines.now }
{
    let mut rest = lines;
    while let [line, after @ ..] = rest {
        if let Some(content_key) = line.unwrapped(scheme, part, bytes) {
            return Some(content_key);
        }
        rest = after;
    }
    None
}

// The secret of the first `agree` line with those keys, in either order.
pub(crate) fn first_secret<'a>(
    lines: &'a [Line],
    one: &PublicKey,
    other: &PublicKey,
) -> Option<&'a Bytes>
    ensures { option_copied result ≡ first (secret_in one.now other.now) lines.now }
{
    let mut rest = lines;
    while let [line, after @ ..] = rest {
        if let Some(secret) = line.secret(one, other) {
            return Some(secret);
        }
        rest = after;
    }
    None
}

// The wrapped key of the first `unwrap` line with that scheme, public part and content key.
pub(crate) fn first_wrapped<'a>(
    lines: &'a [Line],
    scheme: WrapScheme,
    part: &PublicKey,
    bytes: &[u8],
) -> Option<&'a Bytes>
    ensures { option_copied result ≡ first (wrapped_in scheme part.now bytes.now) lines.now }
{
    let mut rest = lines;
    while let [line, after @ ..] = rest {
        if let Some(wrapped) = line.wrapped(scheme, part, bytes) {
            return Some(wrapped);
        }
        rest = after;
    }
    None
}

// The other key and the secret of the first `agree` line with the receiver.
pub(crate) fn first_ephemeral<'a>(
    lines: &'a [Line],
    receiver: &PublicKey,
) -> Option<(&'a PublicKey, &'a Bytes)>
    ensures { pair_of_bors result ≡ first (ephemeral_in receiver.now) lines.now }
{
    let mut rest = lines;
    while let [line, after @ ..] = rest {
        if let Some(found) = line.ephemeral(receiver) {
            return Some(found);
        }
        rest = after;
    }
    None
}

// Whether one of these lines conflicts with a later one.
pub(crate) fn some_conflicts(before: &[Line], line: &Line) -> bool
    ensures { result ≡ some_conflicts before.now line.now }
{
    let mut rest = before;
    while let [earlier, after @ ..] = rest {
        if line.conflicts_with(earlier) {
            return true;
        }
        rest = after;
    }
    false
}
