// Two sides who agree on a secret.
ghost use Rattle.std.specs.Prelude.{◌≡◌, Some, IsTrue, IfOk};

use picky_contract::equal_bytes;
use picky_key::{Ephemeral, KeyProvider, PrivateKey, ProviderFault};
use picky_records::Recorded;
use std::alloc::Global;

// Whether the private key agrees on the secret that came with the ephemeral key.
fn is_agreed<P: KeyProvider>(
    provider: &P,
    alloc: Global,
    key: &PrivateKey,
    sent: &Ephemeral,
) -> Result<bool, ProviderFault>
    requires { P.agree provider.now key.now sent.now.epk ≡ Some sent.now.secret.items }
    ensures { IfOk result (λ same. IsTrue same) }
{
    match provider.agree(alloc, key, &sent.epk)? {
        Some(secret) => Ok(equal_bytes(&secret, &sent.secret)),
        None => Ok(false),
    }
}

/// Makes an ephemeral key for the key's public key, and agrees with it on the receiver's side: where there is an ephemeral
/// key, both sides have one secret.
pub fn ephemeral_is_agreed<P: KeyProvider>(
    provider: &P,
    alloc: Global,
    key: &PrivateKey,
    seed: &[u8; 32],
) -> Result<bool, ProviderFault>
    ensures { IfOk result (λ same. IsTrue same) }
{
    let Some(public) = provider.public_key_of(alloc, key)? else {
        return Ok(true);
    };
    let Some(sent) = provider.ephemeral(alloc, &public, seed)? else {
        return Ok(true);
    };
    is_agreed(provider, alloc, key, &sent)
}

/// The same by the agreements of a records document.
pub fn recorded_is_agreed(
    records: &Recorded,
    alloc: Global,
    key: &PrivateKey,
    seed: &[u8; 32],
) -> Result<bool, ProviderFault>
    ensures { IfOk result (λ same. IsTrue same) }
{
    ephemeral_is_agreed(records, alloc, key, seed)
}
