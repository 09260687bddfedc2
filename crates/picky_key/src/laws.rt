//! What follows from the laws of providers, for each of them.
ghost use Rattle.std.specs.Prelude.{◌≡◌, Some, IsTrue, IfOk};

use crate::{KeyProvider, PrivateKey, ProviderFault, PublicKey, SignatureAlgorithm, WrapScheme};
use std::alloc::Global;

// Verifies a signature that signing gave.
fn is_verified<P: KeyProvider>(
    provider: &P,
    alloc: Global,
    key: &PrivateKey,
    algorithm: SignatureAlgorithm,
    message: &[u8],
    signature: &[u8],
) -> Result<bool, ProviderFault>
    requires { P.sign_of provider.now key.now algorithm message.now ≡ Some signature.now }
    ensures { IfOk result (λ holds. IsTrue holds) }
{
    let Some(public) = provider.public_key_of(alloc, key)? else {
        return Ok(false);
    };
    provider.verify(alloc, &public, algorithm, message, signature)
}

/// Signs, and verifies what signing gave under the key's public key: where there is a signature, it holds.
pub fn signed_is_verified<P: KeyProvider>(
    provider: &P,
    alloc: Global,
    key: &PrivateKey,
    algorithm: SignatureAlgorithm,
    message: &[u8],
) -> Result<bool, ProviderFault>
    ensures { IfOk result (λ holds. IsTrue holds) }
{
    match provider.sign(alloc, key, algorithm, message)? {
        Some(signature) => is_verified(provider, alloc, key, algorithm, message, &signature),
        None => Ok(true),
    }
}

// Unwraps what wrapping gave.
fn is_unwrapped<P: KeyProvider>(
    provider: &P,
    alloc: Global,
    key: &PrivateKey,
    scheme: WrapScheme,
    wrapped: &[u8],
    content_key: &[u8],
) -> Result<bool, ProviderFault>
    requires { P.unwrap provider.now key.now scheme wrapped.now ≡ Some content_key.now }
    ensures { IfOk result (λ same. IsTrue same) }
{
    match provider.unwrap_key(alloc, key, scheme, wrapped)? {
        Some(found) => Ok(found.as_slice() == content_key),
        None => Ok(false),
    }
}

// Wraps under the public key of a key, and unwraps what wrapping gave.
fn wraps_again<P: KeyProvider>(
    provider: &P,
    alloc: Global,
    key: &PrivateKey,
    public: &PublicKey,
    scheme: WrapScheme,
    seed: &[u8; 32],
    content_key: &[u8],
) -> Result<bool, ProviderFault>
    requires { P.public_of provider.now key.now ≡ Some public.now }
    ensures { IfOk result (λ same. IsTrue same) }
{
    match provider.wrap_key(alloc, public, scheme, seed, content_key)? {
        Some(wrapped) => is_unwrapped(provider, alloc, key, scheme, &wrapped, content_key),
        None => Ok(true),
    }
}

/// Wraps under the key's public key, and unwraps what wrapping gave: where there is a wrapped key, it is the content key's.
pub fn wrapped_is_unwrapped<P: KeyProvider>(
    provider: &P,
    alloc: Global,
    key: &PrivateKey,
    scheme: WrapScheme,
    seed: &[u8; 32],
    content_key: &[u8],
) -> Result<bool, ProviderFault>
    ensures { IfOk result (λ same. IsTrue same) }
{
    match provider.public_key_of(alloc, key)? {
        Some(public) => wraps_again(provider, alloc, key, &public, scheme, seed, content_key),
        None => Ok(true),
    }
}
