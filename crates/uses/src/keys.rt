// What is signed under a public key in DER.
ghost use Rattle.std.specs.Prelude.{◌≡◌, ◌↔◌, None, IfOk, IfErr, IsTrue};
ghost use Rattle.picky_key_der.specs.Errors.{key_fault};
ghost use Rattle.picky_key_der.specs.Grammar.{IsPublicKey};
ghost use Rattle.picky_key_der.specs.declared.public.PublicKeyKind.{PublicKeyKind};

use picky_key::{KeyError, KeyProvider, ProviderFault, PublicKey, SignatureAlgorithm};
use std::alloc::Global;

/// Whether the message is signed under the key whose SubjectPublicKeyInfo the bytes are.
pub fn is_signed_under<P: KeyProvider>(
    alloc: Global,
    key_der: &[u8],
    provider: &P,
    algorithm: SignatureAlgorithm,
    message: &[u8],
    signature: &[u8],
) -> Result<bool, KeyError>
    ensures found { IfOk result (λ holds. (key : PublicKeyKind) × IsPublicKey key_der.now key × (IsTrue holds ↔ P.signs provider.now key algorithm message.now signature.now)) }
    ensures every { (key : PublicKeyKind) → IsPublicKey key_der.now key → IfErr result (λ e. key_fault e ≡ None) }
{
    let key = PublicKey::from_der(alloc, key_der)?;
    match provider.verify(alloc, &key, algorithm, message, signature) {
        Ok(holds) => Ok(holds),
        Err(ProviderFault::OutOfMemory) => Err(KeyError::OutOfMemory),
    }
}
