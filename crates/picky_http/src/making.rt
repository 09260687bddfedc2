// The text of a signature that is made.
ghost use Rattle.std.specs.Prelude.{◌≡◌, string_bytes};
ghost use Rattle.picky_contract.specs.Refusals.{Meets};
ghost use Rattle.picky_http.specs.Building.{by_of, spelled_table};
ghost use Rattle.picky_http.specs.Faults.{http_fault};

use crate::check::form_of;
use crate::error::HttpSignatureError;
use picky_key::{KeyProvider, PrivateKey, SignatureAlgorithm, SignatureError};
use std::alloc::Global;

// A private key, and the algorithm that it is used with.
#[derive(Clone, Copy, Debug)]
pub(crate) struct SigningMethod<'a> {
    pub(crate) key: &'a PrivateKey,
    pub(crate) algorithm: SignatureAlgorithm,
}

// The base64 text of what the provider signs.
#[tactic(auto, unfolding(crate::specs::Building::spelled_table))]
pub(crate) fn spelled<P: KeyProvider>(
    alloc: Global,
    provider: &P,
    method: &SigningMethod<'_>,
    message: &str,
    legacy: bool,
) -> Result<String, HttpSignatureError>
    ensures { Meets string_bytes http_fault result (spelled_table (P.sign_of provider.now) (by_of method.now) message.now legacy) }
{
    let Some(signature) = provider.sign(alloc, method.key, method.algorithm, message.as_bytes())?
    else {
        return Err(HttpSignatureError::Signature {
            source: SignatureError::NoSignature,
        });
    };
    let text = picky_base64::encode(alloc, form_of(legacy), &signature)?;
    Ok(text)
}
