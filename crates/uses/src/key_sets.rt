// The key of a name in a set.
ghost use Rattle.std.specs.Prelude.{◌≡◌, Option, IfOk, option_map};
ghost use Rattle.std.specs.List.{find};
ghost use Rattle.picky_contract.specs.Refusals.{OkOrMemory};
ghost use Rattle.picky_key_der.specs.declared.public.PublicKeyKind.{PublicKeyKind};
ghost use Rattle.picky_jwk_key.specs.Refusals.{fault};
ghost use Rattle.picky_jwk.specs.Views.{jwk_view};
ghost use Rattle.uses.specs.KeySets.{has_name as is_named, NamesKey};

use picky_jwk::{Jwk, JwkError, JwkSet};
use picky_key::PublicKey;
use std::alloc::Global;

// Whether this is the key's name.
fn has_name(key: &Jwk, name: &str) -> bool
    ensures { result ≡ is_named name.now (jwk_view key.now) }
{
    match &key.kid {
        Some(kid) => kid.as_str() == name,
        None => false,
    }
}

// The first key of this name.
fn first_named<'a>(keys: &'a [Jwk], name: &str) -> Option<&'a Jwk>
    ensures { option_map (λ k. k.now) result ≡ find (λ k. is_named name.now (jwk_view k)) keys.now }
{
    keys.iter().find(|key| has_name(key, name))
}

/// The public key of the first key of a set that has this name; none where no key has it.
pub fn public_key_named(
    alloc: Global,
    json: &str,
    name: &str,
) -> Result<Option<PublicKey>, JwkError>
    ensures found { IfOk result (NamesKey json.now name.now) }
    ensures every { (key : Option PublicKeyKind) → NamesKey json.now name.now key → OkOrMemory (λ k. k) fault result key }
{
    let set = JwkSet::from_json(alloc, json)?;
    let Some(jwk) = first_named(&set.keys, name) else {
        return Ok(None);
    };
    let key = jwk.to_public_key(alloc)?;
    Ok(Some(key))
}
