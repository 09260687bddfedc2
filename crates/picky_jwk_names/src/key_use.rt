// Names of uses.
ghost use Rattle.std.specs.Prelude.{◌≡◌};
ghost use Rattle.std.proofs.Common.{arith};
ghost use Rattle.serde_json.specs.Data.{string};
ghost use Rattle.picky_contract.specs.Refusals.{Finds};
ghost use Rattle.picky_jwk_names.specs.declared.key_use.JwkPubKeyUse.{JwkPubKeyUse};
ghost use Rattle.picky_jwk_names.specs.Names.{use_name, IsUse};
ghost use Rattle.picky_jwk_names.specs.laws.Names.{use_once};

use picky_members::{FormError, JsonForm};
use serde_json::Value;
use std::alloc::{AllocError, Global};

/// What a public key is used for: the member `use` (RFC 7517 section 4.2).
#[derive(Clone, Copy, Debug, PartialEq, Eq, Hash)]
pub enum JwkPubKeyUse {
    Signature,
    Encryption,
}

impl JwkPubKeyUse {
    /// The name as it is written.
    pub fn name(self) -> &'static str
        ensures { result.now ≡ use_name self }
    {
        match self {
            JwkPubKeyUse::Signature => "sig",
            JwkPubKeyUse::Encryption => "enc",
        }
    }

    /// What has this name; `None` exactly where nothing has.
    pub fn from_name(name: &str) -> Option<JwkPubKeyUse>
        ensures { Finds (λ a. a) (λ a. use_name a ≡ name.now) result }
    {
        match name {
            "sig" => Some(JwkPubKeyUse::Signature),
            "enc" => Some(JwkPubKeyUse::Encryption),
            _ => None,
        }
    }
}

/// A JSON string that is the name.
impl JsonForm for JwkPubKeyUse {
    ghost Abstract = { JwkPubKeyUse };

    ghost stands_for = { λ a. a };

    ghost Tells = { IsUse };

    ghost tree_of = { λ a. string (use_name a) };

    ghost levels = { 0 };

    fn from_tree(_alloc: Global, tree: &Value) -> Result<JwkPubKeyUse, FormError> {
        let Some(name) = tree.as_str() else {
            return Err(FormError::NotOfForm);
        };
        JwkPubKeyUse::from_name(name).ok_or(FormError::NotOfForm)
    }

    fn to_tree(&self, alloc: Global) -> Result<Value, AllocError> {
        Value::try_from_str(alloc, self.name())
    }

    ghost once = { use_once };

    ghost not_null = { λ x h. Prim.cc };

    ghost reads_back = { Prim.search };

    ghost shallow = { λ x. Prim.omega arith };
}
