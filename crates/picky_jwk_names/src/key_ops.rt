// Names of operations.
ghost use Rattle.std.specs.Prelude.{◌≡◌};
ghost use Rattle.std.proofs.Common.{arith};
ghost use Rattle.serde_json.specs.Data.{string};
ghost use Rattle.picky_contract.specs.Refusals.{Finds};
ghost use Rattle.picky_jwk_names.specs.declared.key_ops.JwkKeyOps.{JwkKeyOps};
ghost use Rattle.picky_jwk_names.specs.Names.{ops_name, IsOperation};
ghost use Rattle.picky_jwk_names.specs.laws.Names.{ops_once};

use picky_members::{FormError, JsonForm};
use serde_json::Value;
use std::alloc::{AllocError, Global};

/// An operation for which a key is used: an item of the member `key_ops` (RFC 7517 section 4.3).
#[derive(Clone, Copy, Debug, PartialEq, Eq, Hash)]
pub enum JwkKeyOps {
    Sign,
    Verify,
    Encrypt,
    Decrypt,
    WrapKey,
    UnwrapKey,
    DeriveKey,
    DeriveBits,
}

impl JwkKeyOps {
    /// The name as it is written.
    pub fn name(self) -> &'static str
        ensures { result.now ≡ ops_name self }
    {
        match self {
            JwkKeyOps::Sign => "sign",
            JwkKeyOps::Verify => "verify",
            JwkKeyOps::Encrypt => "encrypt",
            JwkKeyOps::Decrypt => "decrypt",
            JwkKeyOps::WrapKey => "wrapKey",
            JwkKeyOps::UnwrapKey => "unwrapKey",
            JwkKeyOps::DeriveKey => "deriveKey",
            JwkKeyOps::DeriveBits => "deriveBits",
        }
    }

    /// What has this name; `None` exactly where nothing has.
    pub fn from_name(name: &str) -> Option<JwkKeyOps>
        ensures { Finds (λ a. a) (λ a. ops_name a ≡ name.now) result }
    {
        match name {
            "sign" => Some(JwkKeyOps::Sign),
            "verify" => Some(JwkKeyOps::Verify),
            "encrypt" => Some(JwkKeyOps::Encrypt),
            "decrypt" => Some(JwkKeyOps::Decrypt),
            "wrapKey" => Some(JwkKeyOps::WrapKey),
            "unwrapKey" => Some(JwkKeyOps::UnwrapKey),
            "deriveKey" => Some(JwkKeyOps::DeriveKey),
            "deriveBits" => Some(JwkKeyOps::DeriveBits),
            _ => None,
        }
    }
}

/// A JSON string that is the name.
impl JsonForm for JwkKeyOps {
    ghost Abstract = { JwkKeyOps };

    ghost stands_for = { λ a. a };

    ghost Tells = { IsOperation };

    ghost tree_of = { λ a. string (ops_name a) };

    ghost levels = { 0 };

    fn from_tree(_alloc: Global, tree: &Value) -> Result<JwkKeyOps, FormError> {
        let Some(name) = tree.as_str() else {
            return Err(FormError::NotOfForm);
        };
        JwkKeyOps::from_name(name).ok_or(FormError::NotOfForm)
    }

    fn to_tree(&self, alloc: Global) -> Result<Value, AllocError> {
        Value::try_from_str(alloc, self.name())
    }

    ghost once = { ops_once };

    ghost not_null = { λ x h. Prim.cc };

    ghost reads_back = { Prim.search };

    ghost shallow = { λ x. Prim.omega arith };
}
