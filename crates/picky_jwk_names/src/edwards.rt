// Names of Edwards curve algorithms.
ghost use Rattle.std.specs.Prelude.{◌≡◌};
ghost use Rattle.std.proofs.Common.{arith};
ghost use Rattle.serde_json.specs.Data.{string};
ghost use Rattle.picky_contract.specs.Refusals.{Finds};
ghost use Rattle.picky_jwk_names.specs.declared.edwards.JwkEdPublicKeyAlgorithm.{JwkEdPublicKeyAlgorithm};
ghost use Rattle.picky_jwk_names.specs.Names.{ed_name, IsEdCurve};
ghost use Rattle.picky_jwk_names.specs.laws.Names.{ed_once};

use picky_members::{FormError, JsonForm};
use serde_json::Value;
use std::alloc::{AllocError, Global};

/// The algorithm of an Edwards curve key: its member `crv` (RFC 8037 section 2).
#[derive(Clone, Copy, Debug, PartialEq, Eq, Hash)]
pub enum JwkEdPublicKeyAlgorithm {
    Ed25519,
    Ed448,
    X25519,
    X448,
}

impl JwkEdPublicKeyAlgorithm {
    /// The name as it is written.
    pub fn name(self) -> &'static str
        ensures { result.now ≡ ed_name self }
    {
        match self {
            JwkEdPublicKeyAlgorithm::Ed25519 => "Ed25519",
            JwkEdPublicKeyAlgorithm::Ed448 => "Ed448",
            JwkEdPublicKeyAlgorithm::X25519 => "X25519",
            JwkEdPublicKeyAlgorithm::X448 => "X448",
        }
    }

    /// What has this name; `None` exactly where nothing has.
    pub fn from_name(name: &str) -> Option<JwkEdPublicKeyAlgorithm>
        ensures { Finds (λ a. a) (λ a. ed_name a ≡ name.now) result }
    {
        match name {
            "Ed25519" => Some(JwkEdPublicKeyAlgorithm::Ed25519),
            "Ed448" => Some(JwkEdPublicKeyAlgorithm::Ed448),
            "X25519" => Some(JwkEdPublicKeyAlgorithm::X25519),
            "X448" => Some(JwkEdPublicKeyAlgorithm::X448),
            _ => None,
        }
    }
}

/// A JSON string that is the name.
impl JsonForm for JwkEdPublicKeyAlgorithm {
    ghost Abstract = { JwkEdPublicKeyAlgorithm };

    ghost stands_for = { λ a. a };

    ghost Tells = { IsEdCurve };

    ghost tree_of = { λ a. string (ed_name a) };

    ghost levels = { 0 };

    fn from_tree(_alloc: Global, tree: &Value) -> Result<JwkEdPublicKeyAlgorithm, FormError> {
        let Some(name) = tree.as_str() else {
            return Err(FormError::NotOfForm);
        };
        JwkEdPublicKeyAlgorithm::from_name(name).ok_or(FormError::NotOfForm)
    }

    fn to_tree(&self, alloc: Global) -> Result<Value, AllocError> {
        Value::try_from_str(alloc, self.name())
    }

    ghost once = { ed_once };

    ghost not_null = { λ x h. Prim.cc };

    ghost reads_back = { Prim.search };

    ghost shallow = { λ x. Prim.omega arith };
}
