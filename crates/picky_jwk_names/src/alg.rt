// Names of JWS algorithms.
ghost use Rattle.std.specs.Prelude.{◌≡◌};
ghost use Rattle.std.proofs.Common.{arith};
ghost use Rattle.serde_json.specs.Data.{string};
ghost use Rattle.picky_contract.specs.Refusals.{Finds};
ghost use Rattle.picky_jwk_names.specs.declared.alg.JwsAlg.{JwsAlg};
ghost use Rattle.picky_jwk_names.specs.Names.{alg_name, IsAlg};
ghost use Rattle.picky_jwk_names.specs.laws.Names.{alg_once};

use picky_members::{FormError, JsonForm};
use serde_json::Value;
use std::alloc::{AllocError, Global};

/// The name of a JWS algorithm (RFC 7518 section 3.1; RFC 8037 section 3.1). `ED25519` is a second name of Ed25519, which no RFC
/// has.
#[derive(Clone, Copy, Debug, PartialEq, Eq, Hash)]
pub enum JwsAlg {
    HS256,
    HS384,
    HS512,
    RS256,
    RS384,
    RS512,
    ES256,
    ES384,
    ES512,
    PS256,
    PS384,
    PS512,
    EdDSA,
    ED25519,
}

impl JwsAlg {
    /// The name as it is written.
    pub fn name(self) -> &'static str
        ensures { result.now ≡ alg_name self }
    {
        match self {
            JwsAlg::HS256 => "HS256",
            JwsAlg::HS384 => "HS384",
            JwsAlg::HS512 => "HS512",
            JwsAlg::RS256 => "RS256",
            JwsAlg::RS384 => "RS384",
            JwsAlg::RS512 => "RS512",
            JwsAlg::ES256 => "ES256",
            JwsAlg::ES384 => "ES384",
            JwsAlg::ES512 => "ES512",
            JwsAlg::PS256 => "PS256",
            JwsAlg::PS384 => "PS384",
            JwsAlg::PS512 => "PS512",
            JwsAlg::EdDSA => "EdDSA",
            JwsAlg::ED25519 => "ED25519",
        }
    }

    /// What has this name; `None` exactly where nothing has.
    pub fn from_name(name: &str) -> Option<JwsAlg>
        ensures { Finds (λ a. a) (λ a. alg_name a ≡ name.now) result }
    {
        match name {
            "HS256" => Some(JwsAlg::HS256),
            "HS384" => Some(JwsAlg::HS384),
            "HS512" => Some(JwsAlg::HS512),
            "RS256" => Some(JwsAlg::RS256),
            "RS384" => Some(JwsAlg::RS384),
            "RS512" => Some(JwsAlg::RS512),
            "ES256" => Some(JwsAlg::ES256),
            "ES384" => Some(JwsAlg::ES384),
            "ES512" => Some(JwsAlg::ES512),
            "PS256" => Some(JwsAlg::PS256),
            "PS384" => Some(JwsAlg::PS384),
            "PS512" => Some(JwsAlg::PS512),
            "EdDSA" => Some(JwsAlg::EdDSA),
            "ED25519" => Some(JwsAlg::ED25519),
            _ => None,
        }
    }
}

/// A JSON string that is the name.
impl JsonForm for JwsAlg {
    ghost Abstract = { JwsAlg };

    ghost stands_for = { λ a. a };

    ghost Tells = { IsAlg };

    ghost tree_of = { λ a. string (alg_name a) };

    ghost levels = { 0 };

    fn from_tree(_alloc: Global, tree: &Value) -> Result<JwsAlg, FormError> {
        let Some(name) = tree.as_str() else {
            return Err(FormError::NotOfForm);
        };
        JwsAlg::from_name(name).ok_or(FormError::NotOfForm)
    }

    fn to_tree(&self, alloc: Global) -> Result<Value, AllocError> {
        Value::try_from_str(alloc, self.name())
    }

    ghost once = { alg_once };

    ghost not_null = { λ x h. Prim.cc };

    ghost reads_back = { Prim.search };

    ghost shallow = { λ x. Prim.omega arith };
}
