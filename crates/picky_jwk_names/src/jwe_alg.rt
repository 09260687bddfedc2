// Names of JWE key management algorithms.
ghost use Rattle.std.specs.Prelude.{◌≡◌};
ghost use Rattle.std.proofs.Common.{arith};
ghost use Rattle.serde_json.specs.Data.{string};
ghost use Rattle.picky_contract.specs.Refusals.{Finds};
ghost use Rattle.picky_jwk_names.specs.declared.jwe_alg.JweAlg.{JweAlg};
ghost use Rattle.picky_jwk_names.specs.Names.{jwe_alg_name, IsJweAlg};
ghost use Rattle.picky_jwk_names.specs.laws.Names.{jwe_alg_once};

use picky_members::{FormError, JsonForm};
use serde_json::Value;
use std::alloc::{AllocError, Global};

/// The name of a JWE key management algorithm (RFC 7518 section 4.1).
#[derive(Clone, Copy, Debug, PartialEq, Eq, Hash)]
pub enum JweAlg {
    RsaPkcs1v15,
    RsaOaep,
    RsaOaep256,
    AesKeyWrap128,
    AesKeyWrap192,
    AesKeyWrap256,
    Direct,
    EcdhEs,
    EcdhEsAesKeyWrap128,
    EcdhEsAesKeyWrap192,
    EcdhEsAesKeyWrap256,
}

impl JweAlg {
    /// The name as it is written.
    pub fn name(self) -> &'static str
        ensures { result.now ≡ jwe_alg_name self }
    {
        match self {
            JweAlg::RsaPkcs1v15 => "RSA1_5",
            JweAlg::RsaOaep => "RSA-OAEP",
            JweAlg::RsaOaep256 => "RSA-OAEP-256",
            JweAlg::AesKeyWrap128 => "A128KW",
            JweAlg::AesKeyWrap192 => "A192KW",
            JweAlg::AesKeyWrap256 => "A256KW",
            JweAlg::Direct => "dir",
            JweAlg::EcdhEs => "ECDH-ES",
            JweAlg::EcdhEsAesKeyWrap128 => "ECDH-ES+A128KW",
            JweAlg::EcdhEsAesKeyWrap192 => "ECDH-ES+A192KW",
            JweAlg::EcdhEsAesKeyWrap256 => "ECDH-ES+A256KW",
        }
    }

    /// What has this name; `None` exactly where nothing has.
    pub fn from_name(name: &str) -> Option<JweAlg>
        ensures { Finds (λ a. a) (λ a. jwe_alg_name a ≡ name.now) result }
    {
        match name {
            "RSA1_5" => Some(JweAlg::RsaPkcs1v15),
            "RSA-OAEP" => Some(JweAlg::RsaOaep),
            "RSA-OAEP-256" => Some(JweAlg::RsaOaep256),
            "A128KW" => Some(JweAlg::AesKeyWrap128),
            "A192KW" => Some(JweAlg::AesKeyWrap192),
            "A256KW" => Some(JweAlg::AesKeyWrap256),
            "dir" => Some(JweAlg::Direct),
            "ECDH-ES" => Some(JweAlg::EcdhEs),
            "ECDH-ES+A128KW" => Some(JweAlg::EcdhEsAesKeyWrap128),
            "ECDH-ES+A192KW" => Some(JweAlg::EcdhEsAesKeyWrap192),
            "ECDH-ES+A256KW" => Some(JweAlg::EcdhEsAesKeyWrap256),
            _ => None,
        }
    }
}

/// A JSON string that is the name.
impl JsonForm for JweAlg {
    ghost Abstract = { JweAlg };

    ghost stands_for = { λ a. a };

    ghost Tells = { IsJweAlg };

    ghost tree_of = { λ a. string (jwe_alg_name a) };

    ghost levels = { 0 };

    fn from_tree(_alloc: Global, tree: &Value) -> Result<JweAlg, FormError> {
        let Some(name) = tree.as_str() else {
            return Err(FormError::NotOfForm);
        };
        JweAlg::from_name(name).ok_or(FormError::NotOfForm)
    }

    fn to_tree(&self, alloc: Global) -> Result<Value, AllocError> {
        Value::try_from_str(alloc, self.name())
    }

    ghost once = { jwe_alg_once };

    ghost not_null = { λ x h. Prim.cc };

    ghost reads_back = { Prim.search };

    ghost shallow = { λ x. Prim.omega arith };
}
