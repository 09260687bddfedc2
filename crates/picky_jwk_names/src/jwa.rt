// Names of algorithms of all kinds.
ghost use Rattle.std.specs.Prelude.{◌≡◌};
ghost use Rattle.std.proofs.Common.{arith};
ghost use Rattle.serde_json.specs.Data.{string};
ghost use Rattle.picky_contract.specs.Refusals.{Finds};
ghost use Rattle.picky_jwk_names.specs.declared.jwa.Jwa.{Jwa};
ghost use Rattle.picky_jwk_names.specs.Names.{jwa_name, IsJwa};
ghost use Rattle.picky_jwk_names.specs.laws.Names.{jwa_once};

use crate::alg::JwsAlg;
use crate::jwe_alg::JweAlg;
use crate::jwe_enc::JweEnc;
use picky_members::{FormError, JsonForm};
use serde_json::Value;
use std::alloc::{AllocError, Global};

/// What the member `alg` of a key names (RFC 7517 section 4.4; RFC 7518 section 7.1).
#[derive(Clone, Copy, Debug, PartialEq, Eq, Hash)]
pub enum Jwa {
    /// A signature algorithm.
    Sig(JwsAlg),
    /// A content encryption algorithm.
    Enc(JweEnc),
    /// A key management algorithm.
    CEKAlg(JweAlg),
}

impl Jwa {
    /// The name as it is written.
    pub fn name(self) -> &'static str
        ensures { result.now ≡ jwa_name self }
    {
        match self {
            Jwa::Sig(alg) => alg.name(),
            Jwa::Enc(enc) => enc.name(),
            Jwa::CEKAlg(alg) => alg.name(),
        }
    }

    /// What has this name; `None` exactly where nothing has.
    pub fn from_name(name: &str) -> Option<Jwa>
        ensures { Finds (λ a. a) (λ a. jwa_name a ≡ name.now) result }
    {
        if let Some(alg) = JwsAlg::from_name(name) {
            return Some(Jwa::Sig(alg));
        }
        if let Some(enc) = JweEnc::from_name(name) {
            return Some(Jwa::Enc(enc));
        }
        match JweAlg::from_name(name) {
            Some(alg) => Some(Jwa::CEKAlg(alg)),
            None => None,
        }
    }
}

/// A JSON string that is the name.
impl JsonForm for Jwa {
    ghost Abstract = { Jwa };

    ghost stands_for = { λ a. a };

    ghost Tells = { IsJwa };

    ghost tree_of = { λ a. string (jwa_name a) };

    ghost levels = { 0 };

    fn from_tree(_alloc: Global, tree: &Value) -> Result<Jwa, FormError> {
        let Some(name) = tree.as_str() else {
            return Err(FormError::NotOfForm);
        };
        Jwa::from_name(name).ok_or(FormError::NotOfForm)
    }

    fn to_tree(&self, alloc: Global) -> Result<Value, AllocError> {
        Value::try_from_str(alloc, self.name())
    }

    ghost once = { jwa_once };

    ghost not_null = { λ x h. Prim.cc };

    ghost reads_back = { Prim.search };

    ghost shallow = { λ x. Prim.omega arith };
}
