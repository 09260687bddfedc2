// Names of curves.
ghost use Rattle.std.specs.Prelude.{◌≡◌};
ghost use Rattle.std.proofs.Common.{arith};
ghost use Rattle.serde_json.specs.Data.{string};
ghost use Rattle.picky_contract.specs.Refusals.{Finds};
ghost use Rattle.picky_jwk_names.specs.declared.curve.JwkEcPublicKeyCurve.{JwkEcPublicKeyCurve};
ghost use Rattle.picky_jwk_names.specs.Names.{curve_name, IsCurve};
ghost use Rattle.picky_jwk_names.specs.laws.Names.{curve_once};

use picky_members::{FormError, JsonForm};
use serde_json::Value;
use std::alloc::{AllocError, Global};

/// The curve of an EC key: its member `crv` (RFC 7518 section 6.2.1.1).
#[derive(Clone, Copy, Debug, PartialEq, Eq, Hash)]
pub enum JwkEcPublicKeyCurve {
    P256,
    P384,
    P521,
}

impl JwkEcPublicKeyCurve {
    /// The name as it is written.
    pub fn name(self) -> &'static str
        ensures { result.now ≡ curve_name self }
    {
        match self {
            JwkEcPublicKeyCurve::P256 => "P-256",
            JwkEcPublicKeyCurve::P384 => "P-384",
            JwkEcPublicKeyCurve::P521 => "P-521",
        }
    }

    /// What has this name; `None` exactly where nothing has.
    pub fn from_name(name: &str) -> Option<JwkEcPublicKeyCurve>
        ensures { Finds (λ a. a) (λ a. curve_name a ≡ name.now) result }
    {
        match name {
            "P-256" => Some(JwkEcPublicKeyCurve::P256),
            "P-384" => Some(JwkEcPublicKeyCurve::P384),
            "P-521" => Some(JwkEcPublicKeyCurve::P521),
            _ => None,
        }
    }
}

/// A JSON string that is the name.
impl JsonForm for JwkEcPublicKeyCurve {
    ghost Abstract = { JwkEcPublicKeyCurve };

    ghost stands_for = { λ a. a };

    ghost Tells = { IsCurve };

    ghost tree_of = { λ a. string (curve_name a) };

    ghost levels = { 0 };

    fn from_tree(_alloc: Global, tree: &Value) -> Result<JwkEcPublicKeyCurve, FormError> {
        let Some(name) = tree.as_str() else {
            return Err(FormError::NotOfForm);
        };
        JwkEcPublicKeyCurve::from_name(name).ok_or(FormError::NotOfForm)
    }

    fn to_tree(&self, alloc: Global) -> Result<Value, AllocError> {
        Value::try_from_str(alloc, self.name())
    }

    ghost once = { curve_once };

    ghost not_null = { λ x h. Prim.cc };

    ghost reads_back = { Prim.search };

    ghost shallow = { λ x. Prim.omega arith };
}
