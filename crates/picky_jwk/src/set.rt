// Sets of keys.
ghost use Rattle.std.specs.Prelude.{◌≡◌, None, List, IfOk, IfErr, string_bytes};
ghost use Rattle.picky_contract.specs.Refusals.{Meets, OkOrMemory};
ghost use Rattle.picky_members.specs.Members.{TextOf};
ghost use Rattle.picky_jwk_key.specs.Refusals.{fault};
ghost use Rattle.picky_jwk.specs.Jwk.{Jwk as JwkValue, JwkSetOf};
ghost use Rattle.picky_jwk.specs.Views.{set_view};
ghost use Rattle.picky_jwk.specs.Refusals.{json_table};

use crate::jwk::Jwk;
use picky_jwk_key::JwkError;
use picky_members::{FormError, JsonForm, from_text, put, required, to_pretty_text, to_text};
use serde_json::{Map, Value};
use std::alloc::{AllocError, Global};

/// A set of keys (RFC 7517 section 5), in the order of its text.
#[derive(Debug, Drop, PartialEq, Eq, Hash)]
pub struct JwkSet {
    /// The keys.
    pub keys: Vec<Jwk>,
}

/// An object with a list `keys`, each of whose items tells a key; other members are ignored.
impl JsonForm for JwkSet {
    ghost use Rattle.std.specs.Prelude.{List};
    ghost use Rattle.picky_jwk.specs.Jwk.{Jwk as JwkValue, JwkSetOf};
    ghost use Rattle.picky_jwk.specs.Views.{set_view};
    ghost use Rattle.picky_jwk.specs.Trees.{set_tree};
    ghost use Rattle.picky_jwk.specs.laws.Once.{set_once, set_not_null};
    ghost use Rattle.picky_jwk.specs.laws.Written.{set_written};
    ghost use Rattle.picky_jwk.specs.laws.Shallow.{set_shallow};

    ghost Abstract = { List JwkValue };

    ghost stands_for = { set_view };

    ghost Tells = { JwkSetOf };

    ghost tree_of = { set_tree };

    ghost levels = { 4 };

    #[tactic(auto, using(picky_members::specs::laws::Stops::stops))]
    fn from_tree(alloc: Global, tree: &Value) -> Result<JwkSet, FormError> {
        let keys = required(alloc, tree, "keys")?;
        Ok(JwkSet { keys })
    }

    #[tactic(auto, unfolding(crate::specs::Trees::set_tree))]
    fn to_tree(&self, alloc: Global) -> Result<Value, AllocError> {
        let mut members = Map::new(alloc);
        put(alloc, &mut members, "keys", &self.keys)?;
        Ok(Value::Object(members))
    }

    ghost once = { set_once };

    ghost not_null = { set_not_null };

    ghost reads_back = { set_written };

    ghost shallow = { set_shallow };
}

impl JwkSet {
    /// The set that the text tells. `Json` exactly where it tells none: one key with an unknown `kty`, `crv`, `alg`, `use` or
    /// `key_ops` refuses all.
    pub fn from_json(alloc: Global, json: &str) -> Result<JwkSet, JwkError>
        ensures found { IfOk result (λ s. TextOf JwkSetOf json.now (set_view s)) }
        ensures every { (ks : List JwkValue) → TextOf JwkSetOf json.now ks → OkOrMemory set_view fault result ks }
        ensures first { Meets set_view fault result (json_table JwkSetOf json.now) }
    {
        match from_text(alloc, json) {
            Ok(set) => Ok(set),
            Err(FormError::NotOfForm) => Err(JwkError::Json),
            Err(FormError::OutOfMemory) => Err(JwkError::OutOfMemory),
        }
    }

    /// A compact text that tells the set. Refused for want of memory alone.
    pub fn to_json(&self, alloc: Global) -> Result<String, JwkError>
        ensures reads_back { IfOk result (λ s. TextOf JwkSetOf (string_bytes s) (set_view self.now)) }
        ensures only_memory { IfErr result (λ e. fault e ≡ None) }
    {
        Ok(to_text(alloc, self)?)
    }

    /// A text in lines that tells the set. Refused for want of memory alone.
    pub fn to_json_pretty(&self, alloc: Global) -> Result<String, JwkError>
        ensures reads_back { IfOk result (λ s. TextOf JwkSetOf (string_bytes s) (set_view self.now)) }
        ensures only_memory { IfErr result (λ e. fault e ≡ None) }
    {
        Ok(to_pretty_text(alloc, self)?)
    }

    /// A copy, in memory of its own.
    #[tactic(auto, using(picky_members::specs::laws::Lists::map_more, picky_members::specs::laws::Lists::map_all))]
    pub fn clone(&self, alloc: Global) -> Result<JwkSet, AllocError>
        ensures { IfOk result (λ copy. set_view copy ≡ set_view self.now) }
    {
        let mut copies = Vec::new(alloc);
        for key in &self.keys {
            copies.push(key.clone(alloc)?)?;
        }
        Ok(JwkSet { keys: copies })
    }
}
