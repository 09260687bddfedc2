// Texts.
ghost use Rattle.std.specs.Prelude.{ℕ, List, string_bytes};
ghost use Rattle.std.proofs.Common.{arith};
ghost use Rattle.serde_json.specs.Data.{string};
ghost use Rattle.picky_members.specs.Members.{IsText};

use crate::form::{FormError, JsonForm};
use serde_json::Value;
use std::alloc::{AllocError, Global};

/// A JSON string.
impl JsonForm for String {
    ghost Abstract = { List ℕ };

    ghost stands_for = { string_bytes };

    ghost Tells = { IsText };

    ghost tree_of = { string };

    ghost levels = { 0 };

    fn from_tree(alloc: Global, tree: &Value) -> Result<String, FormError> {
        match tree.as_str() {
            Some(text) => Ok(String::from_str(alloc, text)?),
            None => Err(FormError::NotOfForm),
        }
    }

    fn to_tree(&self, alloc: Global) -> Result<Value, AllocError> {
        Value::try_from_str(alloc, self)
    }

    ghost once = { λ d x y h k. Prim.cc };

    ghost not_null = { λ x h. Prim.cc };

    ghost reads_back = { Prim.search };

    ghost shallow = { λ x. Prim.omega arith };
}
