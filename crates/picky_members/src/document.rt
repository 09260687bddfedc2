// Whole texts.
ghost use Rattle.std.specs.Prelude.{◌≤◌, IfOk, string_bytes};
ghost use Rattle.picky_members.specs.Members.{TextOf};
ghost use Rattle.picky_members.specs.Reading.{Reads};

use crate::form::{FormError, JsonForm};
use picky_json::parse;
use std::alloc::{AllocError, Global};

/// The value that the tree of a text tells.
///
/// `NotOfForm` exactly where the text has no tree, or that tells no value.
#[tactic(auto, using(crate::specs::laws::Texts::text_none))]
pub fn from_text<T: JsonForm>(alloc: Global, text: &str) -> Result<T, FormError>
    ensures { Reads T.stands_for (TextOf T.Tells text.now) result }
{
    let Some(tree) = parse(alloc, text.as_bytes())? else {
        return Err(FormError::NotOfForm);
    };
    let value = T::from_tree(alloc, &tree);
    drop(tree);
    value
}

/// A compact text that tells the value. Refused for want of memory alone.
pub fn to_text<T: JsonForm>(alloc: Global, value: &T) -> Result<String, AllocError>
    requires { T.levels ≤ 127 }
    ensures { IfOk result (λ s. TextOf T.Tells (string_bytes s) (T.stands_for value.now)) }
{
    let tree = value.to_tree(alloc)?;
    match tree.to_string(alloc) {
        Ok(text) => {
            drop(tree);
            Ok(text)
        }
        Err(error) => {
            drop(tree);
            Err(error)
        }
    }
}

/// A text in lines that tells the value. Refused for want of memory alone.
pub fn to_pretty_text<T: JsonForm>(alloc: Global, value: &T) -> Result<String, AllocError>
    requires { T.levels ≤ 127 }
    ensures { IfOk result (λ s. TextOf T.Tells (string_bytes s) (T.stands_for value.now)) }
{
    let tree = value.to_tree(alloc)?;
    match tree.to_string_pretty(alloc) {
        Ok(text) => {
            drop(tree);
            Ok(text)
        }
        Err(error) => {
            drop(tree);
            Err(error)
        }
    }
}
