// Trees of bytes.
ghost use Rattle.std.specs.Prelude.{◌≡◌, IfOk};
ghost use Rattle.serde_json.specs.Written.{has_float as has_float_of, items_have_float, members_have_float};
ghost use Rattle.serde_json.specs.View.{view, items_view, members_view};
ghost use Rattle.picky_contract.specs.Refusals.{Finds};
ghost use Rattle.picky_json.specs.Tree.{Tree};

use serde_json::{Map, Value};
use std::alloc::{AllocError, Global};

/// The tree of the bytes; `Ok(None)` exactly where they have none, as where they are no UTF-8, no
/// JSON text, or nested more than 127 deep.
///
/// The one error is want of memory.
pub fn parse(alloc: Global, bytes: &[u8]) -> Result<Option<Value>, AllocError>
    ensures { IfOk result (Finds view (Tree bytes.now)) }
{
    match Value::from_slice(alloc, bytes) {
        Ok(tree) => Ok(Some(tree)),
        Err(error) => {
            if error.is_memory() {
                Err(AllocError)
            } else {
                Ok(None)
            }
        }
    }
}

/// Whether a number in the tree is held as a float.
#[cycle(floats)]
pub fn has_float(tree: &Value) -> bool
    ensures { result ≡ has_float_of (view tree.now) }
{
    match tree {
        Value::Null => false,
        Value::Bool(_) => false,
        Value::Number(number) => number.is_f64(),
        Value::String(_) => false,
        Value::Array(items) => any_item_has_float(items),
        Value::Object(members) => any_member_has_float(members),
    }
}

#[cycle(floats)]
fn any_item_has_float(items: &Vec<Value>) -> bool
    ensures { result ≡ items_have_float (items_view items.now.items) }
{
    for item in items {
        if has_float(item) {
            return true;
        }
    }
    false
}

#[cycle(floats)]
fn any_member_has_float(members: &Map<String, Value>) -> bool
    ensures { result ≡ members_have_float (members_view members.now.entries) }
{
    for (_name, member) in members.iter() {
        if has_float(member) {
            return true;
        }
    }
    false
}
