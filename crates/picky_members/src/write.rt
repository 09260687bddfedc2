// Members that are written.
ghost use Rattle.std.specs.Prelude.{◌≡◌, OnOk, IfOk, option_map, string_bytes};
ghost use Rattle.serde_json.specs.Data.{no_members, string, put as put_member};
ghost use Rattle.serde_json.specs.View.{view, members_view};
ghost use Rattle.picky_members.specs.Names.{pairs_view};
ghost use Rattle.picky_members.specs.Writing.{put_some, put_all};

use crate::form::JsonForm;
use indexmap::IndexMap;
use serde_json::{Map, Value};
use std::alloc::{AllocError, Global};

// Puts a tree in under the name.
#[tactic(auto, using(crate::specs::laws::Pairs::put_entry))]
fn put_tree(members: &mut Map<String, Value>, name: String, tree: Value) -> Result<(), AllocError>
    ensures { OnOk result (members_view members.new.entries ≡ put_member (string_bytes name) (view tree) (members_view members.old.entries)) }
{
    drop(members.insert(name, tree)?);
    Ok(())
}

/// Puts a member in, in the place of what has its name. Refused for want of memory alone.
pub fn put<T: JsonForm>(
    alloc: Global,
    members: &mut Map<String, Value>,
    name: &str,
    value: &T,
) -> Result<(), AllocError>
    ensures { OnOk result (members_view members.new.entries ≡ put_member name.now (T.tree_of (T.stands_for value.now)) (members_view members.old.entries)) }
{
    let name = String::from_str(alloc, name)?;
    put_tree(members, name, value.to_tree(alloc)?)
}

/// Puts a text in, likewise.
pub fn put_text(
    alloc: Global,
    members: &mut Map<String, Value>,
    name: &str,
    text: &str,
) -> Result<(), AllocError>
    ensures { OnOk result (members_view members.new.entries ≡ put_member name.now (string text.now) (members_view members.old.entries)) }
{
    let name = String::from_str(alloc, name)?;
    put_tree(members, name, Value::try_from_str(alloc, text)?)
}

/// Puts a member in where there is one, likewise.
pub fn put_optional<T: JsonForm>(
    alloc: Global,
    members: &mut Map<String, Value>,
    name: &str,
    value: &Option<T>,
) -> Result<(), AllocError>
    ensures { OnOk result (members_view members.new.entries ≡ put_some name.now (option_map T.tree_of (option_map T.stands_for value.now)) (members_view members.old.entries)) }
{
    if let Some(value) = value {
        put(alloc, members, name, value)?;
    }
    Ok(())
}

// Puts a copy of a tree in under a copy of the name.
fn put_copy(members: &mut Map<String, Value>, name: &String, tree: &Value) -> Result<(), AllocError>
    ensures { OnOk result (members_view members.new.entries ≡ put_member (string_bytes name.now) (view tree.now) (members_view members.old.entries)) }
{
    let name = name.clone()?;
    put_tree(members, name, tree.clone()?)
}

/// The members of an object that holds these: in the order of their names' bytes. Refused for want of memory alone.
pub fn members_of(
    alloc: Global,
    additional: &IndexMap<String, Value>,
) -> Result<Map<String, Value>, AllocError>
    ensures { IfOk result (λ m. members_view m.entries ≡ put_all (pairs_view additional.now.entries) no_members) }
{
    let mut members = Map::new(alloc);
    for (name, value) in additional.iter() {
        put_copy(&mut members, name, value)?;
    }
    Ok(members)
}
