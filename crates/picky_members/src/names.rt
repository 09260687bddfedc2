// Members by their names.
ghost use Rattle.std.specs.Prelude.{◌≡◌, IfOk, OnOk, string_bytes};
ghost use Rattle.serde_json.specs.View.{view, members_view};
ghost use Rattle.picky_members.specs.Names.{is_among as is_one_of, others, holds_any as holds_one, pairs_view, members_without as without, names_view};
ghost use Rattle.picky_members.specs.Added.{Added};

use indexmap::IndexMap;
use serde_json::{Map, Value};
use std::alloc::{AllocError, Global};

// Whether this is one of the names.
fn is_among(names: &[&str], name: &str) -> bool
    ensures { result ≡ is_one_of (names_view names.now) name.now }
{
    for other in names {
        if name == *other {
            return true;
        }
    }
    false
}

/// Whether a member has one of the names.
pub fn holds_any(names: &[&str], additional: &IndexMap<String, Value>) -> bool
    ensures { result ≡ holds_one (names_view names.now) (pairs_view additional.now.entries) }
{
    for (name, _value) in additional.iter() {
        if is_among(names, name.as_str()) {
            return true;
        }
    }
    false
}

/// The members of a tree that have none of the names, in the tree's order; none where it is no object.
///
/// Refused for want of memory alone.
pub fn additional_of(
    alloc: Global,
    names: &[&str],
    tree: &Value,
) -> Result<IndexMap<String, Value>, AllocError>
    ensures { IfOk result (λ m. pairs_view m.entries ≡ others (names_view names.now) (view tree.now)) }
{
    match tree.as_object() {
        Some(members) => members_without(alloc, names, members),
        None => Ok(IndexMap::new(alloc)),
    }
}

// Adds a copy of a member.
fn add_copy(
    additional: &mut IndexMap<String, Value>,
    name: &String,
    member: &Value,
) -> Result<(), AllocError>
    ensures { OnOk result (Added additional.old.entries additional.new.entries (string_bytes name.now) (view member.now)) }
{
    let name = name.clone()?;
    drop(additional.insert(name, member.clone()?)?);
    Ok(())
}

fn members_without(
    alloc: Global,
    names: &[&str],
    members: &Map<String, Value>,
) -> Result<IndexMap<String, Value>, AllocError>
    ensures { IfOk result (λ m. pairs_view m.entries ≡ without (names_view names.now) (members_view members.now.entries)) }
{
    let mut additional = IndexMap::new(alloc);
    for (name, member) in members.iter() {
        if !is_among(names, name.as_str()) {
            add_copy(&mut additional, name, member)?;
        }
    }
    Ok(additional)
}
