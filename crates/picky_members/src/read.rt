// Members that are read.
ghost use Rattle.std.specs.Prelude.{option_map};
ghost use Rattle.serde_json.specs.View.{view};
ghost use Rattle.picky_json.specs.Tree.{member};
ghost use Rattle.picky_members.specs.Members.{IsMember, IsOptional, IsSpelledEither};
ghost use Rattle.picky_members.specs.Reading.{Reads};

use crate::form::{FormError, JsonForm};
use serde_json::Value;
use std::alloc::Global;

/// The value of a member that has to be there.
///
/// `NotOfForm` exactly where it isn't there, or tells no value.
#[tactic(auto, unfolding(crate::specs::Members::IsMember))]
pub fn required<T: JsonForm>(alloc: Global, tree: &Value, name: &str) -> Result<T, FormError>
    ensures { Reads T.stands_for (IsMember T.Tells (member name.now (view tree.now))) result }
{
    match tree.get(name) {
        Some(found) => T::from_tree(alloc, found),
        None => Err(FormError::NotOfForm),
    }
}

/// The value of a member that may be absent; null is as good as absent.
///
/// `NotOfForm` exactly where it is there, isn't null and tells no value.
pub fn optional<T: JsonForm>(
    alloc: Global,
    tree: &Value,
    name: &str,
) -> Result<Option<T>, FormError>
    ensures { Reads (option_map T.stands_for) (IsOptional T.Tells (member name.now (view tree.now))) result }
{
    optional_at(alloc, tree.get(name))
}

/// The value of a member with two spellings that may be absent.
///
/// `NotOfForm` exactly where both spellings are there, be it as null, or the one that is there isn't null and tells no value.
pub fn either_spelling<T: JsonForm>(
    alloc: Global,
    tree: &Value,
    name: &str,
    other: &str,
) -> Result<Option<T>, FormError>
    ensures { Reads (option_map T.stands_for) (IsSpelledEither T.Tells (member name.now (view tree.now)) (member other.now (view tree.now))) result }
{
    match (tree.get(name), tree.get(other)) {
        (Some(_), Some(_)) => Err(FormError::NotOfForm),
        (found, None) => optional_at(alloc, found),
        (None, found) => optional_at(alloc, found),
    }
}

// The value of what stands there, if anything does.
#[tactic(auto, unfolding(crate::specs::Members::IsMember))]
fn optional_at<T: JsonForm>(alloc: Global, found: Option<&Value>) -> Result<Option<T>, FormError>
    ensures { Reads (option_map T.stands_for) (IsOptional T.Tells (option_map (λ v. view v.now) found.entry)) result }
{
    match found {
        None => Ok(None),
        Some(Value::Null) => Ok(None),
        Some(found) => Ok(Some(T::from_tree(alloc, found)?)),
    }
}
