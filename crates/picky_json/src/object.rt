// Objects, member by member.
ghost use Rattle.std.specs.Prelude.{◌≢◌, ◌≡◌, MatchOption};
ghost use Rattle.serde_json.specs.Data.{Data, Members, member};
ghost use Rattle.serde_json.specs.View.{view, members_view};

use serde_json::Value;
use std::collections::btree_map::Iter;

/// The value of the next member, where it has this name. Members stand in the order of their names'
/// bytes, so an object with exactly some members is read by asking for them in that order, and then
/// for no further one.
pub fn next_member<'a>(members: &mut Iter<'a, String, Value>, name: &str) -> Option<&'a Value>
    ensures { MatchOption result
        ((d : Data) → (ms : Members) → members_view members.old ≢ member name.now d ms)
        (λ v. members_view members.old ≡ member name.now (view v.now) (members_view members.new)) }
{
    let (found, value) = members.next()?;
    if found.as_str() == name {
        Some(value)
    } else {
        None
    }
}
