// Members that may be absent, read into their places.
ghost use Rattle.std.specs.Prelude.{◌≡◌, OnOk, option_map};
ghost use Rattle.serde_json.specs.View.{view};
ghost use Rattle.picky_json.specs.Tree.{member};
ghost use Rattle.picky_members.specs.Members.{IsOptional, IsSpelledEither};
ghost use Rattle.picky_members.specs.Reading.{Reads};
ghost use Rattle.picky_jwk_key.specs.Keys.{key_view};
ghost use Rattle.picky_jwk.specs.Others.{OthersOf};
ghost use Rattle.picky_jwk.specs.Views.{jwk_view};

use crate::fill::fill;
use crate::jwk::Jwk;
use picky_members::{FormError, JsonForm, either_spelling, optional};
use serde_json::Value;
use std::alloc::Global;

// Reads a member into its place.
fn read_optional<T: JsonForm>(
    alloc: Global,
    tree: &Value,
    name: &str,
    place: &mut Option<T>,
) -> Result<(), FormError>
    ensures { Reads (λ _. option_map T.stands_for place.new) (IsOptional T.Tells (member name.now (view tree.now))) result }
{
    fill(place, optional(alloc, tree, name)?);
    Ok(())
}

// Reads all but what the key holds.
#[tactic(auto, using(picky_members::specs::laws::Stops::stops))]
pub fn read_others(alloc: Global, tree: &Value, jwk: &mut Jwk) -> Result<(), FormError>
    ensures found { Reads (λ _. jwk_view jwk.new) (OthersOf (view tree.now)) result }
    ensures kept { OnOk result (key_view jwk.new.key ≡ key_view jwk.old.key) }
{
    read_optional(alloc, tree, "alg", &mut jwk.alg)?;
    read_optional(alloc, tree, "use", &mut jwk.key_use)?;
    read_optional(alloc, tree, "key_ops", &mut jwk.key_ops)?;
    read_optional(alloc, tree, "kid", &mut jwk.kid)?;
    read_optional(alloc, tree, "x5u", &mut jwk.x5u)?;
    read_optional(alloc, tree, "x5c", &mut jwk.x5c)?;
    read_optional(alloc, tree, "x5t", &mut jwk.x5t)?;
    jwk.x5t_s256 = either_spelling(alloc, tree, "x5t#S256", "x5t#s256")?;
    Ok(())
}
