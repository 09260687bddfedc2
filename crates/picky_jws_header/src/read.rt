// Members that may be absent, read into their places.
ghost use Rattle.std.specs.Prelude.{◌≡◌, OnOk, option_map};
ghost use Rattle.serde_json.specs.View.{view};
ghost use Rattle.picky_json.specs.Tree.{member};
ghost use Rattle.picky_members.specs.Members.{IsOptional};
ghost use Rattle.picky_members.specs.Names.{pairs_view};
ghost use Rattle.picky_members.specs.Reading.{Reads};
ghost use Rattle.picky_jws_header.specs.Others.{OthersOf};
ghost use Rattle.picky_jws_header.specs.Views.{header_view};

use crate::fill::fill;
use crate::header::JwsHeader;
use picky_members::{FormError, JsonForm, either_spelling, optional};
use serde_json::Value;
use std::alloc::Global;

// Reads a member into its place.
fn read_optional<T: JsonForm>(
    alloc: Global,
    tree: &Value,
    name: &str,
    place: &mut Option<T>,
) -> Result<(), FormError>
    ensures { Reads (λ _. option_map T.stands_for place.new) (IsOptional T.Tells (member name.now (view tree.now))) result }
{
    fill(place, optional(alloc, tree, name)?);
    Ok(())
}

// Reads all but the algorithm and additional members.
#[tactic(auto, using(picky_members::specs::laws::Stops::stops))]
pub fn read_others(alloc: Global, tree: &Value, header: &mut JwsHeader) -> Result<(), FormError>
    ensures found { Reads (λ _. header_view header.new) (OthersOf (view tree.now)) result }
    ensures alg { OnOk result (header.new.alg ≡ header.old.alg) }
    ensures additional { OnOk result (pairs_view header.new.additional.entries ≡ pairs_view header.old.additional.entries) }
{
    read_optional(alloc, tree, "jku", &mut header.jku)?;
    read_optional(alloc, tree, "jwk", &mut header.jwk)?;
    read_optional(alloc, tree, "typ", &mut header.typ)?;
    read_optional(alloc, tree, "cty", &mut header.cty)?;
    read_optional(alloc, tree, "kid", &mut header.kid)?;
    read_optional(alloc, tree, "x5u", &mut header.x5u)?;
    read_optional(alloc, tree, "x5c", &mut header.x5c)?;
    read_optional(alloc, tree, "x5t", &mut header.x5t)?;
    header.x5t_s256 = either_spelling(alloc, tree, "x5t#S256", "x5t#s256")?;
    Ok(())
}
