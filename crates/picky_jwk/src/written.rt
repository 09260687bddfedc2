// Members that are written.
ghost use Rattle.std.specs.Prelude.{◌≡◌, OnOk};
ghost use Rattle.serde_json.specs.View.{members_view};
ghost use Rattle.picky_members.specs.Writing.{put_table};
ghost use Rattle.picky_jwk_key.specs.Keys.{key_view};
ghost use Rattle.picky_jwk.specs.Views.{jwk_view};
ghost use Rattle.picky_jwk.specs.Trees.{key_table, jwk_rows};

use crate::jwk::Jwk;
use crate::key::put_key;
use picky_members::put_optional;
use serde_json::{Map, Value};
use std::alloc::{AllocError, Global};

// Puts all members of a key in.
pub fn put_members(
    alloc: Global,
    members: &mut Map<String, Value>,
    jwk: &Jwk,
) -> Result<(), AllocError>
    ensures { OnOk result (members_view members.new.entries ≡ put_table (jwk_rows (jwk_view jwk.now)) (put_table (key_table (key_view jwk.now.key)) (members_view members.old.entries))) }
{
    put_key(alloc, members, &jwk.key)?;
    put_optional(alloc, members, "alg", &jwk.alg)?;
    put_optional(alloc, members, "use", &jwk.key_use)?;
    put_optional(alloc, members, "key_ops", &jwk.key_ops)?;
    put_optional(alloc, members, "kid", &jwk.kid)?;
    put_optional(alloc, members, "x5u", &jwk.x5u)?;
    put_optional(alloc, members, "x5c", &jwk.x5c)?;
    put_optional(alloc, members, "x5t", &jwk.x5t)?;
    put_optional(alloc, members, "x5t#S256", &jwk.x5t_s256)
}
