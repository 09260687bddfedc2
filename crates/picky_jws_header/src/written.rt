// Trees as which headers are written.
ghost use Rattle.std.specs.Prelude.{◌≡◌, IfOk, OnOk};
ghost use Rattle.serde_json.specs.View.{view, members_view};
ghost use Rattle.picky_members.specs.Writing.{put_table};
ghost use Rattle.picky_jws_header.specs.Views.{header_view};
ghost use Rattle.picky_jws_header.specs.Trees.{kind_rows, signer_rows, certificates_rows, with_fields, header_tree};

use crate::header::JwsHeader;
use picky_members::{members_of, put, put_optional};
use serde_json::{Map, Value};
use std::alloc::{AllocError, Global};

// The tree of a header, whatever its additional members.
#[tactic(auto, unfolding(crate::specs::Trees::header_tree))]
pub fn tree_of(alloc: Global, header: &JwsHeader) -> Result<Value, AllocError>
    ensures { IfOk result (λ t. view t ≡ header_tree (header_view header.now)) }
{
    let mut members = members_of(alloc, &header.additional)?;
    put_fields(alloc, &mut members, header)?;
    Ok(Value::Object(members))
}

fn put_fields(
    alloc: Global,
    members: &mut Map<String, Value>,
    header: &JwsHeader,
) -> Result<(), AllocError>
    ensures { OnOk result (members_view members.new.entries ≡ with_fields (header_view header.now) (members_view members.old.entries)) }
{
    put_kind(alloc, members, header)?;
    put_signer(alloc, members, header)?;
    put_certificates(alloc, members, header)
}

fn put_kind(
    alloc: Global,
    members: &mut Map<String, Value>,
    header: &JwsHeader,
) -> Result<(), AllocError>
    ensures { OnOk result (members_view members.new.entries ≡ put_table (kind_rows (header_view header.now)) (members_view members.old.entries)) }
{
    put(alloc, members, "alg", &header.alg)?;
    put_optional(alloc, members, "typ", &header.typ)?;
    put_optional(alloc, members, "cty", &header.cty)
}

fn put_signer(
    alloc: Global,
    members: &mut Map<String, Value>,
    header: &JwsHeader,
) -> Result<(), AllocError>
    ensures { OnOk result (members_view members.new.entries ≡ put_table (signer_rows (header_view header.now)) (members_view members.old.entries)) }
{
    put_optional(alloc, members, "jku", &header.jku)?;
    put_optional(alloc, members, "jwk", &header.jwk)?;
    put_optional(alloc, members, "kid", &header.kid)
}

fn put_certificates(
    alloc: Global,
    members: &mut Map<String, Value>,
    header: &JwsHeader,
) -> Result<(), AllocError>
    ensures { OnOk result (members_view members.new.entries ≡ put_table (certificates_rows (header_view header.now)) (members_view members.old.entries)) }
{
    put_optional(alloc, members, "x5u", &header.x5u)?;
    put_optional(alloc, members, "x5c", &header.x5c)?;
    put_optional(alloc, members, "x5t", &header.x5t)?;
    put_optional(alloc, members, "x5t#S256", &header.x5t_s256)
}
