// What a key holds, by the members of its type.
ghost use Rattle.std.specs.Prelude.{◌≡◌, OnOk};
ghost use Rattle.serde_json.specs.View.{view, members_view};
ghost use Rattle.picky_members.specs.Reading.{Reads};
ghost use Rattle.picky_members.specs.Writing.{put_table};
ghost use Rattle.picky_jwk_key.specs.Keys.{rsa, ec, ed, rsa_view, ec_view, ed_view, key_view};
ghost use Rattle.picky_jwk.specs.Jwk.{RsaKeyOf, EcKeyOf, EdKeyOf, KeyOf};
ghost use Rattle.picky_jwk.specs.Trees.{key_table};

use picky_jwk_key::{JwkKeyType, JwkPublicEcKey, JwkPublicEdKey, JwkPublicRsaKey};
use picky_members::{FormError, put, put_text, required};
use serde_json::{Map, Value};
use std::alloc::{AllocError, Global};

#[tactic(auto, using(picky_members::specs::laws::Stops::stops))]
fn rsa_key(alloc: Global, tree: &Value) -> Result<JwkPublicRsaKey, FormError>
    ensures { Reads rsa_view (RsaKeyOf (view tree.now)) result }
{
    let n = required(alloc, tree, "n")?;
    let e = required(alloc, tree, "e")?;
    Ok(JwkPublicRsaKey { n, e })
}

#[tactic(auto, using(picky_members::specs::laws::Stops::stops))]
fn ec_key(alloc: Global, tree: &Value) -> Result<JwkPublicEcKey, FormError>
    ensures { Reads ec_view (EcKeyOf (view tree.now)) result }
{
    let crv = required(alloc, tree, "crv")?;
    let x = required(alloc, tree, "x")?;
    let y = required(alloc, tree, "y")?;
    Ok(JwkPublicEcKey { crv, x, y })
}

#[tactic(auto, using(picky_members::specs::laws::Stops::stops))]
fn ed_key(alloc: Global, tree: &Value) -> Result<JwkPublicEdKey, FormError>
    ensures { Reads ed_view (EdKeyOf (view tree.now)) result }
{
    let crv = required(alloc, tree, "crv")?;
    let x = required(alloc, tree, "x")?;
    Ok(JwkPublicEdKey { crv, x })
}

// What the tree holds of its type.
#[tactic(auto, using(picky_members::specs::laws::Stops::stops, crate::specs::laws::Once::rsa_part, crate::specs::laws::Once::ec_part, crate::specs::laws::Once::ed_part))]
pub fn key_of(alloc: Global, tree: &Value) -> Result<JwkKeyType, FormError>
    ensures { Reads key_view (KeyOf (view tree.now)) result }
{
    let Some(kty) = tree.get("kty") else {
        return Err(FormError::NotOfForm);
    };
    let Some(kty) = kty.as_str() else {
        return Err(FormError::NotOfForm);
    };
    match kty {
        "RSA" => Ok(JwkKeyType::Rsa(rsa_key(alloc, tree)?)),
        "EC" => Ok(JwkKeyType::Ec(ec_key(alloc, tree)?)),
        "OKP" => Ok(JwkKeyType::Ed(ed_key(alloc, tree)?)),
        "oct" => Ok(JwkKeyType::Oct),
        _ => Err(FormError::NotOfForm),
    }
}

fn put_rsa_key(
    alloc: Global,
    members: &mut Map<String, Value>,
    key: &JwkPublicRsaKey,
) -> Result<(), AllocError>
    ensures { OnOk result (members_view members.new.entries ≡ put_table (key_table (rsa (rsa_view key.now))) (members_view members.old.entries)) }
{
    put_text(alloc, members, "kty", "RSA")?;
    put(alloc, members, "n", &key.n)?;
    put(alloc, members, "e", &key.e)
}

fn put_ec_key(
    alloc: Global,
    members: &mut Map<String, Value>,
    key: &JwkPublicEcKey,
) -> Result<(), AllocError>
    ensures { OnOk result (members_view members.new.entries ≡ put_table (key_table (ec (ec_view key.now))) (members_view members.old.entries)) }
{
    put_text(alloc, members, "kty", "EC")?;
    put(alloc, members, "crv", &key.crv)?;
    put(alloc, members, "x", &key.x)?;
    put(alloc, members, "y", &key.y)
}

fn put_ed_key(
    alloc: Global,
    members: &mut Map<String, Value>,
    key: &JwkPublicEdKey,
) -> Result<(), AllocError>
    ensures { OnOk result (members_view members.new.entries ≡ put_table (key_table (ed (ed_view key.now))) (members_view members.old.entries)) }
{
    put_text(alloc, members, "kty", "OKP")?;
    put(alloc, members, "crv", &key.crv)?;
    put(alloc, members, "x", &key.x)
}

// Puts the members of the key's type in.
pub fn put_key(
    alloc: Global,
    members: &mut Map<String, Value>,
    key: &JwkKeyType,
) -> Result<(), AllocError>
    ensures { OnOk result (members_view members.new.entries ≡ put_table (key_table (key_view key.now)) (members_view members.old.entries)) }
{
    match key {
        JwkKeyType::Rsa(key) => put_rsa_key(alloc, members, key),
        JwkKeyType::Ec(key) => put_ec_key(alloc, members, key),
        JwkKeyType::Ed(key) => put_ed_key(alloc, members, key),
        JwkKeyType::Oct => put_text(alloc, members, "kty", "oct"),
    }
}
