// Copies of the members that may be absent.
ghost use Rattle.std.specs.Prelude.{◌≡◌, IfOk, OnOk, map, option_map, string_bytes};
ghost use Rattle.picky_jwk_key.specs.Keys.{key_view};
ghost use Rattle.picky_jwk.specs.Views.{jwk_view};

use crate::fill::fill;
use crate::jwk::Jwk;
use picky_jwk_names::JwkKeyOps;
use std::alloc::{AllocError, Global};

// Copies a text into its place.
fn copy_text(
    alloc: Global,
    text: &Option<String>,
    place: &mut Option<String>,
) -> Result<(), AllocError>
    ensures { OnOk result (option_map string_bytes place.new ≡ option_map string_bytes text.now) }
{
    match text {
        Some(text) => {
            fill(place, Some(String::from_str(alloc, text)?));
            Ok(())
        }
        None => {
            fill(place, None);
            Ok(())
        }
    }
}

// A copy of a list of texts.
#[tactic(auto, using(picky_members::specs::laws::Lists::map_more, picky_members::specs::laws::Lists::map_all))]
fn copy_list(alloc: Global, texts: &Vec<String>) -> Result<Vec<String>, AllocError>
    ensures { IfOk result (λ copy. map string_bytes copy.items ≡ map string_bytes texts.now.items) }
{
    let mut copies = Vec::new(alloc);
    for text in texts {
        copies.push(String::from_str(alloc, text)?)?;
    }
    Ok(copies)
}

// Copies a list of texts into its place.
fn copy_texts(
    alloc: Global,
    texts: &Option<Vec<String>>,
    place: &mut Option<Vec<String>>,
) -> Result<(), AllocError>
    ensures { OnOk result (option_map (λ v. map string_bytes v.items) place.new ≡ option_map (λ v. map string_bytes v.items) texts.now) }
{
    match texts {
        Some(texts) => {
            fill(place, Some(copy_list(alloc, texts)?));
            Ok(())
        }
        None => {
            fill(place, None);
            Ok(())
        }
    }
}

// Copies a list of operations into its place.
fn copy_operations(
    alloc: Global,
    operations: &Option<Vec<JwkKeyOps>>,
    place: &mut Option<Vec<JwkKeyOps>>,
) -> Result<(), AllocError>
    ensures { OnOk result (option_map (λ v. map (λ a. a) v.items) place.new ≡ option_map (λ v. map (λ a. a) v.items) operations.now) }
{
    match operations {
        Some(operations) => {
            fill(place, Some(Vec::from_slice(alloc, operations)?));
            Ok(())
        }
        None => {
            fill(place, None);
            Ok(())
        }
    }
}

// Copies all but what the key holds.
pub fn copy_others(alloc: Global, jwk: &Jwk, copy: &mut Jwk) -> Result<(), AllocError>
    ensures { OnOk result (jwk_view copy.new ≡ record (jwk_view jwk.now) { key = key_view copy.old.key }) }
{
    copy.alg = jwk.alg;
    copy.key_use = jwk.key_use;
    copy_operations(alloc, &jwk.key_ops, &mut copy.key_ops)?;
    copy_text(alloc, &jwk.kid, &mut copy.kid)?;
    copy_text(alloc, &jwk.x5u, &mut copy.x5u)?;
    copy_texts(alloc, &jwk.x5c, &mut copy.x5c)?;
    copy_text(alloc, &jwk.x5t, &mut copy.x5t)?;
    copy_text(alloc, &jwk.x5t_s256, &mut copy.x5t_s256)
}
