// Copies of the members that may be absent, and of additional ones.
ghost use Rattle.std.specs.Prelude.{◌≡◌, IfOk, OnOk, map, option_map, string_bytes};
ghost use Rattle.picky_members.specs.Names.{pairs_view};
ghost use Rattle.picky_jwk.specs.Views.{jwk_view};
ghost use Rattle.picky_jws_header.specs.Views.{header_view};

use crate::fill::fill;
use crate::header::JwsHeader;
use indexmap::IndexMap;
use picky_jwk::Jwk;
use serde_json::Value;
use std::alloc::{AllocError, Global};

// Copies a text into its place.
fn copy_text(
    alloc: Global,
    text: &Option<String>,
    place: &mut Option<String>,
) -> Result<(), AllocError>
    ensures { OnOk result (option_map string_bytes place.new ≡ option_map string_bytes text.now) }
{
    match text {
        Some(text) => {
            fill(place, Some(String::from_str(alloc, text)?));
            Ok(())
        }
        None => {
            fill(place, None);
            Ok(())
        }
    }
}

// Copies a key into its place.
fn copy_key(alloc: Global, key: &Option<Jwk>, place: &mut Option<Jwk>) -> Result<(), AllocError>
    ensures { OnOk result (option_map jwk_view place.new ≡ option_map jwk_view key.now) }
{
    match key {
        Some(key) => {
            fill(place, Some(key.clone(alloc)?));
            Ok(())
        }
        None => {
            fill(place, None);
            Ok(())
        }
    }
}

// A copy of a list of texts.
#[tactic(auto, using(picky_members::specs::laws::Lists::map_more, picky_members::specs::laws::Lists::map_all))]
fn copy_list(alloc: Global, texts: &Vec<String>) -> Result<Vec<String>, AllocError>
    ensures { IfOk result (λ copy. map string_bytes copy.items ≡ map string_bytes texts.now.items) }
{
    let mut copies = Vec::new(alloc);
    for text in texts {
        copies.push(String::from_str(alloc, text)?)?;
    }
    Ok(copies)
}

// Copies a list of texts into its place.
fn copy_texts(
    alloc: Global,
    texts: &Option<Vec<String>>,
    place: &mut Option<Vec<String>>,
) -> Result<(), AllocError>
    ensures { OnOk result (option_map (λ v. map string_bytes v.items) place.new ≡ option_map (λ v. map string_bytes v.items) texts.now) }
{
    match texts {
        Some(texts) => {
            fill(place, Some(copy_list(alloc, texts)?));
            Ok(())
        }
        None => {
            fill(place, None);
            Ok(())
        }
    }
}

// Copies all but the algorithm and additional members.
pub fn copy_others(
    alloc: Global,
    header: &JwsHeader,
    copy: &mut JwsHeader,
) -> Result<(), AllocError>
    ensures { OnOk result (header_view copy.new ≡ record (header_view header.now) { alg = copy.old.alg; additional = pairs_view copy.old.additional.entries }) }
{
    copy_text(alloc, &header.jku, &mut copy.jku)?;
    copy_key(alloc, &header.jwk, &mut copy.jwk)?;
    copy_text(alloc, &header.typ, &mut copy.typ)?;
    copy_text(alloc, &header.cty, &mut copy.cty)?;
    copy_text(alloc, &header.kid, &mut copy.kid)?;
    copy_text(alloc, &header.x5u, &mut copy.x5u)?;
    copy_texts(alloc, &header.x5c, &mut copy.x5c)?;
    copy_text(alloc, &header.x5t, &mut copy.x5t)?;
    copy_text(alloc, &header.x5t_s256, &mut copy.x5t_s256)
}

// A copy of additional members, in their order.
#[tactic(auto, using(crate::specs::laws::Copies::pairs_copied))]
pub fn copy_additional(
    additional: &IndexMap<String, Value>,
) -> Result<IndexMap<String, Value>, AllocError>
    ensures { IfOk result (λ copy. pairs_view copy.entries ≡ pairs_view additional.now.entries) }
{
    additional.clone()
}
