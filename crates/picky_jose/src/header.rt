// Headers of signed tokens.
ghost use Rattle.std.specs.Prelude.{IfOk};
ghost use Rattle.serde_json.specs.View.{view};
ghost use Rattle.picky_contract.specs.Refusals.{Finds, Meets};
ghost use Rattle.picky_jws_header.specs.Header.{JwsHeaderOf};
ghost use Rattle.picky_jws_header.specs.Views.{header_view};
ghost use Rattle.picky_jose.specs.Faults.{jws_fault};
ghost use Rattle.picky_jose.specs.Refusals.{header_table};

use crate::error::JwsError;
use picky_base64::Form;
use picky_json::{has_float, parse};
use picky_jws_header::JwsHeader;
use picky_members::FormError;
use serde_json::Value;
use std::alloc::{AllocError, Global};

// The header that a text spells.
#[tactic(auto, unfolding(crate::specs::Refusals::header_table))]
pub(crate) fn header_from(alloc: Global, text: &str) -> Result<JwsHeader, JwsError>
    ensures { Meets header_view jws_fault result (header_table text.now) }
{
    let Some(bytes) = picky_base64::decode(alloc, Form::Url, text)? else {
        return Err(JwsError::Base64Decoding);
    };
    let Some(tree) = parse(alloc, &bytes)? else {
        return Err(JwsError::Json);
    };
    if has_float(&tree) {
        return Err(JwsError::Float);
    }
    let Some(header) = header_of(alloc, &tree)? else {
        return Err(JwsError::Json);
    };
    Ok(header)
}

// The header of a tree.
fn header_of(alloc: Global, tree: &Value) -> Result<Option<JwsHeader>, AllocError>
    ensures { IfOk result (Finds header_view (JwsHeaderOf (view tree.now))) }
{
    match JwsHeader::from_tree(alloc, tree) {
        Ok(header) => Ok(Some(header)),
        Err(FormError::NotOfForm) => Ok(None),
        Err(FormError::OutOfMemory) => Err(AllocError),
    }
}
