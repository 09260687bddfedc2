//! Strict base64 in its one spelling: base64url without padding, and padded standard base64
//! (RFC 4648, sections 5 and 4).
//!
//! The alphabets are this crate's own two tables, from which it makes the engines of `base64`; what a
//! text spells is `B64` of `specs/Base64`, which encodes and never decodes.
#![tactic(auto)]

pub mod laws;

ghost use Rattle.std.specs.Prelude.{◌≡◌, IfOk, false};
ghost use Rattle.std.specs.String.{string_bytes};
ghost use Rattle.base64.specs.GeneralPurpose.{engine_symbols, engine_padding, engine_config, IsStrict, config_padding};
ghost use Rattle.picky_contract.specs.Refusals.{Finds};
ghost use Rattle.picky_base64.specs.Base64.{alphabet, pads, B64};

use base64::DecodeAllocError;
use base64::alphabet::Alphabet;
use base64::engine::DecodePaddingMode;
use base64::engine::general_purpose::{GeneralPurpose, GeneralPurposeConfig};
use std::alloc::{AllocError, Global};

const URL_SYMBOLS: &str = "ABCDEFGHIJKLMNOPQRSTUVWXYZabcdefghijklmnopqrstuvwxyz0123456789-_";

const STANDARD_SYMBOLS: &str = "ABCDEFGHIJKLMNOPQRSTUVWXYZabcdefghijklmnopqrstuvwxyz0123456789+/";

/// How bytes are spelled.
#[derive(Clone, Copy, Debug, PartialEq, Eq)]
pub enum Form {
    /// base64url without padding (RFC 4648, section 5).
    Url,
    /// Padded standard base64 (RFC 4648, section 4).
    Standard,
}

// The strict engine of a form.
fn engine(form: Form) -> GeneralPurpose
    ensures symbols { engine_symbols result ≡ alphabet form }
    ensures padding { engine_padding result ≡ 61 }
    ensures pads { config_padding (engine_config result) ≡ pads form }
    ensures strict { IsStrict result }
{
    let config = GeneralPurposeConfig::new();
    match form {
        Form::Url => {
            let Ok(alphabet) = Alphabet::new(URL_SYMBOLS) else {
                unreachable!();
            };
            let config = config
                .with_encode_padding(false)
                .with_decode_padding_mode(DecodePaddingMode::RequireNone);
            GeneralPurpose::new(&alphabet, config)
        }
        Form::Standard => {
            let Ok(alphabet) = Alphabet::new(STANDARD_SYMBOLS) else {
                unreachable!();
            };
            let config = config
                .with_encode_padding(true)
                .with_decode_padding_mode(DecodePaddingMode::RequireCanonical);
            GeneralPurpose::new(&alphabet, config)
        }
    }
}

/// The bytes that the text spells; `Ok(None)` exactly where it is the encoding of no bytes, as with
/// another alphabet's symbol, stray trailing bits, or padding that is missing or not of the form.
///
/// The one error is want of memory.
pub fn decode(alloc: Global, form: Form, text: &str) -> Result<Option<Vec<u8>>, AllocError>
    ensures { IfOk result (Finds (λ v. v.items) (B64 form text.now)) }
{
    match engine(form).decode(alloc, text.as_bytes()) {
        Ok(bytes) => Ok(Some(bytes)),
        Err(DecodeAllocError::OutOfMemory) => Err(AllocError),
        Err(DecodeAllocError::DecodeError(_)) => Ok(None),
    }
}

/// The encoding of the bytes: four characters for each three bytes.
///
/// The one error is want of memory.
pub fn encode(alloc: Global, form: Form, bytes: &[u8]) -> Result<String, AllocError>
    ensures { IfOk result (λ s. B64 form (string_bytes s) bytes.now) }
{
    engine(form).encode(alloc, bytes)
}
