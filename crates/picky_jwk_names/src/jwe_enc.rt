// Names of content encryption algorithms, and their sizes.
ghost use Rattle.std.specs.Prelude.{◌≡◌};
ghost use Rattle.std.proofs.Common.{arith};
ghost use Rattle.serde_json.specs.Data.{string};
ghost use Rattle.picky_contract.specs.Refusals.{Finds};
ghost use Rattle.picky_jwk_names.specs.declared.jwe_enc.JweEnc.{JweEnc};
ghost use Rattle.picky_jwk_names.specs.Names.{enc_name, IsEnc};
ghost use Rattle.picky_jwk_names.specs.Sizes.{key_size, nonce_size, tag_size};
ghost use Rattle.picky_jwk_names.specs.laws.Names.{enc_once};

use picky_members::{FormError, JsonForm};
use serde_json::Value;
use std::alloc::{AllocError, Global};

/// The name of a JWE content encryption algorithm (RFC 7518 section 5.1).
#[derive(Clone, Copy, Debug, PartialEq, Eq, Hash)]
pub enum JweEnc {
    Aes128CbcHmacSha256,
    Aes192CbcHmacSha384,
    Aes256CbcHmacSha512,
    Aes128Gcm,
    Aes192Gcm,
    Aes256Gcm,
}

impl JweEnc {
    /// The name as it is written.
    pub fn name(self) -> &'static str
        ensures { result.now ≡ enc_name self }
    {
        match self {
            JweEnc::Aes128CbcHmacSha256 => "A128CBC-HS256",
            JweEnc::Aes192CbcHmacSha384 => "A192CBC-HS384",
            JweEnc::Aes256CbcHmacSha512 => "A256CBC-HS512",
            JweEnc::Aes128Gcm => "A128GCM",
            JweEnc::Aes192Gcm => "A192GCM",
            JweEnc::Aes256Gcm => "A256GCM",
        }
    }

    /// What has this name; `None` exactly where nothing has.
    pub fn from_name(name: &str) -> Option<JweEnc>
        ensures { Finds (λ a. a) (λ a. enc_name a ≡ name.now) result }
    {
        match name {
            "A128CBC-HS256" => Some(JweEnc::Aes128CbcHmacSha256),
            "A192CBC-HS384" => Some(JweEnc::Aes192CbcHmacSha384),
            "A256CBC-HS512" => Some(JweEnc::Aes256CbcHmacSha512),
            "A128GCM" => Some(JweEnc::Aes128Gcm),
            "A192GCM" => Some(JweEnc::Aes192Gcm),
            "A256GCM" => Some(JweEnc::Aes256Gcm),
            _ => None,
        }
    }

    /// The size of the content key in bytes, for CBC that of its AES key.
    pub fn key_size(self) -> usize
        ensures { result ≡ key_size self }
    {
        match self {
            JweEnc::Aes128CbcHmacSha256 | JweEnc::Aes128Gcm => 16,
            JweEnc::Aes192CbcHmacSha384 | JweEnc::Aes192Gcm => 24,
            JweEnc::Aes256CbcHmacSha512 | JweEnc::Aes256Gcm => 32,
        }
    }

    /// The size of the initialization vector in bytes.
    pub fn nonce_size(self) -> usize
        ensures { result ≡ nonce_size self }
    {
        match self {
            JweEnc::Aes128CbcHmacSha256
            | JweEnc::Aes192CbcHmacSha384
            | JweEnc::Aes256CbcHmacSha512 => 16,
            JweEnc::Aes128Gcm | JweEnc::Aes192Gcm | JweEnc::Aes256Gcm => 12,
        }
    }

    /// The size of the authentication tag in bytes, for CBC that of the whole HMAC.
    pub fn tag_size(self) -> usize
        ensures { result ≡ tag_size self }
    {
        match self {
            JweEnc::Aes128CbcHmacSha256 => 32,
            JweEnc::Aes192CbcHmacSha384 => 48,
            JweEnc::Aes256CbcHmacSha512 => 64,
            JweEnc::Aes128Gcm | JweEnc::Aes192Gcm | JweEnc::Aes256Gcm => 16,
        }
    }
}

/// A JSON string that is the name.
impl JsonForm for JweEnc {
    ghost Abstract = { JweEnc };

    ghost stands_for = { λ a. a };

    ghost Tells = { IsEnc };

    ghost tree_of = { λ a. string (enc_name a) };

    ghost levels = { 0 };

    fn from_tree(_alloc: Global, tree: &Value) -> Result<JweEnc, FormError> {
        let Some(name) = tree.as_str() else {
            return Err(FormError::NotOfForm);
        };
        JweEnc::from_name(name).ok_or(FormError::NotOfForm)
    }

    fn to_tree(&self, alloc: Global) -> Result<Value, AllocError> {
        Value::try_from_str(alloc, self.name())
    }

    ghost once = { enc_once };

    ghost not_null = { λ x h. Prim.cc };

    ghost reads_back = { Prim.search };

    ghost shallow = { λ x. Prim.omega arith };
}
