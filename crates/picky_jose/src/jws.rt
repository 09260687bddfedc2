// Signed tokens (RFC 7515).
ghost use Rattle.std.specs.Prelude.{◌≡◌, IfOk, IfErr, None, OnOk};
ghost use Rattle.picky_contract.specs.Refusals.{Meets, OkOrMemory};
ghost use Rattle.picky_jose.specs.Faults.{jws_fault};

use crate::cut::parts_of;
use crate::error::JwsError;
use crate::header::header_from;
use crate::signature::{check_decoded, verify_signature};
use picky_base64::Form;
use picky_jws_header::JwsHeader;
use picky_key::{KeyProvider, PublicKey};
use std::alloc::{AllocError, Global};
use std::borrow::CowStr;

/// A signed token whose signature holds: its header and its payload.
#[derive(Debug, Drop)]
pub struct Jws {
    pub header: JwsHeader,
    pub payload: Vec<u8>,
}

impl Jws {
    ghost use Rattle.picky_jose.specs.Views.{Content, jws_content};
    ghost use Rattle.picky_jose.specs.Verified.{VerifiedContent, verified_table};

    /// Reads a token and verifies its signature: as `RawJws::decode`, then as `RawJws::verify`. The signature is decoded once.
    ///
    /// The refusals of `RawJws::decode`; then `Signature`, as `RawJws::verify` has it.
    pub fn decode<P: KeyProvider>(
        alloc: Global,
        encoded_token: &str,
        provider: &P,
        public_key: &PublicKey,
    ) -> Result<Jws, JwsError>
        ensures found { IfOk result (λ x. VerifiedContent (P.signs provider.now) public_key.now encoded_token.now (jws_content x)) }
        ensures every { (x : Content) → VerifiedContent (P.signs provider.now) public_key.now encoded_token.now x → OkOrMemory jws_content jws_fault result x }
        ensures first { Meets jws_content jws_fault result (verified_table (P.signs provider.now) public_key.now encoded_token.now) }
    {
        Jws::read_verified(alloc, encoded_token, provider, public_key)
    }

    #[tactic(auto, unfolding(crate::specs::Verified::verified_table))]
    fn read_verified<P: KeyProvider>(
        alloc: Global,
        encoded_token: &str,
        provider: &P,
        public_key: &PublicKey,
    ) -> Result<Jws, JwsError>
        ensures { Meets jws_content jws_fault result (verified_table (P.signs provider.now) public_key.now encoded_token.now) }
    {
        let token = RawJws::decode(alloc, CowStr::Borrowed(encoded_token))?;
        token.verify_as_read(alloc, provider, public_key)
    }

    /// A copy, in memory of its own.
    pub fn clone(&self, alloc: Global) -> Result<Jws, AllocError>
        ensures { IfOk result (λ copy. jws_content copy ≡ jws_content self.now) }
    {
        Ok(Jws {
            header: self.header.clone(alloc)?,
            payload: self.payload.to_vec(alloc)?,
        })
    }
}

/// A signed token that was read and not verified: its text, its header and its signature. It borrows its text, or owns it.
#[derive(Debug, Drop)]
pub struct RawJws<'repr> {
    pub compact_repr: CowStr<'repr, Global>,
    pub header: JwsHeader,
    pub signature: Vec<u8>,
    payload: Vec<u8>,
}

/// A signed token that was read and not verified, and owns its text.
pub type OwnedRawJws = RawJws<'static>;

impl<'repr> RawJws<'repr> {
    ghost use Rattle.std.specs.Cow.{cow_str_bytes};
    ghost use Rattle.picky_jose.specs.Refusals.{Reading, reading_of, TokenReading, token_table};
    ghost use Rattle.picky_jose.specs.Views.{raw_content, jws_content, text_of};
    ghost use Rattle.picky_jose.specs.Signatures.{signed_table};

    /// Reads a token `h.p.s` in compact serialization (RFC 7515, section 7.1): h is the text before
    /// the first dot, s the text after the last; neither is empty, all three are strict unpadded
    /// base64url, and h spells a JSON object that tells a header (section 4.1), as `JwsHeader::from_tree` has it.
    ///
    /// In order: `InvalidEncoding` where the text isn't cut so; `Base64Decoding` of h; `Json` where h
    /// spells no JSON; `Float` where a number of it is held as a float; `Json` where it tells no header;
    /// `Base64Decoding` of s, then of p.
    pub fn decode(alloc: Global, compact_repr: CowStr<'repr, Global>) -> Result<Self, JwsError>
        ensures found { IfOk result (λ x. TokenReading (reading_of x) (cow_str_bytes compact_repr.entry)) }
        ensures every { (x : Reading) → TokenReading x (cow_str_bytes compact_repr.entry) → OkOrMemory reading_of jws_fault result x }
        ensures first { Meets reading_of jws_fault result (token_table (cow_str_bytes compact_repr.entry)) }
        ensures text { IfOk result (λ x. text_of x ≡ cow_str_bytes compact_repr.entry) }
    {
        RawJws::read(alloc, compact_repr)
    }

    #[tactic(auto, unfolding(crate::specs::Refusals::token_table))]
    fn read(alloc: Global, compact_repr: CowStr<'repr, Global>) -> Result<Self, JwsError>
        ensures reads { Meets reading_of jws_fault result (token_table (cow_str_bytes compact_repr.entry)) }
        ensures text { IfOk result (λ x. text_of x ≡ cow_str_bytes compact_repr.entry) }
    {
        let Some((header, payload, signature)) = parts_of(compact_repr.as_str()) else {
            let input = String::from_str(alloc, compact_repr.as_str())?;
            return Err(JwsError::InvalidEncoding { input });
        };
        let header = header_from(alloc, header)?;
        let Some(signature) = picky_base64::decode(alloc, Form::Url, signature)? else {
            return Err(JwsError::Base64Decoding);
        };
        let Some(payload) = picky_base64::decode(alloc, Form::Url, payload)? else {
            return Err(JwsError::Base64Decoding);
        };
        Ok(RawJws {
            compact_repr,
            header,
            signature,
            payload,
        })
    }

    /// A copy, in memory of its own.
    pub fn clone(&self, alloc: Global) -> Result<RawJws<'static>, AllocError>
        ensures text { IfOk result (λ copy. text_of copy ≡ text_of self.now) }
        ensures reading { IfOk result (λ copy. reading_of copy ≡ reading_of self.now) }
    {
        let text = String::from_str(alloc, self.compact_repr.as_str())?;
        Ok(RawJws {
            compact_repr: CowStr::Owned(text),
            header: self.header.clone(alloc)?,
            signature: self.signature.to_vec(alloc)?,
            payload: self.payload.to_vec(alloc)?,
        })
    }

    /// The payload, which nobody vouches for yet.
    pub fn peek_payload(&self) -> &[u8]
        ensures { result.now ≡ (raw_content self.now).payload }
    {
        &self.payload
    }

    /// The token without its signature, which isn't verified. Takes no memory.
    pub fn discard_signature(self) -> Jws
        ensures { jws_content result ≡ raw_content self.entry }
    {
        Jws {
            header: self.header,
            payload: self.payload,
        }
    }

    /// The token with its signature verified: the provider's relation holds of the key, the
    /// algorithm of `header.alg`, the bytes of the text before its last dot as they stand, and what
    /// the text after it spells, or for `ES256`, `ES384`, `ES512` the DER of the pair of its two halves of
    /// 32, 48, 66 bytes (RFC 7518, section 3.4). The public field `signature` isn't looked at.
    ///
    /// In order: `InvalidEncoding` where the text has no dot or ends with one; `Base64Decoding` where
    /// the text after its last dot isn't strict; `Signature` with `UnsupportedAlgorithm` for a name
    /// without a signature algorithm, with `Ec` where an ECDSA signature hasn't the 64, 96 or 132 bytes of its
    /// name, with `BadSignature` where the relation doesn't hold.
    pub fn verify<P: KeyProvider>(
        self,
        alloc: Global,
        provider: &P,
        public_key: &PublicKey,
    ) -> Result<Jws, JwsError>
        ensures first { Meets (λ x. tt) jws_fault result (signed_table (P.signs provider.now) public_key.now self.entry.header.alg (text_of self.entry)) }
        ensures content { IfOk result (λ x. jws_content x ≡ raw_content self.entry) }
    {
        verify_signature(
            alloc,
            self.compact_repr.as_str(),
            provider,
            public_key,
            self.header.alg,
        )?;
        Ok(self.discard_signature())
    }

    /// The same of a token that is as it was read, which the caller knows: its signature isn't decoded
    /// again.
    ///
    /// `Signature` is the one refusal, as `verify` has it.
    pub fn verify_as_read<P: KeyProvider>(
        self,
        alloc: Global,
        provider: &P,
        public_key: &PublicKey,
    ) -> Result<Jws, JwsError>
        requires { TokenReading (reading_of self) (text_of self) }
        ensures first { Meets (λ x. tt) jws_fault result (signed_table (P.signs provider.now) public_key.now self.entry.header.alg (text_of self.entry)) }
        ensures content { IfOk result (λ x. jws_content x ≡ raw_content self.entry) }
    {
        check_decoded(
            alloc,
            provider,
            public_key,
            self.header.alg,
            self.compact_repr.as_str(),
            &self.signature,
        )?;
        Ok(self.discard_signature())
    }
}
