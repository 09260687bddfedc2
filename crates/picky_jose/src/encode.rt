// Signed tokens that are made (RFC 7515).
ghost use Rattle.std.specs.Prelude.{◌≡◌, ◌≤◌, ℕ, List, ◌∷◌, ◌++◌, Some, IfOk, IfSome, string_bytes};
ghost use Rattle.serde_json.specs.Data.{depth};
ghost use Rattle.serde_json.specs.View.{view};
ghost use Rattle.serde_json.specs.Written.{compact_text};
ghost use Rattle.picky_contract.specs.Refusals.{Finds, Meets, OkOrMemory};
ghost use Rattle.picky_base64.specs.Base64.{AreBytes, encoding};
ghost use Rattle.picky_base64.specs.declared.Form.TheVariants.{Url};
ghost use Rattle.picky_json.specs.Tree.{Tree, FloatFree};
ghost use Rattle.picky_jws_header.specs.Header.{JwsHeaderOf, in_order};
ghost use Rattle.picky_jws_header.specs.Trees.{IsWrittenAs};
ghost use Rattle.picky_jws_header.specs.Views.{header_view};
ghost use Rattle.picky_jose.specs.Faults.{jws_fault};
ghost use Rattle.picky_jose.specs.Refusals.{header_table};
ghost use Rattle.picky_jose.specs.Token.{dot};
ghost use Rattle.picky_jose.specs.Encoding.{header_text_table, encoding_table, content, as_written, SignedContent};

use crate::error::JwsError;
use crate::jws::Jws;
use crate::signing::signature_given_by;
use picky_base64::Form;
use picky_json::has_float;
use picky_jwk_names::JwsAlg;
use picky_jws_header::JwsHeader;
use picky_key::{KeyProvider, PrivateKey};
use picky_members::FormError;
use serde_json::Value;
use std::alloc::{AllocError, Global};

impl Jws {
    ghost use Rattle.picky_jws_header.specs.Header.{bare};
    ghost use Rattle.picky_key_der.specs.declared.public.PublicKeyKind.{PublicKeyKind};
    ghost use Rattle.picky_jose.specs.Views.{jws_content};
    ghost use Rattle.picky_jose.specs.Verified.{VerifiedContent};
    ghost use Rattle.picky_jose.specs.Encoding.{IsToken};

    /// The token with this algorithm, this payload and no other member of a header. Takes no memory.
    pub fn new(alloc: Global, alg: JwsAlg, payload: Vec<u8>) -> Jws
        ensures { jws_content result ≡ content (bare alg) payload.items }
    {
        Jws {
            header: JwsHeader::new(alloc, alg),
            payload,
        }
    }

    /// The token in compact serialization (RFC 7515, section 7.1), signed with the private key: the header as `JwsHeader::to_tree`
    /// writes it, in compact JSON, with its additional members in the order of their names' bytes; the payload; and what the
    /// provider's signing gives of the key, the algorithm of `header.alg`, and the bytes of both parts with the dot between them.
    /// For `ES256`, `ES384`, `ES512` that is a DER pair, of which both numbers are written, each in 32, 48, 66 bytes (RFC 7518,
    /// section 3.4).
    ///
    /// In order: `Json` where an additional member has the name of a field, `x5t#s256` among them, or the header nests more than
    /// 127 deep; `Float` where a number of it is held as a float; `Signature` with `UnsupportedAlgorithm` for a name without a
    /// signature algorithm, with `NoSignature` where the provider gives none, with `Ec` where r, or else s, has more bytes than the
    /// 32, 48 or 66 of the name (the key may be on another curve).
    pub fn encode<P: KeyProvider>(
        &self,
        alloc: Global,
        provider: &P,
        private_key: &PrivateKey,
    ) -> Result<String, JwsError>
        ensures found { IfOk result (λ s. IsToken (P.sign_of provider.now private_key.now) (jws_content self.now) (string_bytes s)) }
        ensures every { (text : List ℕ) → IsToken (P.sign_of provider.now private_key.now) (jws_content self.now) text → OkOrMemory string_bytes jws_fault result text }
        ensures first { Meets string_bytes jws_fault result (encoding_table (P.sign_of provider.now private_key.now) (jws_content self.now)) }
        ensures reads_back { IfOk result (λ s. SignedContent (P.sign_of provider.now private_key.now) (string_bytes s) (as_written (jws_content self.now))) }
        ensures verifies { IfOk result (λ s. (key : PublicKeyKind) → P.public_of provider.now private_key.now ≡ Some key → VerifiedContent (P.signs provider.now) key (string_bytes s) (as_written (jws_content self.now))) }
    {
        token_of(alloc, &self.header, &self.payload, provider, private_key)
    }
}

// The tree as which a header is written.
fn tree_of(alloc: Global, header: &JwsHeader) -> Result<Option<Value>, AllocError>
    ensures written { IfOk result (Finds view (IsWrittenAs (header_view header.now))) }
    ensures tells { IfOk result (λ found. IfSome found (λ t. JwsHeaderOf (view t) (in_order (header_view header.now)))) }
{
    match header.to_tree(alloc) {
        Ok(tree) => Ok(Some(tree)),
        Err(FormError::NotOfForm) => Ok(None),
        Err(FormError::OutOfMemory) => Err(AllocError),
    }
}

// The compact text of a tree.
pub(crate) fn compact(alloc: Global, tree: &Value) -> Result<String, AllocError>
    requires free { FloatFree (view tree.now) }
    requires shallow { depth (view tree.now) ≤ 127 }
    ensures text { IfOk result (λ s. string_bytes s ≡ compact_text (view tree.now)) }
    ensures reads_back { IfOk result (λ s. Tree (string_bytes s) (view tree.now)) }
{
    tree.to_string(alloc)
}

// The text of a header, as it stands in a token.
#[tactic(auto, unfolding(crate::specs::Encoding::header_text_table))]
fn header_text(alloc: Global, header: &JwsHeader) -> Result<String, JwsError>
    ensures first { Meets string_bytes jws_fault result (header_text_table (header_view header.now)) }
    ensures reads_back { IfOk result (λ s. (header_table (string_bytes s)).holds (in_order (header_view header.now))) }
{
    let Some(tree) = tree_of(alloc, header)? else {
        return Err(JwsError::Json);
    };
    if has_float(&tree) {
        return Err(JwsError::Float);
    }
    let text = compact(alloc, &tree)?;
    Ok(picky_base64::encode(alloc, Form::Url, text.as_bytes())?)
}

// The text, a dot, and the base64url of the bytes.
fn joined(alloc: Global, front: String, bytes: &[u8]) -> Result<String, AllocError>
    ensures text { IfOk result (λ s. string_bytes s ≡ string_bytes front ++ dot ∷ encoding Url bytes.now) }
    ensures bytes { IfOk result (λ s. AreBytes bytes.now) }
{
    let mut text = front;
    let back = picky_base64::encode(alloc, Form::Url, bytes)?;
    text.push('.')?;
    text.push_str(&back)?;
    Ok(text)
}

// The token of a header and a payload.
#[tactic(auto, unfolding(crate::specs::Encoding::encoding_table))]
pub(crate) fn token_of<P: KeyProvider>(
    alloc: Global,
    header: &JwsHeader,
    payload: &[u8],
    provider: &P,
    private_key: &PrivateKey,
) -> Result<String, JwsError>
    ensures first { Meets string_bytes jws_fault result (encoding_table (P.sign_of provider.now private_key.now) (content (header_view header.now) payload.now)) }
    ensures reads_back { IfOk result (λ s. SignedContent (P.sign_of provider.now private_key.now) (string_bytes s) (as_written (content (header_view header.now) payload.now))) }
{
    let alg = header.alg;
    let text = header_text(alloc, header)?;
    let signed = joined(alloc, text, payload)?;
    let message = signed.as_bytes();
    let signature = signature_given_by(alloc, provider, private_key, alg, message)?;
    Ok(joined(alloc, signed, &signature)?)
}
