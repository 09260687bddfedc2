// Headers.
ghost use Rattle.std.specs.Prelude.{◌≡◌, Some, IfOk};
ghost use Rattle.serde_json.specs.View.{view};
ghost use Rattle.picky_members.specs.Names.{pairs_view};
ghost use Rattle.picky_members.specs.Reading.{Reads};
ghost use Rattle.picky_jws_header.specs.Header.{Header, JwsHeaderOf, bare, in_order};
ghost use Rattle.picky_jws_header.specs.Views.{header_view};
ghost use Rattle.picky_jws_header.specs.Trees.{IsWrittenAs};

use crate::copy::{copy_additional, copy_others};
use crate::read::read_others;
use crate::written::tree_of;
use indexmap::IndexMap;
use picky_jwk::Jwk;
use picky_jwk_names::JwsAlg;
use picky_members::{FormError, additional_of, holds_any, nests_within, required};
use serde_json::Value;
use std::alloc::{AllocError, Global};

/// The header of a signed token (RFC 7515 section 4.1). Texts are as they stand: nothing is decoded, fetched or compared.
#[derive(Debug, Drop, PartialEq)]
pub struct JwsHeader {
    /// The algorithm of the signature.
    pub alg: JwsAlg,
    /// Where the signer's keys lie.
    pub jku: Option<String>,
    /// The signer's public key.
    pub jwk: Option<Jwk>,
    /// What the token is.
    pub typ: Option<String>,
    /// What its payload is.
    pub cty: Option<String>,
    /// The name of the signer's key.
    pub kid: Option<String>,
    /// Where the signer's certificates lie.
    pub x5u: Option<String>,
    /// The signer's certificates.
    pub x5c: Option<Vec<String>>,
    /// The SHA-1 thumbprint of the signer's certificate.
    pub x5t: Option<String>,
    /// The SHA-256 thumbprint of the signer's certificate, the member `x5t#S256`.
    pub x5t_s256: Option<String>,
    /// All other members.
    pub additional: IndexMap<String, Value>,
}

/// The names of the members that have a field; the last two spell one member.
const REGISTERED: [&str; 11] = [
    "alg", "jku", "jwk", "typ", "cty", "kid", "x5u", "x5c", "x5t", "x5t#S256", "x5t#s256",
];

/// How deep a tree nests at most that is read from a text.
const MAX_DEPTH: usize = 127;

impl JwsHeader {
    /// The header with this algorithm and no other member. Takes no memory.
    pub fn new(alloc: Global, alg: JwsAlg) -> JwsHeader
        ensures { header_view result ≡ bare alg }
    {
        JwsHeader::with_additional(alg, IndexMap::new(alloc))
    }

    // The header with this algorithm, these additional members and no other member.
    fn with_additional(alg: JwsAlg, additional: IndexMap<String, Value>) -> JwsHeader
        ensures { header_view result ≡ record (bare alg) { additional = pairs_view additional.entries } }
    {
        JwsHeader {
            alg,
            jku: None,
            jwk: None,
            typ: None,
            cty: None,
            kid: None,
            x5u: None,
            x5c: None,
            x5t: None,
            x5t_s256: None,
            additional,
        }
    }

    /// The header with this algorithm, whose payload is of this type, and with no other member. Refused for want of memory alone.
    pub fn new_with_cty(alloc: Global, alg: JwsAlg, cty: &str) -> Result<JwsHeader, AllocError>
        ensures { IfOk result (λ h. header_view h ≡ record (bare alg) { cty = Some cty.now }) }
    {
        let cty = String::from_str(alloc, cty)?;
        let mut header = JwsHeader::new(alloc, alg);
        header.cty = Some(cty);
        Ok(header)
    }

    /// The header that the tree tells. Of optional members null means absent; `x5t#s256` is a second spelling of `x5t#S256`, and an
    /// object with both tells none; members without a field are additional, in the tree's order.
    ///
    /// `NotOfForm` exactly where it tells none; else only want of memory.
    #[tactic(auto, using(crate::specs::laws::Once::header_only))]
    pub fn from_tree(alloc: Global, tree: &Value) -> Result<JwsHeader, FormError>
        ensures found { Reads header_view (JwsHeaderOf (view tree.now)) result }
        ensures only { IfOk result (λ h. (x : Header) → JwsHeaderOf (view tree.now) x → x ≡ header_view h) }
    {
        JwsHeader::read(alloc, tree)
    }

    // The header that the tree tells.
    #[tactic(auto, using(picky_members::specs::laws::Stops::stops, picky_members::specs::laws::Stops::out_of_memory))]
    fn read(alloc: Global, tree: &Value) -> Result<JwsHeader, FormError>
        ensures { Reads header_view (JwsHeaderOf (view tree.now)) result }
    {
        let alg = required(alloc, tree, "alg")?;
        let additional = additional_of(alloc, &REGISTERED, tree)?;
        let mut header = JwsHeader::with_additional(alg, additional);
        match read_others(alloc, tree, &mut header) {
            Ok(()) => Ok(header),
            Err(error) => {
                drop(header);
                Err(error)
            }
        }
    }

    /// A tree that tells the header, with the additional members in the order of their names' bytes. Absent members aren't written.
    ///
    /// `NotOfForm` exactly where an additional member has the name of a field, `x5t#s256` among them, or arrays and objects of the
    /// tree nest more than 127 deep; else only want of memory.
    pub fn to_tree(&self, alloc: Global) -> Result<Value, FormError>
        ensures written { Reads view (IsWrittenAs (header_view self.now)) result }
        ensures reads_back { IfOk result (λ t. JwsHeaderOf (view t) (in_order (header_view self.now))) }
    {
        if holds_any(&REGISTERED, &self.additional) {
            return Err(FormError::NotOfForm);
        }
        let tree = tree_of(alloc, self)?;
        if !nests_within(&tree, MAX_DEPTH) {
            drop(tree);
            return Err(FormError::NotOfForm);
        }
        Ok(tree)
    }

    /// A copy, in memory of its own.
    pub fn clone(&self, alloc: Global) -> Result<JwsHeader, AllocError>
        ensures { IfOk result (λ copy. header_view copy ≡ header_view self.now) }
    {
        let additional = copy_additional(&self.additional)?;
        let mut copy = JwsHeader::with_additional(self.alg, additional);
        match copy_others(alloc, self, &mut copy) {
            Ok(()) => Ok(copy),
            Err(error) => {
                drop(copy);
                Err(error)
            }
        }
    }
}
