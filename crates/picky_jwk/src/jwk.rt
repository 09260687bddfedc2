// Keys.
ghost use Rattle.std.specs.Prelude.{◌≡◌, None, IfOk, IfErr, string_bytes};
ghost use Rattle.picky_contract.specs.Refusals.{Meets, OkOrMemory};
ghost use Rattle.picky_key_der.specs.declared.public.PublicKeyKind.{PublicKeyKind};
ghost use Rattle.picky_members.specs.Members.{TextOf};
ghost use Rattle.picky_jwk_key.specs.Keys.{key_view};
ghost use Rattle.picky_jwk_key.specs.Public.{KeyOfJwk};
ghost use Rattle.picky_jwk_key.specs.Refusals.{fault, public_table};
ghost use Rattle.picky_jwk.specs.Jwk.{Jwk as JwkValue, JwkOf};
ghost use Rattle.picky_jwk.specs.Views.{jwk_view};
ghost use Rattle.picky_jwk.specs.Refusals.{bare, json_table, bare_table};

use crate::copy::copy_others;
use crate::key::key_of;
use crate::read::read_others;
use crate::written::put_members;
use picky_jwk_key::{JwkError, JwkKeyType};
use picky_jwk_names::{Jwa, JwkKeyOps, JwkPubKeyUse};
use picky_key_der::PublicKey;
use picky_members::{FormError, JsonForm, from_text, to_pretty_text, to_text};
use serde_json::{Map, Value};
use std::alloc::{AllocError, Global};

/// A JSON Web Key (RFC 7517 section 4).
#[derive(Debug, Drop, PartialEq, Eq, Hash)]
pub struct Jwk {
    /// What it holds, by its type `kty`.
    pub key: JwkKeyType,
    /// The algorithm with which it is used.
    pub alg: Option<Jwa>,
    /// What it is used for, the member `use`.
    pub key_use: Option<JwkPubKeyUse>,
    /// The operations for which it is used.
    pub key_ops: Option<Vec<JwkKeyOps>>,
    /// Its name.
    pub kid: Option<String>,
    /// Where its certificates lie.
    pub x5u: Option<String>,
    /// Its certificates.
    pub x5c: Option<Vec<String>>,
    /// The SHA-1 thumbprint of its certificate.
    pub x5t: Option<String>,
    /// The SHA-256 thumbprint of its certificate, the member `x5t#S256`.
    pub x5t_s256: Option<String>,
}

/// An object whose members tell the key. Of optional members null means absent; other members, and those of another type of key,
/// are ignored; `x5t#s256` is a second spelling of `x5t#S256`, and an object with both tells none.
impl JsonForm for Jwk {
    ghost use Rattle.picky_jwk.specs.Jwk.{Jwk as JwkValue, JwkOf};
    ghost use Rattle.picky_jwk.specs.Views.{jwk_view};
    ghost use Rattle.picky_jwk.specs.Trees.{jwk_tree};
    ghost use Rattle.picky_jwk.specs.laws.Once.{jwk_once, jwk_not_null};
    ghost use Rattle.picky_jwk.specs.laws.Written.{jwk_written};
    ghost use Rattle.picky_jwk.specs.laws.Shallow.{jwk_shallow};

    ghost Abstract = { JwkValue };

    ghost stands_for = { jwk_view };

    ghost Tells = { JwkOf };

    ghost tree_of = { jwk_tree };

    ghost levels = { 2 };

    #[tactic(auto, using(picky_members::specs::laws::Stops::stops))]
    fn from_tree(alloc: Global, tree: &Value) -> Result<Jwk, FormError> {
        let mut jwk = Jwk::new(key_of(alloc, tree)?);
        match read_others(alloc, tree, &mut jwk) {
            Ok(()) => Ok(jwk),
            Err(error) => {
                drop(jwk);
                Err(error)
            }
        }
    }

    #[tactic(auto, unfolding(crate::specs::Trees::jwk_tree))]
    fn to_tree(&self, alloc: Global) -> Result<Value, AllocError> {
        let mut members = Map::new(alloc);
        put_members(alloc, &mut members, self)?;
        Ok(Value::Object(members))
    }

    ghost once = { jwk_once };

    ghost not_null = { jwk_not_null };

    ghost reads_back = { jwk_written };

    ghost shallow = { jwk_shallow };
}

impl Jwk {
    /// The key that holds this, with no other member. Takes no memory.
    pub fn new(key: JwkKeyType) -> Jwk
        ensures { jwk_view result ≡ bare (key_view key) }
    {
        Jwk {
            key,
            alg: None,
            key_use: None,
            key_ops: None,
            kid: None,
            x5u: None,
            x5c: None,
            x5t: None,
            x5t_s256: None,
        }
    }

    /// The key that the text tells. `Json` exactly where it tells none.
    pub fn from_json(alloc: Global, json: &str) -> Result<Jwk, JwkError>
        ensures found { IfOk result (λ k. TextOf JwkOf json.now (jwk_view k)) }
        ensures every { (k : JwkValue) → TextOf JwkOf json.now k → OkOrMemory jwk_view fault result k }
        ensures first { Meets jwk_view fault result (json_table JwkOf json.now) }
    {
        match from_text(alloc, json) {
            Ok(key) => Ok(key),
            Err(FormError::NotOfForm) => Err(JwkError::Json),
            Err(FormError::OutOfMemory) => Err(JwkError::OutOfMemory),
        }
    }

    /// A compact text that tells the key. Refused for want of memory alone.
    pub fn to_json(&self, alloc: Global) -> Result<String, JwkError>
        ensures reads_back { IfOk result (λ s. TextOf JwkOf (string_bytes s) (jwk_view self.now)) }
        ensures only_memory { IfErr result (λ e. fault e ≡ None) }
    {
        Ok(to_text(alloc, self)?)
    }

    /// A text in lines that tells the key. Refused for want of memory alone.
    pub fn to_json_pretty(&self, alloc: Global) -> Result<String, JwkError>
        ensures reads_back { IfOk result (λ s. TextOf JwkOf (string_bytes s) (jwk_view self.now)) }
        ensures only_memory { IfErr result (λ e. fault e ≡ None) }
    {
        Ok(to_pretty_text(alloc, self)?)
    }

    /// The public key.
    ///
    /// `UnsupportedAlgorithm` exactly for `oct` (`octet sequence`), Ed448 (`ed448 algorithm`) and X448 (`x448 algorithm`), whose
    /// texts aren't looked at; else `Base64Decoding` exactly where a text of `key` isn't strict unpadded base64url; then
    /// `InvalidEcPointCoordinates` exactly where the number of a coordinate needs more bytes than the field, and
    /// `InvalidEdPublicKey` exactly where an Edwards key hasn't 32 bytes. An empty modulus or exponent is zero.
    pub fn to_public_key(&self, alloc: Global) -> Result<PublicKey, JwkError>
        ensures found { IfOk result (KeyOfJwk (jwk_view self.now).key) }
        ensures every { (p : PublicKeyKind) → KeyOfJwk (jwk_view self.now).key p → OkOrMemory (λ p. p) fault result p }
        ensures first { Meets (λ p. p) fault result (public_table (jwk_view self.now).key) }
    {
        self.key.to_public_key(alloc)
    }

    /// The key that holds the public key, with no other member: RSA numbers by their bytes without one leading 00, the coordinates
    /// of an uncompressed point in the size of the field, the bytes of an Edwards curve key.
    ///
    /// `UnsupportedAlgorithm` (`Unsupported EC curve`) exactly for a key on an unsupported curve, `InvalidEcPublicKey` exactly for
    /// a compressed point.
    #[tactic(auto, unfolding(crate::specs::Refusals::bare_table))]
    pub fn from_public_key(alloc: Global, public_key: &PublicKey) -> Result<Jwk, JwkError>
        ensures { Meets jwk_view fault result (bare_table public_key.now) }
    {
        let key = JwkKeyType::from_public_key(alloc, public_key)?;
        Ok(Jwk::new(key))
    }

    /// A copy, in memory of its own.
    pub fn clone(&self, alloc: Global) -> Result<Jwk, AllocError>
        ensures { IfOk result (λ copy. jwk_view copy ≡ jwk_view self.now) }
    {
        let mut copy = Jwk::new(self.key.clone(alloc)?);
        match copy_others(alloc, self, &mut copy) {
            Ok(()) => Ok(copy),
            Err(error) => {
                drop(copy);
                Err(error)
            }
        }
    }
}
