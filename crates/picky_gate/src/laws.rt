//! Laws of the gate: each is the contract of a function without a body.
ghost use Rattle.std.specs.Prelude.{◌≡◌, ◌<◌, ◌^◌, ℕ, List, ◌++◌, codes, Some, IfSome};
ghost use Rattle.std.specs.List.{AllByRecursion};
ghost use Rattle.serde_json.specs.Data.{Data};
ghost use Rattle.picky_json.specs.Tree.{Tree, FloatFree};
ghost use Rattle.picky_key.specs.Signatures.{Relation};
ghost use Rattle.picky_jws_header.specs.Header.{Header};
ghost use Rattle.picky_jose.specs.Claims.{AreInTime};
ghost use Rattle.picky_jose.specs.Verified.{VerifiedContent};
ghost use Rattle.picky_http.specs.Building.{SigningBy, Draft, IsBuilt};
ghost use Rattle.picky_http.specs.Lines.{Request, request_of};
ghost use Rattle.picky_http.specs.Printing.{printed, IsBare, IsPlainPart, as_told};
ghost use Rattle.picky_http.specs.Reading.{Reading};
ghost use Rattle.picky_http.specs.Verifying.{asked_of, IsInForce, HasBegun};
ghost use Rattle.picky_gate.specs.declared.policy.Policy.{Policy};
ghost use Rattle.picky_ring.specs.declared.ring.RingEntry.{RingEntry};
ghost use Rattle.picky_ring.specs.TextMap.{TextMap};
ghost use Rattle.picky_gate.specs.Generated.{Counts};
ghost use Rattle.picky_gate.specs.Admissible.{Admission, token, request, Admissible, NamedKey, IsKeyUnder};

use picky_http_request::HttpRequest;
use picky_key::KeyProvider;

/// A signature relation, whichever it is: each value stands for one. Nothing is asked of it.
pub trait SignatureRelation {
    /// The relation.
    ghost relation: { Self → Relation };
}

impl<P: KeyProvider> SignatureRelation for P {
    ghost relation = { P.signs };
}

/// A text is admissible as one value at most, over one ring, one signature relation, one policy and one
/// request.
pub fn one_is_admissible<R: SignatureRelation>(_relation: &R)
    ensures { (ring : TextMap RingEntry) → (policy : Policy) → (asked : Request) → (text : List ℕ) → (a b : Admission)
        → Admissible (R.relation _relation.now) ring policy asked text a
        → Admissible (R.relation _relation.now) ring policy asked text b → b ≡ a }
{}

/// Of the first texts of a seed so many are admissible, and no other number.
pub fn one_count_is_right()
    ensures { (seed n a b : ℕ) → Counts seed n a → Counts seed n b → b ≡ a }
{}

/// A token whose signature holds under a key of the ring, which its `kid` names, is admissible where its payload is claims whose dates
/// meet the policy: as its header and these claims, under the key's name. What `Jws::encode` and `CheckedJwtSig::encode` of `picky_jose`
/// give under a private key is such a token, of the public key that the provider knows of it (their clauses `verifies`).
pub fn verified_token_is_admissible<R: SignatureRelation>(_relation: &R)
    ensures { (ring : TextMap RingEntry) → (policy : Policy) → (asked : Request) → (key : NamedKey) → (h : Header) → (payload : List ℕ) → (claims : Data) → (text : List ℕ)
        → IsKeyUnder ring h.kid key
        → VerifiedContent (R.relation _relation.now) key.key text (record { header = h; payload = payload })
        → Tree payload claims → FloatFree claims → AreInTime policy.validator claims
        → Admissible (R.relation _relation.now) ring policy asked (codes "Bearer " ++ text) (token key.name h claims) }
{}

/// What `HttpSignatureBuilder::build` of `picky_http` builds over a request under a private key is admissible when it is printed, over that
/// request and under a ring that has the private key's public key and the same algorithm under the key id: as what the printed text tells,
/// under the key's name. The key id has no comma, double quote or outer white space, the parts are lower-case tokens and special parts, the
/// numbers are in `u64`, and the dates meet the policy.
pub fn built_header_text_is_admissible<P: KeyProvider, Q: HttpRequest>(_provider: &P, _request: &Q)
    ensures { (ring : TextMap RingEntry) → (policy : Policy) → (d : Draft Q) → (r : Reading) → (by : SigningBy) → (key : NamedKey)
        → IsBuilt (P.sign_of _provider.now) Q.answer Q.method Q.target d r → d.method ≡ Some by → d.way ≡ Some (asked_of _request.now)
        → P.public_of _provider.now by.key ≡ Some key.key → by.algorithm ≡ key.algorithm → IsKeyUnder ring (Some r.key_id) key
        → IsBare r.key_id → AllByRecursion IsPlainPart r.headers → IfSome r.created (λ n. n < 2 ^ 64) → IfSome r.expires (λ n. n < 2 ^ 64)
        → IsInForce policy.now policy.leeway r.expires → HasBegun policy.now policy.leeway r.created
        → Admissible (P.signs _provider.now) ring policy (request_of Q.answer Q.method Q.target _request.now) (printed r) (request key.name key.algorithm (as_told r)) }
{}
