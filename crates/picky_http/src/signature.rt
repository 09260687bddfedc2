// What a header text says.
ghost use Rattle.std.specs.Prelude.{◌≡◌, IfOk, None, map, option_map, string_bytes};
ghost use Rattle.picky_contract.specs.Refusals.{Meets, OkOrMemory};
ghost use Rattle.picky_http.specs.Algorithms.{algorithm_view};
ghost use Rattle.picky_http.specs.Faults.{http_fault};
ghost use Rattle.picky_http.specs.Parts.{part_of};
ghost use Rattle.picky_http.specs.Reading.{Reading, HeaderReading, reading_of};
ghost use Rattle.picky_http.specs.Refusals.{reading_table};
ghost use Rattle.picky_http.specs.Verifying.{setup_of};

use crate::algorithm::HttpSigAlgorithm;
use crate::error::HttpSignatureError;
use crate::header::{Header, copy_of};
use crate::verifier::HttpSignatureVerifier;
use crate::view::HeaderView;
use picky_http_request::HttpRequest;
use std::alloc::{AllocError, Global};

/// What a header text says (section 2.1): the name of the key, the parts that are covered, two moments in
/// seconds since 1970-01-01T00:00:00Z, the base64 text of the signature, and its algorithm.
#[derive(Debug, Drop, PartialEq, Eq, Hash)]
pub struct HttpSignature {
    pub key_id: String,
    pub headers: Vec<Header>,
    pub created: Option<u64>,
    pub expires: Option<u64>,
    pub signature: String,
    pub algorithm: Option<HttpSigAlgorithm>,
    // Whether the signature's form is unpadded base64url.
    pub(crate) legacy: bool,
}

impl HttpSignature {
    // A signature of these fields.
    pub(crate) fn with_form(
        key_id: String,
        headers: Vec<Header>,
        created: Option<u64>,
        expires: Option<u64>,
        signature: String,
        algorithm: Option<HttpSigAlgorithm>,
        legacy: bool,
    ) -> HttpSignature
        ensures { reading_of result ≡ record { key_id = string_bytes key_id; headers = map part_of headers.items; created = created; expires = expires; signature = string_bytes signature; algorithm = option_map algorithm_view algorithm; legacy = legacy } }
    {
        HttpSignature {
            key_id,
            headers,
            created,
            expires,
            signature,
            algorithm,
            legacy,
        }
    }

    /// Reads a header text: behind all leading words `Signature`, pieces between commas, of which those with
    /// `=` are items; a key is trimmed, and a value trimmed, freed of all outer double quotes and trimmed
    /// again. The last item with a key counts, and unknown keys are ignored.
    ///
    /// - `keyId`, `signature`: texts. The signature's form is unpadded base64url exactly where its value
    ///   doesn't begin with a double quote and holds none of `/`, `+`, `=`, else padded standard base64.
    /// - `created`, `expires`: an optional `+` and one or more digits, with a value in `u64`.
    /// - `headers`: parts at each single space, as `Header::from_text` reads them; no parts where it is absent.
    /// - `algorithm`: one that is known by its name, or any other text.
    ///
    /// In order: `InvalidParameter` where `created`, then `expires`, is there and no number;
    /// `MissingRequiredParameter` where `signature`, then `keyId`, isn't there.
    pub fn from_str(alloc: Global, text: &str) -> Result<HttpSignature, HttpSignatureError>
        ensures found { IfOk result (λ s. HeaderReading text.now (reading_of s)) }
        ensures every { (r : Reading) → HeaderReading text.now r → OkOrMemory reading_of http_fault result r }
        ensures first { Meets reading_of http_fault result (reading_table text.now) }
    {
        HttpSignature::read(alloc, text)
    }

    #[tactic(auto, unfolding(crate::specs::Refusals::reading_table))]
    fn read(alloc: Global, text: &str) -> Result<HttpSignature, HttpSignatureError>
        ensures { Meets reading_of http_fault result (reading_table text.now) }
    {
        match HeaderView::read(text) {
            Ok(view) => {
                let signature = view.to_signature(alloc)?;
                Ok(signature)
            }
            Err(e) => Err(e),
        }
    }

    /// A copy, in memory of its own.
    pub fn clone(&self, alloc: Global) -> Result<HttpSignature, AllocError>
        ensures { IfOk result (λ copy. reading_of copy ≡ reading_of self.now) }
    {
        let algorithm = match &self.algorithm {
            Some(algorithm) => Some(algorithm.clone(alloc)?),
            None => None,
        };
        Ok(HttpSignature {
            key_id: String::from_str(alloc, &self.key_id)?,
            headers: copy_of(alloc, &self.headers)?,
            created: self.created,
            expires: self.expires,
            signature: String::from_str(alloc, &self.signature)?,
            algorithm,
            legacy: self.legacy,
        })
    }

    /// A verifier of this signature: without a moment, with leeway 0, and with nothing else set.
    pub fn verifier<Q: HttpRequest>(&self) -> HttpSignatureVerifier<'_, Q>
        ensures { setup_of result ≡ record { reading = reading_of self.now; now = None; leeway = 0; method = None; way = None } }
    {
        HttpSignatureVerifier::new(self)
    }
}
