// Whether a signature is accepted.
ghost use Rattle.std.specs.Prelude.{◌≡◌, Some, None, OnOk, OnErr};
ghost use Rattle.picky_contract.specs.Refusals.{Meets};
ghost use Rattle.picky_http.specs.Faults.{http_fault};
ghost use Rattle.picky_http.specs.Reading.{reading_of};
ghost use Rattle.picky_http.specs.Verifying.{verify_table, setup_of, given_as, asked_of};

use crate::check::{check_algorithm, check_rows};
use crate::error::HttpSignatureError;
use crate::signature::HttpSignature;
use picky_http_request::HttpRequest;
use picky_key::{KeyProvider, PublicKey, SignatureAlgorithm};
use std::alloc::Global;

// A key, and the algorithm that it is used with.
#[derive(Clone, Copy, Debug)]
pub(crate) struct Method<'a> {
    pub(crate) key: &'a PublicKey,
    pub(crate) algorithm: SignatureAlgorithm,
}

// Where the signing string comes from.
#[derive(Debug, Drop)]
pub(crate) enum Way<'a, Q> {
    Given(&'a str),
    FromRequest(&'a Q),
}

/// Checks one signature. What it needs is set in any order: a key with its algorithm, a way to the signing
/// string, and for a signature with `created` or `expires` a moment, with a leeway that is 0 where none is set.
#[derive(Debug, Drop)]
pub struct HttpSignatureVerifier<'a, Q> {
    pub(crate) signature: &'a HttpSignature,
    pub(crate) now: Option<u64>,
    pub(crate) leeway: u64,
    pub(crate) method: Option<Method<'a>>,
    pub(crate) way: Option<Way<'a, Q>>,
}

impl<'a, Q: HttpRequest> HttpSignatureVerifier<'a, Q> {
    pub(crate) fn new(signature: &'a HttpSignature) -> Self
        ensures { setup_of result ≡ record { reading = reading_of signature.now; now = None; leeway = 0; method = None; way = None } }
    {
        HttpSignatureVerifier {
            signature,
            now: None,
            leeway: 0,
            method: None,
            way: None,
        }
    }

    /// Sets the moment, in seconds since 1970-01-01T00:00:00Z. No memory is taken.
    pub fn now(&mut self, unix_timestamp: u64)
        ensures { setup_of self.new ≡ record (setup_of self.old) { now = Some unix_timestamp } }
    {
        self.now = Some(unix_timestamp);
    }

    /// Sets the leeway in seconds. No memory is taken.
    pub fn leeway(&mut self, leeway: u64)
        ensures { setup_of self.new ≡ record (setup_of self.old) { leeway = leeway } }
    {
        self.leeway = leeway;
    }

    /// Sets the key and the algorithm that it is used with. No memory is taken.
    pub fn signature_method(
        &mut self,
        public_key: &'a PublicKey,
        signature_type: SignatureAlgorithm,
    )
        ensures { setup_of self.new ≡ record (setup_of self.old) { method = Some (record { key = public_key.now; algorithm = signature_type }) } }
    {
        self.method = Some(Method {
            key: public_key,
            algorithm: signature_type,
        });
    }

    /// Sets the request that answers the lines of the signing string. No memory is taken.
    pub fn generate_signing_string_using_http_request(&mut self, http_request: &'a Q)
        ensures { setup_of self.new ≡ record (setup_of self.old) { way = Some (asked_of http_request.now) } }
    {
        self.way = Some(Way::FromRequest(http_request));
    }

    /// Sets the signing string itself. No memory is taken.
    pub fn pre_generated_signing_string(&mut self, signing_string: &'a str)
        ensures { setup_of self.new ≡ record (setup_of self.old) { way = Some (given_as signing_string.now) } }
    {
        self.way = Some(Way::Given(signing_string));
    }

    /// Whether the signature is accepted: its algorithm, where it is known, is the verifier's and of the key's
    /// family; a moment was set where it has `expires` or `created`, and meets them; the provider's relation
    /// holds of the key, the verifier's algorithm, the bytes of the signing string, and what the signature
    /// spells. The signing string has a line for each part that is covered, in order; no part is left out.
    ///
    /// In order: `MissingBuilderArgument` where no `signature_method` was set; `IncompatibleAlgorithm`;
    /// `MissingBuilderArgument` where no `signing_string_generation` was set; for `expires`
    /// `MissingBuilderArgument` where no `now` was set, then `Expired`; for `created` the same, then
    /// `NotYetValid`; for each line `MissingRequiredParameter` where its number isn't there, or
    /// `SigningStringGeneration` where the request doesn't answer; `Base64Decoding`; `Signature`. With a signing
    /// string that was given no line is refused.
    ///
    /// Ok takes the method and the way to the signing string out of the verifier; a refusal takes nothing.
    pub fn verify<P: KeyProvider>(
        &mut self,
        alloc: Global,
        provider: &P,
    ) -> Result<(), HttpSignatureError>
        ensures first { Meets (λ u. u) http_fault result (verify_table (P.signs provider.now) Q.answer Q.method Q.target (setup_of self.old)) }
        ensures taken { OnOk result (setup_of self.new ≡ record (setup_of self.old) { method = None; way = None }) }
        ensures kept { OnErr result (self.new ≡ self.old) }
    {
        self.decide(alloc, provider)?;
        self.method = None;
        self.way = None;
        Ok(())
    }

    // The same, with nothing taken.
    #[tactic(auto, unfolding(crate::specs::Verifying::verify_table))]
    fn decide<P: KeyProvider>(&self, alloc: Global, provider: &P) -> Result<(), HttpSignatureError>
        ensures { Meets (λ u. u) http_fault result (verify_table (P.signs provider.now) Q.answer Q.method Q.target (setup_of self.entry.now)) }
    {
        let Some(method) = &self.method else {
            return Err(HttpSignatureError::MissingBuilderArgument {
                arg: "signature_method",
            });
        };
        check_algorithm(method.key, method.algorithm, &self.signature.algorithm)?;
        let Some(way) = &self.way else {
            return Err(HttpSignatureError::MissingBuilderArgument {
                arg: "signing_string_generation",
            });
        };
        check_rows(
            alloc,
            provider,
            method,
            way,
            self.now,
            self.leeway,
            self.signature,
        )
    }
}
