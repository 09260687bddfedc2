// How a signature is built.
ghost use Rattle.std.specs.Prelude.{IsTrue, map};
ghost use Rattle.picky_http.specs.Numbered.{are_numbered};
ghost use Rattle.picky_http.specs.Parts.{part_of};

use crate::algorithm::HttpSigAlgorithm;
use crate::content::{Content, asked_content, given_content};
use crate::error::HttpSignatureError;
use crate::header::Header;
use crate::making::{SigningMethod, spelled};
use crate::signature::HttpSignature;
use crate::verifier::Way;
use picky_http_request::HttpRequest;
use picky_key::{KeyProvider, PrivateKey, SignatureAlgorithm};
use std::alloc::Global;

/// Builds signatures. What one needs is set in any order: the name of a key, a private key with its algorithm, a
/// way to the signing string, and, with a request, the parts that are covered, in their order.
///
/// A refused call leaves the builder as it was.
#[derive(Debug, Drop)]
pub struct HttpSignatureBuilder<'a, Q> {
    alloc: Global,
    key_id: Option<String>,
    method: Option<SigningMethod<'a>>,
    headers: Vec<Header>,
    created: Option<u64>,
    expires: Option<u64>,
    way: Option<Way<'a, Q>>,
    // Whether the signature's form is unpadded base64url.
    legacy: bool,
    // Each part that is covered has its number.
    ghost numbered: { IsTrue (are_numbered created expires (map part_of headers.items)) },
}

impl<'a, Q: HttpRequest> HttpSignatureBuilder<'a, Q> {
    ghost use Rattle.std.specs.Prelude.{◌≡◌, ◌≢◌, ◌++◌, ◌∷◌, [], ℕ, List, Some, None, IfOk, IfErr, OnOk, OnErr, true, false};
    ghost use Rattle.std.specs.Str.{str_to_ascii_lowercase};
    ghost use Rattle.picky_contract.specs.Refusals.{Meets, OkOrMemory};
    ghost use Rattle.picky_http.specs.Building.{draft_of, by_of, blank, content_table, value_table, build_table, IsBuilt, IsAccepted};
    ghost use Rattle.picky_http.specs.Content.{content_of};
    ghost use Rattle.picky_http.specs.Faults.{http_fault, missing_parameter};
    ghost use Rattle.picky_http.specs.Reading.{Reading, reading_of};
    ghost use Rattle.picky_http.specs.Signing.{Named, Target, Created, Expires};
    ghost use Rattle.picky_http.specs.Verifying.{given_as, asked_of, origin_of};

    /// A builder in which nothing is set. No memory is taken; what is set later, and what is built, takes it there.
    pub fn new(alloc: Global) -> Self
        ensures { draft_of result ≡ blank false }
    {
        HttpSignatureBuilder {
            alloc,
            key_id: None,
            method: None,
            headers: Vec::new(alloc),
            created: None,
            expires: None,
            way: None,
            legacy: false,
        }
    }

    /// Sets the name of the key. The one error is want of memory.
    pub fn key_id(&mut self, key_id: &str) -> Result<(), HttpSignatureError>
        ensures set { OnOk result (draft_of self.new ≡ record (draft_of self.old) { key_id = Some key_id.now }) }
        ensures kept { OnErr result (draft_of self.new ≡ draft_of self.old) }
        ensures memory { IfErr result (λ e. http_fault e ≡ None) }
    {
        let key_id = String::from_str(self.alloc, key_id)?;
        self.key_id = Some(key_id);
        Ok(())
    }

    /// Sets the private key and the algorithm that it is used with. No memory is taken.
    pub fn signature_method(
        &mut self,
        private_key: &'a PrivateKey,
        signature_type: SignatureAlgorithm,
    )
        ensures { draft_of self.new ≡ record (draft_of self.old) { method = Some (record { key = private_key.now; algorithm = signature_type }) } }
    {
        self.method = Some(SigningMethod {
            key: private_key,
            algorithm: signature_type,
        });
    }

    /// Sets the moment at which the signature was made, in seconds since 1970-01-01T00:00:00Z, and covers it next. The
    /// one error is want of memory.
    pub fn created(&mut self, unix_timestamp: u64) -> Result<(), HttpSignatureError>
        ensures set { OnOk result (draft_of self.new ≡ record (draft_of self.old) { headers = (draft_of self.old).headers ++ Created ∷ []; created = Some unix_timestamp }) }
        ensures kept { OnErr result (draft_of self.new ≡ draft_of self.old) }
        ensures memory { IfErr result (λ e. http_fault e ≡ None) }
    {
        self.headers.push(Header::Created)?;
        self.created = Some(unix_timestamp);
        Ok(())
    }

    /// Sets the moment after which the signature isn't accepted, in seconds since 1970-01-01T00:00:00Z, and covers it
    /// next. The one error is want of memory.
    pub fn expires(&mut self, unix_timestamp: u64) -> Result<(), HttpSignatureError>
        ensures set { OnOk result (draft_of self.new ≡ record (draft_of self.old) { headers = (draft_of self.old).headers ++ Expires ∷ []; expires = Some unix_timestamp }) }
        ensures kept { OnErr result (draft_of self.new ≡ draft_of self.old) }
        ensures memory { IfErr result (λ e. http_fault e ≡ None) }
    {
        self.headers.push(Header::Expires)?;
        self.expires = Some(unix_timestamp);
        Ok(())
    }

    /// Covers the request's method and target next. The one error is want of memory.
    pub fn request_target(&mut self) -> Result<(), HttpSignatureError>
        ensures set { OnOk result (draft_of self.new ≡ record (draft_of self.old) { headers = (draft_of self.old).headers ++ Target ∷ [] }) }
        ensures kept { OnErr result (draft_of self.new ≡ draft_of self.old) }
        ensures memory { IfErr result (λ e. http_fault e ≡ None) }
    {
        self.headers.push(Header::RequestTarget)?;
        Ok(())
    }

    /// Covers the header of this name next, in ASCII lower case, as `Header::new_name` has it. The one error is want of
    /// memory.
    pub fn http_header(&mut self, header: &str) -> Result<(), HttpSignatureError>
        ensures set { OnOk result (draft_of self.new ≡ record (draft_of self.old) { headers = (draft_of self.old).headers ++ Named (str_to_ascii_lowercase header.now) ∷ [] }) }
        ensures kept { OnErr result (draft_of self.new ≡ draft_of self.old) }
        ensures memory { IfErr result (λ e. http_fault e ≡ None) }
    {
        let name = String::from_str(self.alloc, header)?;
        self.headers.push(Header::new_name(name))?;
        Ok(())
    }

    /// Sets the request that answers the lines of the signing string. No memory is taken.
    pub fn generate_signing_string_using_http_request(&mut self, http_request: &'a Q)
        ensures { draft_of self.new ≡ record (draft_of self.old) { way = Some (asked_of http_request.now) } }
    {
        self.way = Some(Way::FromRequest(http_request));
    }

    /// Sets the signing string itself. No memory is taken.
    pub fn pre_generated_signing_string(&mut self, signing_string: &'a str)
        ensures { draft_of self.new ≡ record (draft_of self.old) { way = Some (given_as signing_string.now) } }
    {
        self.way = Some(Way::Given(signing_string));
    }

    /// Sets the flag: signatures are then unpadded base64url. No memory is taken.
    pub fn legacy(&mut self)
        ensures { draft_of self.new ≡ record (draft_of self.old) { legacy = true } }
    {
        self.legacy = true;
    }

    /// Builds a signature: the name of the key, the parts that are covered with `created` and `expires`, the algorithm,
    /// and the base64 text, in the form of the flag, of what the provider's `sign` gives for the signing string.
    ///
    /// With a request the parts are the builder's, in the order in which they were covered, and the signing string has
    /// a line for each. With a signing string that was given, its lines are those of `str::lines`; a line's key is its
    /// text before the first colon and names a part as `Header::from_text` has it, its value is the trimmed text up to
    /// the next colon, and the last of several numbers counts.
    ///
    /// In order: `MissingBuilderArgument` where `signature_method`, then `key_id`, then `signing_string_generation` wasn't
    /// set; with a signing string that was given, `BuilderHeadersProvidedWithPreGenerated` where the builder covers a part,
    /// then `InvalidSigningString` for the first line without a colon, or for `(created)` or `(expires)` without an optional
    /// `+` and digits whose value is in `u64`; with a request, `BuilderEmptyHeaders` where it covers none, then
    /// `SigningStringGeneration` where the request doesn't answer; `Signature` with `NoSignature` where there is none.
    ///
    /// Ok takes all that was set out of the builder, but the flag; a refusal takes nothing.
    pub fn build<P: KeyProvider>(
        &mut self,
        provider: &P,
    ) -> Result<HttpSignature, HttpSignatureError>
        ensures found { IfOk result (λ s. IsBuilt (P.sign_of provider.now) Q.answer Q.method Q.target (draft_of self.old) (reading_of s)) }
        ensures every { (r : Reading) → IsBuilt (P.sign_of provider.now) Q.answer Q.method Q.target (draft_of self.old) r → OkOrMemory reading_of http_fault result r }
        ensures first { Meets reading_of http_fault result (build_table (P.sign_of provider.now) Q.answer Q.method Q.target (draft_of self.old)) }
        ensures numbered { IfErr result (λ e. (parameter : List ℕ) → http_fault e ≢ Some (missing_parameter parameter)) }
        ensures accepted { IfOk result (λ s. IsAccepted (P.signs provider.now) (P.public_of provider.now) Q.answer Q.method Q.target (draft_of self.old) (reading_of s)) }
        ensures taken { OnOk result (draft_of self.new ≡ blank (draft_of self.old).legacy) }
        ensures kept { OnErr result (self.new ≡ self.old) }
    {
        match self.make(provider) {
            Ok(signature) => {
                self.key_id = None;
                self.method = None;
                self.headers.clear();
                self.created = None;
                self.expires = None;
                self.way = None;
                Ok(signature)
            }
            Err(e) => Err(e),
        }
    }

    // The signature, with nothing taken.
    #[tactic(auto, unfolding(crate::specs::Building::build_table))]
    fn make<P: KeyProvider>(&self, provider: &P) -> Result<HttpSignature, HttpSignatureError>
        ensures { Meets reading_of http_fault result (build_table (P.sign_of provider.now) Q.answer Q.method Q.target (draft_of self.entry.now)) }
    {
        let Some(method) = &self.method else {
            return Err(HttpSignatureError::MissingBuilderArgument {
                arg: "signature_method",
            });
        };
        let Some(key_id) = &self.key_id else {
            return Err(HttpSignatureError::MissingBuilderArgument { arg: "key_id" });
        };
        let Some(way) = &self.way else {
            return Err(HttpSignatureError::MissingBuilderArgument {
                arg: "signing_string_generation",
            });
        };
        match self.content(way) {
            Ok(content) => self.value(provider, method, key_id, content),
            Err(e) => Err(e),
        }
    }

    // The signature, where it is known what is covered and signed.
    #[tactic(auto, unfolding(crate::specs::Building::value_table))]
    fn value<P: KeyProvider>(
        &self,
        provider: &P,
        method: &SigningMethod<'a>,
        key_id: &str,
        content: Content<'a>,
    ) -> Result<HttpSignature, HttpSignatureError>
        ensures { Meets reading_of http_fault result (value_table (P.sign_of provider.now) (by_of method.now) key_id.now (content_of content.entry) self.entry.now.legacy) }
    {
        let Content {
            headers,
            created,
            expires,
            message,
        } = content;
        match spelled(self.alloc, provider, method, message.as_str(), self.legacy) {
            Ok(text) => {
                let key_id = String::from_str(self.alloc, key_id)?;
                Ok(HttpSignature::with_form(
                    key_id,
                    headers,
                    created,
                    expires,
                    text,
                    Some(HttpSigAlgorithm::Known(method.algorithm)),
                    self.legacy,
                ))
            }
            Err(e) => Err(e),
        }
    }

    // What is covered and signed.
    fn content(&self, way: &Way<'a, Q>) -> Result<Content<'a>, HttpSignatureError>
        ensures { Meets content_of http_fault result (content_table Q.answer Q.method Q.target (draft_of self.entry.now) (origin_of way.now)) }
    {
        match way {
            Way::Given(text) => given_content(self.alloc, &self.headers, text),
            Way::FromRequest(request) => asked_content(
                self.alloc,
                &self.headers,
                *request,
                self.created,
                self.expires,
            ),
        }
    }
}
