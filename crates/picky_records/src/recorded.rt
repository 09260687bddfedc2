// The provider that answers from recorded lines.
ghost use Rattle.std.specs.Prelude.{◌≡◌, ◌↔◌, IsTrue, IsOk, IfOk, option_map, option_copied};
ghost use Rattle.picky_records.specs.Lines.{are_sound};

use crate::ask::{
    first_ephemeral, first_pair, first_secret, first_signature, first_unwrapped, first_wrapped,
    is_signed,
};
use crate::read::lines_of;
use crate::{Line, RecordFault};
use picky_contract::Bytes;
use picky_key::{
    Ephemeral, KeyProvider, PrivateKey, ProviderFault, PublicKey, SignatureAlgorithm, WrapScheme,
};
use std::alloc::{AllocError, Global};

/// The provider of a records document: its lines, of which none conflicts with another.
#[derive(Debug, Drop)]
pub struct Recorded {
    lines: Vec<Line>,
    pub ghost sound: { IsTrue (are_sound lines.items) },
}

// The bytes, copied.
fn copied(alloc: Global, bytes: Option<&Bytes>) -> Result<Option<Vec<u8>>, AllocError>
    ensures { IfOk result (λ r. option_map (λ v. v.items) r ≡ option_copied bytes.entry) }
{
    match bytes {
        Some(bytes) => Ok(Some(Vec::from_slice(alloc, bytes.as_slice())?)),
        None => Ok(None),
    }
}

impl KeyProvider for Recorded {
    ghost use Rattle.picky_records.specs.Meanings.{signs_by, public_by, unwrap_by, agree_by, sign_by, wrap_by, ephemeral_by};
    ghost use Rattle.picky_records.specs.laws.Laws.{signs_in_family_lem, sign_signs_lem, sign_fits_lem, own_part_lem, public_of_kind_lem, unwraps_lem, agrees_lem, ephemeral_kind_lem, ephemeral_curve_lem};

    ghost signs = { λ p. signs_by p.lines.items };

    ghost public_of = { λ p. public_by p.lines.items };

    ghost unwrap = { λ p. unwrap_by p.lines.items };

    ghost agree = { λ p. agree_by p.lines.items };

    ghost sign_of = { λ p. sign_by p.lines.items };

    ghost wrap_of = { λ p. wrap_by p.lines.items };

    ghost ephemeral_of = { λ p. ephemeral_by p.lines.items };

    ghost signs_in_family = { λ p. signs_in_family_lem p.lines.items p.sound };

    ghost sign_signs = { λ p. sign_signs_lem p.lines.items };

    ghost sign_fits = { λ p. sign_fits_lem p.lines.items p.sound };

    ghost own_part = { λ p. own_part_lem p.lines.items };

    ghost public_of_kind = { λ p. public_of_kind_lem p.lines.items p.sound };

    ghost unwraps = { λ p. unwraps_lem p.lines.items p.sound };

    ghost agrees = { λ p. agrees_lem p.lines.items p.sound };

    ghost ephemeral_kind = { λ p. ephemeral_kind_lem p.lines.items p.sound };

    ghost ephemeral_curve = { λ p. ephemeral_curve_lem p.lines.items p.sound };

    /// Takes no memory.
    fn verify(
        &self,
        _alloc: Global,
        key: &PublicKey,
        algorithm: SignatureAlgorithm,
        message: &[u8],
        signature: &[u8],
    ) -> Result<bool, ProviderFault>
        ensures answers { IfOk result (λ holds. IsTrue holds ↔ signs_by self.now.lines.items key.now algorithm message.now signature.now) }
        ensures no_memory { IsOk result }
    {
        Ok(is_signed(&self.lines, key, algorithm, message, signature))
    }

    fn sign(
        &self,
        alloc: Global,
        key: &PrivateKey,
        algorithm: SignatureAlgorithm,
        message: &[u8],
    ) -> Result<Option<Vec<u8>>, ProviderFault> {
        let Some(public) = self.public(key) else {
            return Ok(None);
        };
        let signature = first_signature(&self.lines, public, algorithm, message);
        Ok(copied(alloc, signature)?)
    }

    fn public_key_of(
        &self,
        alloc: Global,
        key: &PrivateKey,
    ) -> Result<Option<PublicKey>, ProviderFault> {
        match self.public(key) {
            Some(public) => Ok(Some(public.clone(alloc)?)),
            None => Ok(None),
        }
    }

    fn unwrap_key(
        &self,
        alloc: Global,
        key: &PrivateKey,
        scheme: WrapScheme,
        wrapped: &[u8],
    ) -> Result<Option<Vec<u8>>, ProviderFault> {
        let Some(public) = self.public(key) else {
            return Ok(None);
        };
        let content_key = first_unwrapped(&self.lines, scheme, public, wrapped);
        Ok(copied(alloc, content_key)?)
    }

    fn wrap_key(
        &self,
        alloc: Global,
        key: &PublicKey,
        scheme: WrapScheme,
        _seed: &[u8; 32],
        content_key: &[u8],
    ) -> Result<Option<Vec<u8>>, ProviderFault> {
        let wrapped = first_wrapped(&self.lines, scheme, key, content_key);
        Ok(copied(alloc, wrapped)?)
    }

    fn agree(
        &self,
        alloc: Global,
        key: &PrivateKey,
        peer: &PublicKey,
    ) -> Result<Option<Vec<u8>>, ProviderFault> {
        let Some(public) = self.public(key) else {
            return Ok(None);
        };
        let secret = first_secret(&self.lines, public, peer);
        Ok(copied(alloc, secret)?)
    }

    fn ephemeral(
        &self,
        alloc: Global,
        receiver: &PublicKey,
        _seed: &[u8; 32],
    ) -> Result<Option<Ephemeral>, ProviderFault> {
        match first_ephemeral(&self.lines, receiver) {
            Some((epk, secret)) => Ok(Some(Ephemeral {
                epk: epk.clone(alloc)?,
                secret: Vec::from_slice(alloc, secret.as_slice())?,
            })),
            None => Ok(None),
        }
    }
}

impl Recorded {
    ghost use Rattle.std.specs.Prelude.{List};
    ghost use Rattle.picky_contract.specs.Refusals.{Meets, OkOrMemory};
    ghost use Rattle.picky_records.specs.declared.line.Line.{Line};
    ghost use Rattle.picky_records.specs.Reading.{fault, records_table};
    ghost use Rattle.picky_records.specs.Records.{AreRecords, RecordsOf, provider_of};
    ghost use Rattle.picky_records.specs.Meanings.{public_by};

    /// Reads a records document: UTF-8 lines, each ended by LF, their fields parted by one space and their byte fields strict
    /// unpadded base64url. The empty document has no lines. A line is one of
    ///
    /// - `sig ALG SPKI MESSAGE SIGNATURE`: the message is signed by the signature. ALG is `rsa-` or `ecdsa-` and a hash, as
    ///   `rsa-sha256`, or `ed25519-sha512`. The signature isn't empty; for ECDSA it is the DER of a pair of numbers (RFC 3279
    ///   section 2.2.3) that are at least zero and, for a key on a known curve, fit the curve's field.
    /// - `pair PKCS8 SPKI`: the two keys are a pair.
    /// - `unwrap SCHEME PKCS8 WRAPPED CEK`: the wrapped key is the content key. SCHEME is `RSA1_5`, `RSA-OAEP` or
    ///   `RSA-OAEP-256`.
    /// - `agree SPKI SPKI SECRET`: the two keys agree on the secret.
    ///
    /// The refusal speaks of the first bad line, by its number from 1. `BadLine` where it is of no form, a key in it can't be
    /// read, or it lacks its LF; else `Family` where the algorithm isn't of the key's family, the keys of a pair aren't both
    /// RSA, on one curve or of one Edwards algorithm, the key of an `unwrap` line isn't RSA, or those of an `agree` line
    /// aren't on one known curve or both X25519; else `Conflict` where the private key of a pair has another public part, or
    /// an earlier line answers the same question otherwise: another public key of a private key, another content key for the
    /// scheme, wrapped key and public part, another secret of the two keys, in either order.
    pub fn read(alloc: Global, text: &str) -> Result<Recorded, RecordFault>
        ensures found { IfOk result (λ r. RecordsOf text.now (provider_of r.lines.items)) }
        ensures every { (ls : List Line) → AreRecords text.now ls → OkOrMemory (λ r. r.lines.items) fault result ls }
        ensures first { Meets (λ r. r.lines.items) fault result (records_table text.now) }
    {
        let lines = lines_of(alloc, text)?;
        Ok(Recorded { lines })
    }

    // The public key of the private key.
    fn public<'a>(&'a self, key: &'a PrivateKey) -> Option<&'a PublicKey>
        ensures { option_copied result ≡ public_by self.now.lines.items key.now }
    {
        match key.public_part() {
            Some(part) => Some(part),
            None => first_pair(&self.lines, key),
        }
    }
}
