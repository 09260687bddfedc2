// The types of the containers of PKCS #12, by their names.
use crate::bad_row;
use crate::store::value;
use anyhow::Result;
use picky_asn1_wrapper::{Asn1SequenceOf, Asn1SetOf};
use picky_asn1_x509::{
    CertificateBag, DigestInfo, EncryptedKeyBag, EncryptedSafeContents, MacData, Pbes1Params,
    Pbes2Kdf, Pbes2Params, Pbes2Scheme, Pbkdf2Params, Pbkdf2Prf, Pbkdf2Salt, Pkcs12Attribute,
    Pkcs12DigestAlgorithm, Pkcs12EncryptionAlgorithm, RawAuthenticatedSafe, RawPfx,
    SafeContentsInfo, SecretBag,
};
use picky_der::Asn1RawDer;
use rows::{Answer, Words};
use std::alloc::Global;

// Algorithms, and what stands in a container.
pub(crate) fn answer(alloc: Global, call: &str, words: &mut Words<'_>) -> Result<Answer> {
    match words.next() {
        "digest" => value::<Pkcs12DigestAlgorithm>(alloc, call, words),
        "prf" => value::<Pbkdf2Prf>(alloc, call, words),
        "salt" => value::<Pbkdf2Salt>(alloc, call, words),
        "pbkdf2" => value::<Pbkdf2Params>(alloc, call, words),
        "kdf" => value::<Pbes2Kdf>(alloc, call, words),
        "scheme" => value::<Pbes2Scheme>(alloc, call, words),
        "pbes1" => value::<Pbes1Params>(alloc, call, words),
        "pbes2" => value::<Pbes2Params>(alloc, call, words),
        "encryption" => value::<Pkcs12EncryptionAlgorithm>(alloc, call, words),
        name => answer_of_container(alloc, name, call, words),
    }
}

// Containers, what bags hold, and parts of a store over bags of any kind.
fn answer_of_container(
    alloc: Global,
    name: &str,
    call: &str,
    words: &mut Words<'_>,
) -> Result<Answer> {
    match name {
        "encrypted" => value::<EncryptedSafeContents>(alloc, call, words),
        "digest_info" => value::<DigestInfo>(alloc, call, words),
        "mac" => value::<MacData>(alloc, call, words),
        "safe" => value::<RawAuthenticatedSafe>(alloc, call, words),
        "pfx" => value::<RawPfx>(alloc, call, words),
        "attribute" => value::<Pkcs12Attribute>(alloc, call, words),
        "attributes" => value::<Asn1SetOf<Pkcs12Attribute>>(alloc, call, words),
        "certificate" => value::<CertificateBag>(alloc, call, words),
        "secret" => value::<SecretBag>(alloc, call, words),
        "encrypted_key" => value::<EncryptedKeyBag>(alloc, call, words),
        "part" => value::<SafeContentsInfo<Asn1SequenceOf<Asn1RawDer>>>(alloc, call, words),
        _ => bad_row("no such type"),
    }
}
