// Bags, and their copies.
ghost use Rattle.std.specs.Prelude.{◌≡◌, IfOk};

use picky_asn1_oid::ObjectIdentifier;
use picky_asn1_wrapper::Asn1SetOf;
use picky_der::Asn1RawDer;
use picky_x509_bags::{
    CertificateBag, EncryptedKeyBag, Pkcs12Attribute, SecretBag, copy_attributes,
};
use sqlite_items::Items;
use std::alloc::{AllocError, Global};

/// A bag: what it holds, and what is said of it (RFC 7292 section 4.2).
#[cycle(bag)]
#[derive(Debug, Drop)]
pub struct SafeBag {
    /// What it holds.
    pub kind: SafeBagKind,
    /// What is said of it, where a set stands there.
    pub attributes: Option<Asn1SetOf<Pkcs12Attribute>>,
}

/// What a bag holds (RFC 7292 sections 4.2.1 to 4.2.6).
#[cycle(bag)]
#[derive(Debug, Drop)]
pub enum SafeBagKind {
    /// A private key, keyBag, as one value.
    Key(Asn1RawDer),
    /// An encrypted private key, pkcs8ShroudedKeyBag.
    EncryptedKey(EncryptedKeyBag),
    /// A certificate, certBag.
    Certificate(CertificateBag),
    /// A list of revoked certificates, crlBag, as one value.
    Crl(Asn1RawDer),
    /// A secret, secretBag.
    Secret(SecretBag),
    /// Bags, safeContentsBag.
    SafeContents(Items<SafeBag>),
    /// Anything else.
    Unknown {
        /// Its identifier, none of the above.
        type_id: ObjectIdentifier,
        /// The value.
        value: Asn1RawDer,
    },
}

#[cycle(copy)]
fn copy_bags(alloc: Global, bags: &[SafeBag]) -> Result<Vec<SafeBag>, AllocError>
    ensures { IfOk result (λ copies. copies.items ≡ bags.now) }
{
    let mut copies = Vec::new(alloc);
    for bag in bags {
        copies.push(bag.clone(alloc)?)?;
    }
    Ok(copies)
}

#[cycle(copy)]
fn copy_kind(alloc: Global, kind: &SafeBagKind) -> Result<SafeBagKind, AllocError>
    ensures { IfOk result (λ copy. copy ≡ kind.now) }
{
    match kind {
        SafeBagKind::Key(key) => Ok(SafeBagKind::Key(key.clone(alloc)?)),
        SafeBagKind::EncryptedKey(bag) => Ok(SafeBagKind::EncryptedKey(bag.clone(alloc)?)),
        SafeBagKind::Certificate(bag) => Ok(SafeBagKind::Certificate(bag.clone(alloc)?)),
        SafeBagKind::Crl(crl) => Ok(SafeBagKind::Crl(crl.clone(alloc)?)),
        SafeBagKind::Secret(bag) => Ok(SafeBagKind::Secret(bag.clone(alloc)?)),
        SafeBagKind::SafeContents(bags) => Ok(SafeBagKind::SafeContents(Items::from_vec(copy_bags(
            alloc,
            bags.as_slice(),
        )?))),
        SafeBagKind::Unknown { type_id, value } => Ok(SafeBagKind::Unknown {
            type_id: type_id.clone(alloc)?,
            value: value.clone(alloc)?,
        }),
    }
}

impl SafeBag {
    /// A copy, in memory of its own.
    #[cycle(copy)]
    pub fn clone(&self, alloc: Global) -> Result<SafeBag, AllocError>
        ensures { IfOk result (λ copy. copy ≡ self.now) }
    {
        let attributes = copy_attributes(alloc, &self.attributes)?;
        let kind = copy_kind(alloc, &self.kind)?;
        Ok(SafeBag { kind, attributes })
    }
}
