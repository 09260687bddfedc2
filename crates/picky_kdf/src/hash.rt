//! The five hash functions as one.

ghost use Rattle.std.specs.Prelude.{◌≡◌, ⊤, ℕ, List, [], ◌++◌, take};
ghost use Rattle.picky_kdf.specs.Hash.{block_size, digest, digest_size};

use sha2::Digest;

/// A hash function of FIPS 180-4 that a PKCS #12 store may name.
#[derive(Clone, Copy, PartialEq, Eq, Debug)]
pub enum Pkcs12HashAlgorithm {
    /// SHA-1: 20 bytes, in blocks of 64 bytes.
    Sha1,
    /// SHA-224: 28 bytes, in blocks of 64 bytes.
    Sha224,
    /// SHA-256: 32 bytes, in blocks of 64 bytes.
    Sha256,
    /// SHA-384: 48 bytes, in blocks of 128 bytes.
    Sha384,
    /// SHA-512: 64 bytes, in blocks of 128 bytes.
    Sha512,
}

impl Pkcs12HashAlgorithm {
    // The bytes of a hash.
    pub(crate) fn digest_size(self) -> usize
        ensures { result ≡ digest_size self }
    {
        match self {
            Pkcs12HashAlgorithm::Sha1 => 20,
            Pkcs12HashAlgorithm::Sha224 => 28,
            Pkcs12HashAlgorithm::Sha256 => 32,
            Pkcs12HashAlgorithm::Sha384 => 48,
            Pkcs12HashAlgorithm::Sha512 => 64,
        }
    }

    // The bytes of a block, which are hashed at a time.
    pub(crate) fn block_size(self) -> usize
        ensures { result ≡ block_size self }
    {
        match self {
            Pkcs12HashAlgorithm::Sha1 | Pkcs12HashAlgorithm::Sha224 | Pkcs12HashAlgorithm::Sha256 =>
                64,
            Pkcs12HashAlgorithm::Sha384 | Pkcs12HashAlgorithm::Sha512 => 128,
        }
    }
}

// A clone of a value whose clone does not fail.
fn copied<T: Clone>(value: &T) -> T
    requires { T.is_infallible value.now }
    ensures { T.is_clone value.now result }
{
    value.clone().unwrap()
}

// A hasher of any of the five functions.
#[derive(Drop)]
pub(crate) enum Hasher {
    Sha1(sha1::Sha1),
    Sha224(sha2::Sha224),
    Sha256(sha2::Sha256),
    Sha384(sha2::Sha384),
    Sha512(sha2::Sha512),
}

impl Hasher {
    ghost use Rattle.picky_kdf.specs.declared.hash.Pkcs12HashAlgorithm.{Pkcs12HashAlgorithm};
    ghost use Rattle.picky_kdf.specs.Hasher.{IsHolding};

    pub(crate) fn new(hash: Pkcs12HashAlgorithm) -> Hasher
        ensures { IsHolding hash result [] }
    {
        match hash {
            Pkcs12HashAlgorithm::Sha1 => Hasher::Sha1(sha1::Sha1::new()),
            Pkcs12HashAlgorithm::Sha224 => Hasher::Sha224(sha2::Sha224::new()),
            Pkcs12HashAlgorithm::Sha256 => Hasher::Sha256(sha2::Sha256::new()),
            Pkcs12HashAlgorithm::Sha384 => Hasher::Sha384(sha2::Sha384::new()),
            Pkcs12HashAlgorithm::Sha512 => Hasher::Sha512(sha2::Sha512::new()),
        }
    }

    // Another hasher of the same message.
    pub(crate) fn copied(&self) -> Hasher
        ensures { result ≡ self.now }
    {
        match self {
            Hasher::Sha1(hasher) => Hasher::Sha1(copied(hasher)),
            Hasher::Sha224(hasher) => Hasher::Sha224(copied(hasher)),
            Hasher::Sha256(hasher) => Hasher::Sha256(copied(hasher)),
            Hasher::Sha384(hasher) => Hasher::Sha384(copied(hasher)),
            Hasher::Sha512(hasher) => Hasher::Sha512(copied(hasher)),
        }
    }

    // Adds `text` to the message.
    pub(crate) fn update(&mut self, text: &[u8])
        ensures { (hash : Pkcs12HashAlgorithm) → (message : List ℕ)
            → IsHolding hash self.old message → IsHolding hash self.new (message ++ text.now) }
    {
        match self {
            Hasher::Sha1(hasher) => hasher.update(text),
            Hasher::Sha224(hasher) => hasher.update(text),
            Hasher::Sha256(hasher) => hasher.update(text),
            Hasher::Sha384(hasher) => hasher.update(text),
            Hasher::Sha512(hasher) => hasher.update(text),
        }
    }

    // The hash of the message with `text` after it, in the front of an array.
    pub(crate) fn hash_after(&self, text: &[u8]) -> [u8; 64]
        ensures { (hash : Pkcs12HashAlgorithm) → (message : List ℕ)
            → IsHolding hash self.now message
            → take (digest_size hash) result ≡ digest hash (message ++ text.now) }
    {
        let mut out = [0; 64];
        match self {
            Hasher::Sha1(hasher) => out[..20].copy_from_slice(&hasher.hash_after(text)),
            Hasher::Sha224(hasher) => out[..28].copy_from_slice(&hasher.hash_after(text)),
            Hasher::Sha256(hasher) => out[..32].copy_from_slice(&hasher.hash_after(text)),
            Hasher::Sha384(hasher) => out[..48].copy_from_slice(&hasher.hash_after(text)),
            Hasher::Sha512(hasher) => out[..64].copy_from_slice(&hasher.hash_after(text)),
        }
        out
    }
}

// The hasher of a hash function whose hashes have `N` bytes. A loop over one such type takes less
// time than one that asks at each step which of the five it is.
pub(crate) trait HashFunction<const N: usize> {
    ghost use Rattle.picky_kdf.specs.declared.hash.Pkcs12HashAlgorithm.{Pkcs12HashAlgorithm};

    // Which of the five it is.
    ghost function: { Pkcs12HashAlgorithm };

    // The hasher holds this message.
    ghost holds: { Self → List ℕ → Type 0 };

    // The hash of a hash.
    fn rehashed(last: &[u8; N]) -> [u8; N]
        ensures { result ≡ digest function last.now };

    // The hash of the message with `text` after it.
    fn hash_after(&self, text: &[u8]) -> [u8; N]
        ensures { (message : List ℕ) → holds self.now message
            → result ≡ digest function (message ++ text.now) };
}

impl HashFunction<20> for sha1::Sha1 {
    ghost use Rattle.picky_kdf.specs.declared.hash.Pkcs12HashAlgorithm.TheVariants.{Sha1};
    ghost use Rattle.sha1.specs.Sha1.{Holds};

    ghost function = { Sha1 };

    ghost holds = { Holds };

    fn rehashed(last: &[u8; 20]) -> [u8; 20] {
        sha1::Sha1::digest(last)
    }

    #[inline(always)]
    fn hash_after(&self, text: &[u8]) -> [u8; 20] {
        let mut hasher = copied(self);
        hasher.update(text);
        hasher.finalize()
    }
}

impl HashFunction<28> for sha2::Sha224 {
    ghost use Rattle.picky_kdf.specs.declared.hash.Pkcs12HashAlgorithm.TheVariants.{Sha224};
    ghost use Rattle.sha2.specs.Hashers.{Holds224};

    ghost function = { Sha224 };

    ghost holds = { Holds224 };

    fn rehashed(last: &[u8; 28]) -> [u8; 28] {
        sha2::Sha224::digest(last)
    }

    #[inline(always)]
    fn hash_after(&self, text: &[u8]) -> [u8; 28] {
        let mut hasher = copied(self);
        hasher.update(text);
        hasher.finalize()
    }
}

impl HashFunction<32> for sha2::Sha256 {
    ghost use Rattle.picky_kdf.specs.declared.hash.Pkcs12HashAlgorithm.TheVariants.{Sha256};
    ghost use Rattle.sha2.specs.Hashers.{Holds256};

    ghost function = { Sha256 };

    ghost holds = { Holds256 };

    fn rehashed(last: &[u8; 32]) -> [u8; 32] {
        sha2::Sha256::digest(last)
    }

    #[inline(always)]
    fn hash_after(&self, text: &[u8]) -> [u8; 32] {
        let mut hasher = copied(self);
        hasher.update(text);
        hasher.finalize()
    }
}

impl HashFunction<48> for sha2::Sha384 {
    ghost use Rattle.picky_kdf.specs.declared.hash.Pkcs12HashAlgorithm.TheVariants.{Sha384};
    ghost use Rattle.sha2.specs.Hashers.{Holds384};

    ghost function = { Sha384 };

    ghost holds = { Holds384 };

    fn rehashed(last: &[u8; 48]) -> [u8; 48] {
        sha2::Sha384::digest(last)
    }

    #[inline(always)]
    fn hash_after(&self, text: &[u8]) -> [u8; 48] {
        let mut hasher = copied(self);
        hasher.update(text);
        hasher.finalize()
    }
}

impl HashFunction<64> for sha2::Sha512 {
    ghost use Rattle.picky_kdf.specs.declared.hash.Pkcs12HashAlgorithm.TheVariants.{Sha512};
    ghost use Rattle.sha2.specs.Hashers.{Holds512};

    ghost function = { Sha512 };

    ghost holds = { Holds512 };

    fn rehashed(last: &[u8; 64]) -> [u8; 64] {
        sha2::Sha512::digest(last)
    }

    #[inline(always)]
    fn hash_after(&self, text: &[u8]) -> [u8; 64] {
        let mut hasher = copied(self);
        hasher.update(text);
        hasher.finalize()
    }
}
