//! Laws of keys: each is the contract of a function without a body.
ghost use Rattle.std.specs.Prelude.{◌≡◌};
ghost use Rattle.picky_key_der.specs.declared.public.PublicKeyKind.{PublicKeyKind};
ghost use Rattle.picky_jwk_key.specs.Back.{ComeBack};
ghost use Rattle.picky_jwk_key.specs.Keys.{Key};
ghost use Rattle.picky_jwk_key.specs.Public.{KeyOfJwk};

/// What a JSON Web Key holds tells one public key at most.
pub fn key_is_determined()
    ensures { (k : Key) (p q : PublicKeyKind) → KeyOfJwk k p → KeyOfJwk k q → q ≡ p }
{}

/// What `from_public_key` makes of an RSA key with numbers of at least zero in their shortest spellings, of a key with an
/// uncompressed point, or of an Ed25519 or X25519 key, has that key as its public key, and no other.
pub fn public_keys_come_back()
    ensures { ComeBack }
{}
