//! What is proved of keys and signatures beside their calls.

ghost use Rattle.picky_fields.specs.laws.Identifiers.{Known};
ghost use Rattle.picky_key_der.specs.Ecdsa.{ComesBack};
ghost use Rattle.picky_key_der.specs.Grammar.{WrittenIsKey};
ghost use Rattle.picky_key_der.specs.Identifiers as names;
ghost use Rattle.picky_key_der.specs.declared.algorithm.TheConstants as octets;

/// A pair of numbers, at least zero and in their shortest spellings, whose bytes are at most the size, goes to the fixed
/// size and back unchanged.
pub fn ecdsa_pairs_come_back()
    ensures { ComesBack }
{}

/// What is written of a key is a SubjectPublicKeyInfo of it, so that `from_der` gives back the key that `to_der` wrote.
pub fn written_keys_are_read()
    ensures { WrittenIsKey }
{}

/// The octets by which algorithms and curves are told are those of the identifiers with these arcs.
pub fn identifiers_are_known()
    ensures rsa_encryption { Known names.rsa_encryption octets.RSA_ENCRYPTION }
    ensures ec_public_key { Known names.ec_public_key octets.EC_PUBLIC_KEY }
    ensures x25519 { Known names.x25519 octets.X25519_ALGORITHM }
    ensures ed25519 { Known names.ed25519 octets.ED25519_ALGORITHM }
    ensures secp256r1 { Known names.secp256r1 octets.SECP256R1 }
    ensures secp384r1 { Known names.secp384r1 octets.SECP384R1 }
    ensures secp521r1 { Known names.secp521r1 octets.SECP521R1 }
{}
