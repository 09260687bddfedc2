//! Laws of rings: each is the contract of a function without a body.
ghost use Rattle.std.specs.Prelude.{◌≡◌, List, Some, IsTrue};
ghost use Rattle.picky_key_der.specs.declared.public.PublicKeyKind.{PublicKeyKind};
ghost use Rattle.picky_key.specs.declared.algorithm.SignatureAlgorithm.{SignatureAlgorithm};
ghost use Rattle.picky_key.specs.Family.{is_of_family};
ghost use Rattle.picky_jwk_key.specs.Keys.{Key};
ghost use Rattle.picky_jwk_key.specs.Public.{KeyOfJwk};
ghost use Rattle.picky_jwk.specs.Jwk.{Jwk};
ghost use Rattle.picky_ring.specs.Algorithms.{default_of};
ghost use Rattle.picky_ring.specs.Ring.{RingOfJwks};
ghost use Rattle.picky_ring.specs.TextMap.{TextMap};
ghost use Rattle.picky_ring.specs.declared.ring.RingEntry.{RingEntry};

/// The algorithm of a key that names none is of its family, so such a key is never refused for its algorithm.
pub fn default_is_of_the_family()
    ensures { (k : Key) (p : PublicKeyKind) (a : SignatureAlgorithm) → KeyOfJwk k p → default_of k ≡ Some a → IsTrue (is_of_family a p) }
{}

/// A set has one ring at most.
pub fn ring_is_determined()
    ensures { (keys : List Jwk) (a b : TextMap RingEntry) → RingOfJwks keys a → RingOfJwks keys b → b ≡ a }
{}
