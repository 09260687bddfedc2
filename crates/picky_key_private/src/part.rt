// Public parts of private keys.
ghost use Rattle.std.specs.Prelude.{◌≡◌, IfOk};
ghost use Rattle.picky_key_private.specs.Parts.{same_part};

use picky_key_der::PublicKey;
use std::alloc::{AllocError, Global};

// A copy of the part.
pub fn copy_part(alloc: Global, part: &Option<PublicKey>) -> Result<Option<PublicKey>, AllocError>
    ensures { IfOk result (λ copy. copy ≡ part.now) }
{
    match part {
        Some(part) => Ok(Some(part.clone(alloc)?)),
        None => Ok(None),
    }
}

// Whether both are one public key, or neither is there.
pub fn same_part(part: &Option<PublicKey>, other: &Option<PublicKey>) -> bool
    ensures { result ≡ same_part part.now other.now }
{
    match (part, other) {
        (Some(part), Some(other)) => part.same(other),
        (None, None) => true,
        _ => false,
    }
}
