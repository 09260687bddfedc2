// Copies with an allocator.
ghost use Rattle.std.specs.Prelude.{◌≡◌};
ghost use Rattle.picky_key_private.specs.declared.private.PrivateKey.{PrivateKey as SeenKey};

use crate::PrivateKey;
use picky_asn1_tag::{Asn1Value, CopyIn};
use std::alloc::{AllocError, Global};

impl Asn1Value for PrivateKey {
    ghost Meaning = { SeenKey };

    ghost meaning = { λ k. k };
}

impl CopyIn for PrivateKey {
    fn copy_in(&self, alloc: Global) -> Result<PrivateKey, AllocError> {
        self.clone(alloc)
    }
}
