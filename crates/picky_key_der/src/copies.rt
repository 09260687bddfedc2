// Copies with an allocator.
ghost use Rattle.std.specs.Prelude.{◌≡◌};
ghost use Rattle.picky_key_der.specs.declared.algorithm.EcCurve.{EcCurve as SeenEcCurve};
ghost use Rattle.picky_key_der.specs.declared.algorithm.NamedEcCurve.{NamedEcCurve as SeenNamedEcCurve};
ghost use Rattle.picky_key_der.specs.declared.algorithm.EdAlgorithm.{EdAlgorithm as SeenEdAlgorithm};
ghost use Rattle.picky_key_der.specs.declared.algorithm.KeyFamily.{KeyFamily as SeenKeyFamily};
ghost use Rattle.picky_key_der.specs.declared.kind.PrivateKeyKind.{PrivateKeyKind as SeenPrivateKeyKind};
ghost use Rattle.picky_key_der.specs.declared.public.PublicKeyKind.{PublicKeyKind as SeenPublicKeyKind};

use crate::{
    EcCurve, EdAlgorithm, KeyFamily, NamedEcCurve, PrivateKeyKind, PublicKey, PublicKeyKind,
};
use picky_asn1_tag::{Asn1Value, CopyIn};
use std::alloc::{AllocError, Global};

impl Asn1Value for EcCurve {
    ghost Meaning = { SeenEcCurve };

    ghost meaning = { λ x. x };
}

impl CopyIn for EcCurve {
    fn copy_in(&self, _alloc: Global) -> Result<EcCurve, AllocError> {
        Ok(*self)
    }
}

impl Asn1Value for NamedEcCurve {
    ghost Meaning = { SeenNamedEcCurve };

    ghost meaning = { λ x. x };
}

impl CopyIn for NamedEcCurve {
    fn copy_in(&self, alloc: Global) -> Result<NamedEcCurve, AllocError> {
        self.clone(alloc)
    }
}

impl Asn1Value for EdAlgorithm {
    ghost Meaning = { SeenEdAlgorithm };

    ghost meaning = { λ x. x };
}

impl CopyIn for EdAlgorithm {
    fn copy_in(&self, _alloc: Global) -> Result<EdAlgorithm, AllocError> {
        Ok(*self)
    }
}

impl Asn1Value for KeyFamily {
    ghost Meaning = { SeenKeyFamily };

    ghost meaning = { λ x. x };
}

impl CopyIn for KeyFamily {
    fn copy_in(&self, _alloc: Global) -> Result<KeyFamily, AllocError> {
        Ok(*self)
    }
}

impl Asn1Value for PrivateKeyKind {
    ghost Meaning = { SeenPrivateKeyKind };

    ghost meaning = { λ x. x };
}

impl CopyIn for PrivateKeyKind {
    fn copy_in(&self, alloc: Global) -> Result<PrivateKeyKind, AllocError> {
        self.clone(alloc)
    }
}

impl Asn1Value for PublicKeyKind {
    ghost Meaning = { SeenPublicKeyKind };

    ghost meaning = { λ x. x };
}

impl CopyIn for PublicKeyKind {
    fn copy_in(&self, alloc: Global) -> Result<PublicKeyKind, AllocError> {
        self.clone(alloc)
    }
}

impl Asn1Value for PublicKey {
    ghost Meaning = { SeenPublicKeyKind };

    ghost meaning = { λ x. x };
}

impl CopyIn for PublicKey {
    fn copy_in(&self, alloc: Global) -> Result<PublicKey, AllocError> {
        self.clone(alloc)
    }
}
