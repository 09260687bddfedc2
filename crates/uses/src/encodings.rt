// Values read whole, and written again.
ghost use Rattle.std.specs.Prelude.{◌≡◌, ◌⊎◌, ◌<◌, IfOk, IfErr};
ghost use Rattle.picky_der.specs.declared.fault.DerError.TheVariants.{OutOfMemory};
ghost use Rattle.uses.specs.Encodings.{IsSpelled};

use picky_asn1_oid::ObjectIdentifier;
use picky_der::{DerError, DerRead, DerWrite, from_bytes, to_vec};
use std::alloc::Global;

/// The encoding of the value that the bytes spell, all of them.
pub fn rewritten<T: DerRead + DerWrite + Drop>(
    alloc: Global,
    bytes: &[u8],
) -> Result<Vec<u8>, DerError>
    ensures found { IfOk result (λ v. (x : T.Abstract) × IsSpelled T.form bytes.now x × IsSpelled T.form v.items x) }
    ensures every { (x : T.Abstract) → (s : IsSpelled T.form bytes.now x) → IfErr result (λ e. (e ≡ OutOfMemory) ⊎ (256 < T.form.height bytes.now x s.1)) }
{
    let value: T = from_bytes(alloc, bytes)?;
    to_vec(alloc, &value)
}

/// An identifier has one spelling: what is written are the same bytes.
pub fn identifier_again(alloc: Global, bytes: &[u8]) -> Result<Vec<u8>, DerError>
    ensures { IfOk result (λ v. v.items ≡ bytes.now) }
{
    rewritten::<ObjectIdentifier>(alloc, bytes)
}
