// What lines are looked up by: lines that ask the same have the same.
ghost use Rattle.std.specs.Prelude.{◌≡◌, ◌++◌, IfOk, OnOk, option_map};
ghost use Rattle.picky_records.specs.Questions.{sized, curve_key, public_key, pair_key, unwrap_key, agree_key, ed_number, question_of};
ghost use Rattle.picky_records.specs.Same.{scheme_number};

use crate::Line;
use picky_contract::Bytes;
use picky_key::{EdAlgorithm, NamedEcCurve, PublicKey, PublicKeyKind, WrapScheme};
use std::alloc::{AllocError, Global};

// Adds bytes with their length in front.
fn push_sized(out: &mut Vec<u8>, bytes: &[u8]) -> Result<(), AllocError>
    ensures { OnOk result (out.new.items ≡ out.old.items ++ sized bytes.now) }
{
    out.extend_from_slice(&(bytes.len() as u64).to_be_bytes())?;
    out.extend_from_slice(bytes)?;
    Ok(())
}

// Adds a curve.
fn push_curve(out: &mut Vec<u8>, curve: &NamedEcCurve) -> Result<(), AllocError>
    ensures { OnOk result (out.new.items ≡ out.old.items ++ curve_key curve.now) }
{
    match curve {
        NamedEcCurve::Known(curve) => {
            out.push(curve.field_bytes_size() as u8)?;
            Ok(())
        }
        NamedEcCurve::Unsupported(oid) => {
            out.push(0)?;
            push_sized(out, oid.contents())
        }
    }
}

// A number for each Edwards algorithm.
fn ed_number(algorithm: EdAlgorithm) -> u8
    ensures { result ≡ ed_number algorithm }
{
    match algorithm {
        EdAlgorithm::Ed25519 => 1,
        EdAlgorithm::X25519 => 2,
    }
}

// A number for each scheme.
fn scheme_number(scheme: WrapScheme) -> u8
    ensures { result ≡ scheme_number scheme }
{
    match scheme {
        WrapScheme::RsaPkcs1v15 => 1,
        WrapScheme::RsaOaep => 2,
        WrapScheme::RsaOaep256 => 3,
    }
}

// Adds what a public key is looked up by.
fn push_public(out: &mut Vec<u8>, key: &PublicKey) -> Result<(), AllocError>
    ensures { OnOk result (out.new.items ≡ out.old.items ++ public_key key.now) }
{
    match key.kind() {
        PublicKeyKind::Rsa {
            modulus,
            public_exponent,
        } => {
            out.push(1)?;
            push_sized(out, modulus.0.as_slice())?;
            push_sized(out, public_exponent.0.as_slice())
        }
        PublicKeyKind::Ec { curve, point } => {
            out.push(2)?;
            push_curve(out, curve)?;
            push_sized(out, point.as_slice())
        }
        PublicKeyKind::Ed { algorithm, bytes } => {
            out.push(3)?;
            out.push(ed_number(*algorithm))?;
            push_sized(out, bytes.as_slice())
        }
    }
}

// What the question of a `pair` line is looked up by.
fn pair_key(alloc: Global, pkcs8: &[u8]) -> Result<Bytes, AllocError>
    ensures { IfOk result (λ b. b ≡ pair_key pkcs8.now) }
{
    let mut out = Vec::new(alloc);
    out.push(1)?;
    out.extend_from_slice(pkcs8)?;
    Ok(Bytes::new(out))
}

// What the question of an `unwrap` line is looked up by.
fn unwrap_key(
    alloc: Global,
    scheme: WrapScheme,
    part: &PublicKey,
    wrapped: &[u8],
) -> Result<Bytes, AllocError>
    ensures { IfOk result (λ b. b ≡ unwrap_key scheme part.now wrapped.now) }
{
    let mut out = Vec::new(alloc);
    out.push(2)?;
    out.push(scheme_number(scheme))?;
    push_public(&mut out, part)?;
    out.extend_from_slice(wrapped)?;
    Ok(Bytes::new(out))
}

// What the question of an `agree` line is looked up by.
pub(crate) fn agree_key(
    alloc: Global,
    one: &PublicKey,
    other: &PublicKey,
) -> Result<Bytes, AllocError>
    ensures { IfOk result (λ b. b ≡ agree_key one.now other.now) }
{
    let mut out = Vec::new(alloc);
    out.push(3)?;
    push_public(&mut out, one)?;
    push_public(&mut out, other)?;
    Ok(Bytes::new(out))
}

// What a line is looked up by; `Ok(None)` exactly where it asks nothing.
pub(crate) fn question_of(alloc: Global, line: &Line) -> Result<Option<Bytes>, AllocError>
    ensures { IfOk result (λ q. q ≡ question_of line.now) }
{
    match line {
        Line::Sig { .. } => Ok(None),
        Line::Pair { private, .. } => Ok(Some(pair_key(alloc, private.to_pkcs8())?)),
        Line::Unwrap {
            scheme,
            private,
            wrapped,
            ..
        } => match private.public_part() {
            Some(part) => Ok(Some(unwrap_key(alloc, *scheme, part, wrapped.as_slice())?)),
            None => Ok(None),
        },
        Line::Agree { first, second, .. } => Ok(Some(agree_key(alloc, first, second)?)),
    }
}
