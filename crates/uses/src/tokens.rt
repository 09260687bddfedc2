// Tokens whose claims are taken.
ghost use Rattle.std.specs.Prelude.{IfOk};
ghost use Rattle.serde_json.specs.View.{view};
ghost use Rattle.picky_contract.specs.Refusals.{Meets};
ghost use Rattle.picky_records.specs.Meanings.{signs_by};
ghost use Rattle.picky_jose.specs.Faults.{jwt_fault};
ghost use Rattle.uses.specs.Accepted.{Accepted, accepted_table, date_at};

use picky_jose::{JwtDate, JwtError, JwtSig, JwtValidator, RawJws};
use picky_key::{KeyProvider, PublicKey};
use picky_records::Recorded;
use serde_json::Value;
use std::alloc::Global;
use std::borrow::CowStr;

/// The claims of a token whose signature holds under the key, at a moment in seconds that its dates
/// allow, 30 seconds aside.
///
/// A refusal is that of the first condition that fails.
pub fn accepted_claims<P: KeyProvider>(
    alloc: Global,
    text: &str,
    provider: &P,
    key: &PublicKey,
    now: i64,
) -> Result<Value, JwtError>
    ensures found { IfOk result (λ claims. Accepted (P.signs provider.now) key.now (date_at now) text.now (view claims)) }
    ensures first { Meets view jwt_fault result (accepted_table (P.signs provider.now) key.now (date_at now) text.now) }
{
    let token = RawJws::decode(alloc, CowStr::Borrowed(text))?;
    let token = token.verify(alloc, provider, key)?;
    let date = JwtDate::new_with_leeway(now, 30);
    let token = JwtSig::from(token).validate::<Value>(alloc, &JwtValidator::lenient(date))?;
    Ok(token.state.claims)
}

/// The same by the signatures of a records document.
pub fn recorded_claims(
    alloc: Global,
    text: &str,
    records: &Recorded,
    key: &PublicKey,
    now: i64,
) -> Result<Value, JwtError>
    ensures found { IfOk result (λ claims. Accepted (signs_by records.now.lines.items) key.now (date_at now) text.now (view claims)) }
    ensures first { Meets view jwt_fault result (accepted_table (signs_by records.now.lines.items) key.now (date_at now) text.now) }
{
    accepted_claims(alloc, text, records, key, now)
}
