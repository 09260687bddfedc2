// The dates of claims (RFC 7519, sections 4.1.4 and 4.1.5).
ghost use Rattle.std.specs.Prelude.{◌≢◌, IfErr, None, codes};
ghost use Rattle.serde_json.specs.View.{view};
ghost use Rattle.picky_contract.specs.Refusals.{Meets};
ghost use Rattle.picky_json.specs.Tree.{member};
ghost use Rattle.picky_jose.specs.Claims.{dates_table, dated_table, nbf_table, start_table, exp_table, end_table};
ghost use Rattle.picky_jose.specs.Faults.{jwt_fault};

use crate::date::{ClaimCheck, JwtDate, JwtValidator};
use crate::error::JwtError;
use serde_json::Value;

// What is said of a validator by which a claim must be there, and which has no date.
pub(crate) const NO_DATE: &str = "current date is missing";

impl JwtValidator {
    /// Checks the dates of claims that were read: without a date none may be required, and none is looked at. With
    /// one, an `nbf` or `exp` that is ignored isn't looked at, one that is required is there, and one that is there is
    /// an integer in `i64`, and the validator's date is at or after `nbf` less the leeway, and before `exp` plus the
    /// leeway. Claims that aren't an object have neither. No memory is taken.
    ///
    /// In order: `InvalidValidator` where a claim is required and there is no date; of `nbf` `RequiredClaimMissing`,
    /// `InvalidRegisteredClaimType`, then `NotYetValid`; of `exp` `RequiredClaimMissing`,
    /// `InvalidRegisteredClaimType`, then `Expired`.
    pub fn check_dates(&self, claims: &Value) -> Result<(), JwtError>
        ensures first { Meets (λ u. u) jwt_fault result (dates_table self.now (view claims.now)) }
        ensures takes_none { IfErr result (λ e. jwt_fault e ≢ None) }
    {
        match self.date() {
            None if self.can_judge() => Ok(()),
            None => Err(JwtError::InvalidValidator {
                description: NO_DATE,
            }),
            Some(date) => self.check_dates_at(date, claims),
        }
    }

    #[tactic(auto, unfolding(crate::specs::Claims::dated_table))]
    fn check_dates_at(&self, date: JwtDate, claims: &Value) -> Result<(), JwtError>
        ensures first { Meets (λ u. u) jwt_fault result (dated_table self.now date (view claims.now)) }
        ensures takes_none { IfErr result (λ e. jwt_fault e ≢ None) }
    {
        check_nbf(date, self.not_before(), claims)?;
        check_exp(date, self.expiration(), claims)
    }
}

fn check_nbf(date: JwtDate, check: ClaimCheck, claims: &Value) -> Result<(), JwtError>
    ensures first { Meets (λ u. u) jwt_fault result (nbf_table date check (member (codes "nbf") (view claims.now))) }
    ensures takes_none { IfErr result (λ e. jwt_fault e ≢ None) }
{
    match check {
        ClaimCheck::Ignored => Ok(()),
        ClaimCheck::Optional => check_start(date, claims),
        ClaimCheck::Required => {
            if claims.get("nbf").is_none() {
                return Err(JwtError::RequiredClaimMissing { claim: "nbf" });
            }
            check_start(date, claims)
        }
    }
}

fn check_start(date: JwtDate, claims: &Value) -> Result<(), JwtError>
    ensures first { Meets (λ u. u) jwt_fault result (start_table date (member (codes "nbf") (view claims.now))) }
    ensures takes_none { IfErr result (λ e. jwt_fault e ≢ None) }
{
    let Some(nbf) = claims.get("nbf") else {
        return Ok(());
    };
    let Some(nbf) = nbf.as_i64() else {
        return Err(JwtError::InvalidRegisteredClaimType { claim: "nbf" });
    };
    if !date.is_after(nbf) {
        return Err(JwtError::NotYetValid {
            not_before: nbf,
            now: date,
        });
    }
    Ok(())
}

fn check_exp(date: JwtDate, check: ClaimCheck, claims: &Value) -> Result<(), JwtError>
    ensures first { Meets (λ u. u) jwt_fault result (exp_table date check (member (codes "exp") (view claims.now))) }
    ensures takes_none { IfErr result (λ e. jwt_fault e ≢ None) }
{
    match check {
        ClaimCheck::Ignored => Ok(()),
        ClaimCheck::Optional => check_end(date, claims),
        ClaimCheck::Required => {
            if claims.get("exp").is_none() {
                return Err(JwtError::RequiredClaimMissing { claim: "exp" });
            }
            check_end(date, claims)
        }
    }
}

fn check_end(date: JwtDate, claims: &Value) -> Result<(), JwtError>
    ensures first { Meets (λ u. u) jwt_fault result (end_table date (member (codes "exp") (view claims.now))) }
    ensures takes_none { IfErr result (λ e. jwt_fault e ≢ None) }
{
    let Some(exp) = claims.get("exp") else {
        return Ok(());
    };
    let Some(exp) = exp.as_i64() else {
        return Err(JwtError::InvalidRegisteredClaimType { claim: "exp" });
    };
    if !date.is_before_strict(exp) {
        return Err(JwtError::Expired {
            not_after: exp,
            now: date,
        });
    }
    Ok(())
}
