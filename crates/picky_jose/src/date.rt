// Dates and the validator of claims.
ghost use Rattle.std.specs.Prelude.{◌≡◌, ◌<ℤ◌, ◌+ℤ◌, ◌≤ℤ◌, ◌-ℤ◌, ◌↔◌, pos, IsTrue};
ghost use Rattle.picky_jose.specs.Dates.{IsBeforeEnd, IsAtOrAfterStart};
ghost use Rattle.picky_jose.specs.Validator.{no_check};

use std::fmt;
use std::marker::Model;

/// A date in seconds since 1970-01-01T00:00:00Z (RFC 7519, section 2), and the leeway in seconds that
/// it is compared with. All sums are in whole numbers.
#[derive(Clone, Copy, Debug, PartialEq, Eq)]
pub struct JwtDate {
    pub numeric_date: i64,
    pub leeway: u16,
}

impl fmt::Display for JwtDate {
    fn fmt<W: fmt::Write>(&self, f: &mut fmt::Formatter<W>) -> fmt::Result {
        let date = self.numeric_date;
        let leeway = self.leeway;
        write!(f, "{date} (leeway: {leeway})")
    }
}

impl JwtDate {
    /// A date without leeway.
    pub const fn new(numeric_date: i64) -> JwtDate
        ensures { result ≡ record { numeric_date = numeric_date; leeway = 0 } }
    {
        JwtDate {
            numeric_date,
            leeway: 0,
        }
    }

    /// A date with a leeway.
    pub const fn new_with_leeway(numeric_date: i64, leeway: u16) -> JwtDate
        ensures { result ≡ record { numeric_date = numeric_date; leeway = leeway } }
    {
        JwtDate {
            numeric_date,
            leeway,
        }
    }

    // The other date plus the leeway.
    fn later(&self, other_numeric_date: i64) -> i128
        ensures { result ≡ other_numeric_date +ℤ pos self.now.leeway }
    {
        i128::from(other_numeric_date) + i128::from(self.leeway)
    }

    // The other date less the leeway.
    fn earlier(&self, other_numeric_date: i64) -> i128
        ensures { result ≡ other_numeric_date -ℤ pos self.now.leeway }
    {
        i128::from(other_numeric_date) - i128::from(self.leeway)
    }

    /// Whether the date is at most the other plus the leeway.
    pub fn is_before(&self, other_numeric_date: i64) -> bool
        ensures { IsTrue result ↔ (self.now.numeric_date ≤ℤ (other_numeric_date +ℤ pos self.now.leeway)) }
    {
        i128::from(self.numeric_date) <= self.later(other_numeric_date)
    }

    /// Whether the date is below the other plus the leeway.
    pub fn is_before_strict(&self, other_numeric_date: i64) -> bool
        ensures { IsTrue result ↔ IsBeforeEnd self.now other_numeric_date }
    {
        i128::from(self.numeric_date) < self.later(other_numeric_date)
    }

    /// Whether the date is at least the other less the leeway.
    pub fn is_after(&self, other_numeric_date: i64) -> bool
        ensures { IsTrue result ↔ IsAtOrAfterStart self.now other_numeric_date }
    {
        i128::from(self.numeric_date) >= self.earlier(other_numeric_date)
    }

    /// Whether the date is above the other less the leeway.
    pub fn is_after_strict(&self, other_numeric_date: i64) -> bool
        ensures { IsTrue result ↔ ((other_numeric_date -ℤ pos self.now.leeway) <ℤ self.now.numeric_date) }
    {
        i128::from(self.numeric_date) > self.earlier(other_numeric_date)
    }
}

// How a date of claims is checked.
#[derive(Clone, Copy, Debug, PartialEq, Eq)]
pub(crate) enum ClaimCheck {
    // It isn't looked at.
    Ignored,
    // It may be absent.
    Optional,
    // It must be there.
    Required,
}

/// Which dates of claims hold: a date, where there is one, and how `nbf` and `exp` are checked, as which
/// contracts see it.
#[derive(Clone, Copy, Debug)]
pub struct JwtValidator {
    current_date: Option<JwtDate>,
    not_before: ClaimCheck,
    expiration: ClaimCheck,
}

impl Model for JwtValidator {
    ghost use Rattle.picky_jose.specs.Validator.{Validator};

    ghost Value = { Validator };

    ghost view = { λ v. record { date = v.current_date; nbf = v.not_before; exp = v.expiration } };

    ghost inverse = { λ v. record { current_date = v.date; not_before = v.nbf; expiration = v.exp } };
}

/// The validator without a date, which looks at no claim.
pub const fn no_check_validator() -> JwtValidator
    ensures { result ≡ no_check }
{
    JwtValidator::no_check()
}

impl JwtValidator {
    ghost use Rattle.picky_jose.specs.Validator as validator;
    ghost use Rattle.picky_jose.specs.declared.date.ClaimCheck.TheVariants.{Ignored, Optional, Required};

    /// The validator by which `nbf` and `exp` must be there, and are compared with the date.
    pub const fn strict(current_date: JwtDate) -> JwtValidator
        ensures { result ≡ validator.strict current_date }
    {
        JwtValidator {
            current_date: Some(current_date),
            not_before: ClaimCheck::Required,
            expiration: ClaimCheck::Required,
        }
    }

    /// The validator by which an absent `nbf` or `exp` passes, and one that is there is compared with
    /// the date.
    pub const fn lenient(current_date: JwtDate) -> JwtValidator
        ensures { result ≡ validator.lenient current_date }
    {
        JwtValidator {
            current_date: Some(current_date),
            not_before: ClaimCheck::Optional,
            expiration: ClaimCheck::Optional,
        }
    }

    /// The validator without a date, which looks at no claim.
    pub const fn no_check() -> JwtValidator
        ensures { result ≡ validator.no_check }
    {
        JwtValidator {
            current_date: None,
            not_before: ClaimCheck::Ignored,
            expiration: ClaimCheck::Ignored,
        }
    }

    /// The same with this date, by which both claims must be there.
    pub const fn current_date(self, current_date: JwtDate) -> JwtValidator
        ensures { result ≡ validator.strict current_date }
    {
        JwtValidator::strict(current_date)
    }

    /// The same, by which `exp` must be there.
    pub const fn expiration_check_required(self) -> JwtValidator
        ensures { result ≡ record self { exp = Required } }
    {
        JwtValidator {
            expiration: ClaimCheck::Required,
            ..self
        }
    }

    /// The same, by which an absent `exp` passes.
    pub const fn expiration_check_optional(self) -> JwtValidator
        ensures { result ≡ record self { exp = Optional } }
    {
        JwtValidator {
            expiration: ClaimCheck::Optional,
            ..self
        }
    }

    /// The same, by which `exp` isn't looked at.
    pub const fn expiration_check_ignored(self) -> JwtValidator
        ensures { result ≡ record self { exp = Ignored } }
    {
        JwtValidator {
            expiration: ClaimCheck::Ignored,
            ..self
        }
    }

    /// The same, by which `nbf` must be there.
    pub const fn not_before_check_required(self) -> JwtValidator
        ensures { result ≡ record self { nbf = Required } }
    {
        JwtValidator {
            not_before: ClaimCheck::Required,
            ..self
        }
    }

    /// The same, by which an absent `nbf` passes.
    pub const fn not_before_check_optional(self) -> JwtValidator
        ensures { result ≡ record self { nbf = Optional } }
    {
        JwtValidator {
            not_before: ClaimCheck::Optional,
            ..self
        }
    }

    /// The same, by which `nbf` isn't looked at.
    pub const fn not_before_check_ignored(self) -> JwtValidator
        ensures { result ≡ record self { nbf = Ignored } }
    {
        JwtValidator {
            not_before: ClaimCheck::Ignored,
            ..self
        }
    }

    // Whether a claim is required only where there is a date.
    pub(crate) fn can_judge(&self) -> bool
        ensures { result ≡ validator.can_judge self.now.date self.now.nbf self.now.exp }
    {
        !matches!(
            (self.current_date, self.not_before, self.expiration),
            (None, ClaimCheck::Required, _) | (None, _, ClaimCheck::Required)
        )
    }

    // The date.
    pub(crate) fn date(&self) -> Option<JwtDate>
        ensures { result ≡ self.now.date }
    {
        self.current_date
    }

    // How `nbf` is checked.
    pub(crate) fn not_before(&self) -> ClaimCheck
        ensures { result ≡ self.now.nbf }
    {
        self.not_before
    }

    // How `exp` is checked.
    pub(crate) fn expiration(&self) -> ClaimCheck
        ensures { result ≡ self.now.exp }
    {
        self.expiration
    }
}
