// What a command asks.
ghost use Rattle.std.specs.Prelude.{◌≡◌, ◌<◌, ◌^◌};

use crate::Policy;
use picky_jose::{JwtDate, JwtValidator};

/// A moment in seconds since 1970-01-01T00:00:00Z, which a date holds.
#[derive(Clone, Copy)]
pub struct Moment {
    pub seconds: u64,
    pub ghost fits: { seconds < 2 ^ 63 },
}

impl Moment {
    ghost use Rattle.picky_gate.specs.Moment.{date_at};

    fn date(self, leeway: u16) -> JwtDate
        ensures { result ≡ date_at self.seconds leeway }
    {
        JwtDate::new_with_leeway(self.seconds as i64, leeway)
    }
}

/// How the dates of a token's claims are checked.
#[derive(Clone, Copy)]
pub enum Checks {
    /// Both claims must be there.
    Strict,
    /// Both claims may be absent.
    Lenient,
    /// No claim is looked at.
    NoChecks,
}

impl Checks {
    ghost use Rattle.picky_gate.specs.Moment.{validator_of};

    fn validator(self, date: Option<JwtDate>) -> JwtValidator
        ensures { result ≡ validator_of self date }
    {
        match (self, date) {
            (Checks::Strict, Some(date)) => JwtValidator::strict(date),
            (Checks::Strict, None) => JwtValidator::no_check()
                .not_before_check_required()
                .expiration_check_required(),
            (Checks::Lenient, Some(date)) => JwtValidator::lenient(date),
            (Checks::Lenient, None) => JwtValidator::no_check()
                .not_before_check_optional()
                .expiration_check_optional(),
            (Checks::NoChecks, _) => JwtValidator::no_check(),
        }
    }
}

/// What `admit` is asked: the paths of its documents, the text, and the request's path, the moment, the leeway and the checks
/// of dates where they are given.
#[derive(Clone, Copy)]
pub struct AdmitWords<'a> {
    pub keys: &'a str,
    pub records: &'a str,
    pub text: &'a str,
    pub request: Option<&'a str>,
    pub now: Option<Moment>,
    pub leeway: Option<u16>,
    pub checks: Option<Checks>,
}

/// What `generate` is asked: a seed, and how many texts are made of it.
#[derive(Clone, Copy)]
pub struct GenerateWords {
    pub seed: u64,
    pub count: u64,
}

/// What the program is asked.
#[derive(Clone, Copy)]
pub enum CommandWords<'a> {
    Admit(AdmitWords<'a>),
    Generate(GenerateWords),
}

impl AdmitWords<'_> {
    ghost use Rattle.picky_gate.specs.Asked.{admit_of};
    ghost use Rattle.picky_gate.specs.Moment.{checks_of, policy_of};

    // The checks that are given, or else lenient ones with a moment, and none without.
    fn checks(self) -> Checks
        ensures { result ≡ checks_of self.entry.checks (admit_of self.entry).now }
    {
        match (self.checks, self.now) {
            (Some(checks), _) => checks,
            (None, Some(_)) => Checks::Lenient,
            (None, None) => Checks::NoChecks,
        }
    }

    /// The policy of the moment, the leeway, which is 0 where none is given, and the checks, which are lenient where none are given and
    /// there is a moment.
    pub fn policy(self) -> Policy
        ensures { result ≡ policy_of (admit_of self.entry) }
    {
        let leeway = self.leeway.unwrap_or(0);
        let checks = self.checks();
        match self.now {
            Some(moment) => Policy {
                validator: checks.validator(Some(moment.date(leeway))),
                now: Some(moment.seconds),
                leeway: u64::from(leeway),
            },
            None => Policy {
                validator: checks.validator(None),
                now: None,
                leeway: u64::from(leeway),
            },
        }
    }
}
