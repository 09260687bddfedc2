// The words of the command line.
ghost use Rattle.std.specs.Prelude.{◌≡◌, ◌↔◌, ℕ, Option, option_map, IsTrue, MatchOption, codes};
ghost use Rattle.std.specs.Str.{all_ascii_digits};
ghost use Rattle.picky_gate.specs.Command.{Text, Admit, AsksAdmit, ArePairs, IsFlag, IsNumber, IsMoment, IsLeeway, IsChecks, IsItself, StandsOnce, StandsAtMostOnce, Generate, AsksGenerate, AreTwo, Command, Asks, IsCommand, values_under};
ghost use Rattle.picky_outside.specs.Outside.{texts_of};
ghost use Rattle.picky_gate.specs.Asked.{AreValues, admit_of, generate_of, command_of, seconds_of};
ghost use Rattle.picky_gate.specs.declared.asked.Checks.{Checks as Asked};

use crate::AdmitWords;
use crate::asked::{Checks, CommandWords, GenerateWords, Moment};

/// How many values stand under a flag, and the value where there is one.
#[derive(Clone, Copy)]
enum Values<'a> {
    Absent,
    One(&'a str),
    Many,
}

fn values_of<'a>(words: &'a [String], flag: &str) -> Values<'a>
    ensures { AreValues (values_under flag.now (texts_of words.now)) result }
{
    let mut found = Values::Absent;
    let mut rest = words;
    while let [name, value, after @ ..] = rest {
        if name.as_str() == flag {
            found = match found {
                Values::Absent => Values::One(value.as_str()),
                _ => return Values::Many,
            };
        }
        rest = after;
    }
    found
}

fn is_flag(name: &str) -> bool
    ensures { IsTrue result ↔ IsFlag name.now }
{
    name == "--keys"
        || name == "--records"
        || name == "--text"
        || name == "--request"
        || name == "--now"
        || name == "--leeway"
        || name == "--checks"
}

fn are_pairs(words: &[String]) -> bool
    ensures { IsTrue result ↔ ArePairs (texts_of words.now) }
{
    let mut rest = words;
    while let [name, _, after @ ..] = rest {
        if !is_flag(name.as_str()) {
            return false;
        }
        rest = after;
    }
    rest.is_empty()
}

fn are_digits(text: &str) -> bool
    ensures { result ≡ all_ascii_digits text.now }
{
    let mut rest = text.as_bytes();
    while let [first, after @ ..] = rest {
        if !first.is_ascii_digit() {
            return false;
        }
        rest = after;
    }
    true
}

/// The greatest moment in seconds, 2^63 - 1.
const LAST_MOMENT: u64 = 9_223_372_036_854_775_807;

// The number that 1 to `most` digits write, where it is at most `last`.
fn read_number(text: &str, most: usize, last: u64) -> Option<u64>
    ensures { MatchOption result ((n : ℕ) → IsNumber most last text.now n → ⊥) (λ n. IsNumber most last text.now n) }
{
    if text.is_empty() || text.len() > most || !are_digits(text) {
        return None;
    }
    match text.parse::<u64>() {
        Ok(number) if number <= last => Some(number),
        _ => None,
    }
}

fn read_moment(text: &str) -> Option<Moment>
    ensures { MatchOption result ((n : ℕ) → IsMoment text.now n → ⊥) (λ m. IsMoment text.now m.seconds) }
{
    let seconds = read_number(text, 19, LAST_MOMENT)?;
    Some(Moment { seconds })
}

fn read_leeway(text: &str) -> Option<u16>
    ensures { MatchOption result ((n : ℕ) → IsLeeway text.now n → ⊥) (λ n. IsLeeway text.now n) }
{
    let seconds = read_number(text, 5, 65_535)?;
    Some(seconds as u16)
}

fn read_checks(text: &str) -> Option<Checks>
    ensures { MatchOption result ((c : Asked) → IsChecks text.now c → ⊥) (λ c. IsChecks text.now c) }
{
    match text {
        "strict" => Some(Checks::Strict),
        "lenient" => Some(Checks::Lenient),
        "none" => Some(Checks::NoChecks),
        _ => None,
    }
}

// The value of a flag that stands exactly once.
fn once<'a>(words: &'a [String], flag: &str) -> Option<&'a str>
    ensures { MatchOption result
        ((value : Text) → StandsOnce flag.now (texts_of words.now) value → ⊥)
        (λ value. StandsOnce flag.now (texts_of words.now) value.now) }
{
    match values_of(words, flag) {
        Values::One(value) => Some(value),
        _ => None,
    }
}

// The value of a flag that stands at most once; none in the outer place where it stands twice.
fn at_most_once<'a>(words: &'a [String], flag: &str) -> Option<Option<&'a str>>
    ensures { MatchOption result
        ((value : Option Text) → StandsAtMostOnce IsItself flag.now (texts_of words.now) value → ⊥)
        (λ value. StandsAtMostOnce IsItself flag.now (texts_of words.now) (option_map (λ t. t.now) value)) }
{
    match values_of(words, flag) {
        Values::Absent => Some(None),
        Values::One(value) => Some(Some(value)),
        Values::Many => None,
    }
}

// The moment of a flag that stands at most once; none in the outer place where the words aren't of the form.
fn moment_under(words: &[String]) -> Option<Option<Moment>>
    ensures { MatchOption result
        ((n : Option ℕ) → StandsAtMostOnce IsMoment (codes "--now") (texts_of words.now) n → ⊥)
        (λ m. StandsAtMostOnce IsMoment (codes "--now") (texts_of words.now) (seconds_of m)) }
{
    match values_of(words, "--now") {
        Values::Absent => Some(None),
        Values::One(value) => match read_moment(value) {
            Some(moment) => Some(Some(moment)),
            None => None,
        },
        Values::Many => None,
    }
}

// The same of the leeway.
fn leeway_under(words: &[String]) -> Option<Option<u16>>
    ensures { MatchOption result
        ((n : Option ℕ) → StandsAtMostOnce IsLeeway (codes "--leeway") (texts_of words.now) n → ⊥)
        (λ n. StandsAtMostOnce IsLeeway (codes "--leeway") (texts_of words.now) n) }
{
    match values_of(words, "--leeway") {
        Values::Absent => Some(None),
        Values::One(value) => match read_leeway(value) {
            Some(leeway) => Some(Some(leeway)),
            None => None,
        },
        Values::Many => None,
    }
}

// The same of the checks of dates.
fn checks_under(words: &[String]) -> Option<Option<Checks>>
    ensures { MatchOption result
        ((c : Option Asked) → StandsAtMostOnce IsChecks (codes "--checks") (texts_of words.now) c → ⊥)
        (λ c. StandsAtMostOnce IsChecks (codes "--checks") (texts_of words.now) c) }
{
    match values_of(words, "--checks") {
        Values::Absent => Some(None),
        Values::One(value) => match read_checks(value) {
            Some(checks) => Some(Some(checks)),
            None => None,
        },
        Values::Many => None,
    }
}

/// What `admit` is asked by the words after it, if they are of its form.
fn read_admit(words: &[String]) -> Option<AdmitWords<'_>>
    ensures { MatchOption result
        ((a : Admit) → AsksAdmit (texts_of words.now) a → ⊥)
        (λ w. AsksAdmit (texts_of words.now) (admit_of w)) }
{
    if !are_pairs(words) {
        return None;
    }
    let keys = once(words, "--keys")?;
    let records = once(words, "--records")?;
    let text = once(words, "--text")?;
    let request = at_most_once(words, "--request")?;
    let now = moment_under(words)?;
    let leeway = leeway_under(words)?;
    let checks = checks_under(words)?;
    Some(AdmitWords {
        keys,
        records,
        text,
        request,
        now,
        leeway,
        checks,
    })
}

// The texts of a seed and of a count, where the words are their two flags, each with its value.
fn two_values(words: &[String]) -> Option<(&str, &str)>
    ensures { MatchOption result
        ((seed : Text) → (count : Text) → AreTwo (texts_of words.now) seed count → ⊥)
        (λ values. AreTwo (texts_of words.now) values.0.now values.1.now) }
{
    let [first, one, second, other] = words else {
        return None;
    };
    match (first.as_str(), second.as_str()) {
        ("--seed", "--count") => Some((one.as_str(), other.as_str())),
        ("--count", "--seed") => Some((other.as_str(), one.as_str())),
        _ => None,
    }
}

/// What `generate` is asked by the words after it, if they are of its form.
fn read_generate(words: &[String]) -> Option<GenerateWords>
    ensures { MatchOption result
        ((g : Generate) → AsksGenerate (texts_of words.now) g → ⊥)
        (λ w. AsksGenerate (texts_of words.now) (generate_of w)) }
{
    let Some((seed, count)) = two_values(words) else {
        return None;
    };
    let seed = read_number(seed, 20, u64::MAX)?;
    let count = read_number(count, 5, 10_000)?;
    Some(GenerateWords { seed, count })
}

// What the command of this name is asked by the words after it, if they are of its form.
#[tactic(auto, using(crate::proofs::Values::no_admit, crate::proofs::Values::no_generate))]
fn read_named<'a>(name: &str, words: &'a [String]) -> Option<CommandWords<'a>>
    ensures { MatchOption result
        ((c : Command) → Asks name.now (texts_of words.now) c → ⊥)
        (λ w. Asks name.now (texts_of words.now) (command_of w)) }
{
    match name {
        "admit" => match read_admit(words) {
            Some(words) => Some(CommandWords::Admit(words)),
            None => None,
        },
        "generate" => match read_generate(words) {
            Some(words) => Some(CommandWords::Generate(words)),
            None => None,
        },
        _ => None,
    }
}

/// The command that the words are; `None` exactly where they are none.
pub fn read_words(words: &[String]) -> Option<CommandWords<'_>>
    ensures { MatchOption result
        ((c : Command) → IsCommand (texts_of words.now) c → ⊥)
        (λ w. IsCommand (texts_of words.now) (command_of w)) }
{
    match words {
        [first, rest @ ..] => read_named(first.as_str(), rest),
        [] => None,
    }
}
