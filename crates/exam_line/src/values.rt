//! The values of the words of a line.
ghost use Rattle.std.specs.Prelude.{◌≡◌, ◌↔◌, ◌≤◌, ℕ, Some, option_map, codes, IfOk, IfErr, IsSome};
ghost use Rattle.std.specs.Fmt.{decimal};
ghost use Rattle.clap.specs.Words.{first_of};
ghost use Rattle.exam_types.specs.Codes.{is_reference};
ghost use Rattle.exam_types.specs.Days.{day_of};
ghost use Rattle.exam_types.specs.declared.refusal.Refusal.TheVariants.{NoMemory};
ghost use Rattle.exam_line.specs.Lines as spec;

use clap::ArgMatches;
use exam_commands::{Decision, Kind, Outcome};
use exam_types::{Day, HallCode, Number, PaperCode, Reason, Reference, Refusal, SessionCode};
use itoa::Buffer;
use std::alloc::Global;

/// The text of an option or a word.
pub fn text<'a>(matches: &ArgMatches<'a>, name: &str) -> Option<&'a str>
    ensures { option_map (λ s. s.now) result ≡ first_of name.now (spec.rows matches.now) }
{
    matches.get_str(name)
}

pub fn today_of(matches: &ArgMatches<'_>) -> Option<Day>
    ensures { result ≡ spec.value_of day_of (codes "today") (spec.rows matches.now) }
{
    Day::parse(text(matches, "today")?.as_bytes())
}

pub fn number_of(words: &ArgMatches<'_>) -> Option<Number>
    ensures { result ≡ spec.number_of (spec.rows words.now) }
{
    Number::parse(text(words, "number")?.as_bytes())
}

pub fn session_of(words: &ArgMatches<'_>) -> Option<SessionCode>
    ensures { result ≡ spec.session_of (spec.rows words.now) }
{
    SessionCode::parse(text(words, "session")?.as_bytes())
}

pub fn hall_of(words: &ArgMatches<'_>) -> Option<HallCode>
    ensures { result ≡ spec.hall_of (spec.rows words.now) }
{
    HallCode::parse(text(words, "hall")?.as_bytes())
}

pub fn paper_of(words: &ArgMatches<'_>) -> Option<PaperCode>
    ensures { result ≡ spec.paper_of (spec.rows words.now) }
{
    PaperCode::parse(text(words, "paper")?.as_bytes())
}

/// The kind of imports that the words name.
pub fn kind_of(words: &ArgMatches<'_>) -> Option<Kind>
    ensures { result ≡ spec.value_of spec.kind_in (codes "kind") (spec.rows words.now) }
{
    kind_named(text(words, "kind")?)
}

fn kind_named(name: &str) -> Option<Kind>
    ensures { result ≡ spec.kind_in name.now }
{
    match name {
        "sessions" => Some(Kind::Sessions),
        "papers" => Some(Kind::Papers),
        "halls" => Some(Kind::Halls),
        "openings" => Some(Kind::Openings),
        "candidates" => Some(Kind::Candidates),
        "entries" => Some(Kind::Entries),
        "arrangements" => Some(Kind::Arrangements),
        _ => None,
    }
}

/// The port that the words name.
pub fn port_of(words: &ArgMatches<'_>) -> Option<u16>
    ensures { result ≡ spec.value_of spec.port_in (codes "port") (spec.rows words.now) }
{
    port_in(text(words, "port")?)
}

fn port_in(text: &str) -> Option<u16>
    ensures { result ≡ spec.port_in text.now }
{
    port_written(text)
}

/// The number from 1 to 65535 whose decimal text this is.
fn port_written(text: &str) -> Option<u16>
    ensures { (n : ℕ) → (result ≡ Some n) ↔ (((1 ≤ n) × (n ≤ 65535)) × (decimal n ≡ text.now)) }
{
    let port = text.parse::<u16>().ok()?;
    let mut buffer = Buffer::new();
    if port > 0 && buffer.format(port) == text {
        Some(port)
    } else {
        None
    }
}

fn outcome_of(words: &ArgMatches<'_>) -> Option<Outcome>
    ensures { result ≡ spec.value_of spec.outcome_in (codes "outcome") (spec.rows words.now) }
{
    outcome_named(text(words, "outcome")?)
}

fn outcome_named(name: &str) -> Option<Outcome>
    ensures { result ≡ spec.outcome_in name.now }
{
    match name {
        "granted" => Some(Outcome::Grant),
        "standing" => Some(Outcome::Standing),
        "refused" => Some(Outcome::Refuse),
        _ => None,
    }
}

fn reference_of(words: &ArgMatches<'_>) -> Option<Reference>
    ensures { result ≡ spec.text_of is_reference (codes "ref") (spec.rows words.now) }
{
    Reference::parse(text(words, "ref")?.as_bytes())
}

/// The decision that the words say. Its reason takes memory.
pub fn decision_of(alloc: Global, words: &ArgMatches<'_>) -> Result<Option<Decision>, Refusal>
    ensures ok { IfOk result (λ decision. decision ≡ spec.decision_of (spec.rows words.now)) }
    ensures memory { IfErr result (λ e. (e ≡ NoMemory) × IsSome (spec.decision_of (spec.rows words.now))) }
{
    let Some((number, reference, outcome, reason)) = decided_of(words) else {
        return Ok(None);
    };
    let answer = Reason::parse(alloc, reason.as_bytes())?;
    Ok(answer.map(|answer| Decision {
        number,
        reference,
        outcome,
        answer,
    }))
}

/// The appeal, the outcome and the text of the reason.
fn decided_of<'a>(words: &ArgMatches<'a>) -> Option<(Number, Reference, Outcome, &'a str)>
    ensures { option_map (λ d. (d.0, d.1, d.2, d.3.now)) result ≡ spec.decided_of (spec.rows words.now) }
{
    let number = number_of(words)?;
    let reference = reference_of(words)?;
    let outcome = outcome_of(words)?;
    Some((number, reference, outcome, text(words, "reason")?))
}
