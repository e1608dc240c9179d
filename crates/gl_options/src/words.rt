//! The words of the program.

ghost use Rattle.std.specs.Prelude.{◌≡◌, ◌↔◌, ℕ, false, IfNone, IfOk, IfSome, map};
ghost use Rattle.clap.specs.Words.{app_of, rule_of};
ghost use Rattle.gl_options.specs.Planned.{AsksFor, IsAsked, IsChoice, IsDetection, IsNumberTo, IsPlanFor, Reads, flag_rule};
ghost use Rattle.gl_options.specs.Planned.{is_set, option_rule, text, tool_app};
ghost use Rattle.gl_options.specs.declared.requests.Asked.{Asked as WhatIsAsked};

use crate::requests::{Asked, Choices, Plan};
use clap::error::ErrorKind;
use clap::{Arg, ArgAction, Command};
use gl_model::Detect;
use gl_waits::Victims;
use std::alloc::{AllocError, Global};
use std::convert::AsStr;

/// The most sessions of a crew.
const MOST_SESSIONS: u32 = 128;

/// The most rounds of a crew.
const MOST_ROUNDS: u32 = 100_000;

/// Why the words could not be read.
#[derive(Clone, Copy, Debug, PartialEq, Eq)]
enum Unread {
    /// Out of memory.
    Memory,
    /// They ask for nothing that the program does.
    Words,
}

/// Reads the words after the program's name. `None` if they ask for nothing that the program does, or
/// if out of memory.
pub fn asked<S: AsStr>(alloc: Global, words: &[S]) -> Option<Asked>
    ensures { IfSome result (λ asked. AsksFor (map S.text words.now) asked) }
{
    read_words(alloc, words).ok()
}

/// The plan of what the words after the program's name ask for. `None` as for [`asked`].
pub fn plan<S: AsStr>(alloc: Global, words: &[S]) -> Option<Plan>
    ensures { IfSome result (λ plan. IsPlanFor (map S.text words.now) plan) }
{
    Some(asked(alloc, words)?.plan())
}

/// What the words ask for, or why they could not be read.
fn read_words<S: AsStr>(alloc: Global, words: &[S]) -> Result<Asked, Unread>
    ensures { Reads (map S.text words.now) result }
{
    let Ok(command) = command(alloc) else {
        return Err(Unread::Memory);
    };
    let matches = match command.try_get_matches_from(words) {
        Ok(matches) => matches,
        Err(error) => return Err(cause(error.kind())),
    };
    let detect = matches.get_str("detect");
    let victims = matches.get_str("victims");
    let listings = is_set(matches.get_str("listings"));
    let schema = is_set(matches.get_str("schema"));
    let savepoints = is_set(matches.get_str("savepoints"));
    let trace = is_set(matches.get_str("trace"));
    match asked_of(
        detect,
        victims,
        listings,
        schema,
        savepoints,
        trace,
        matches.get_str("crew"),
        matches.get_str("rounds"),
    ) {
        Some(asked) => Ok(asked),
        None => Err(Unread::Words),
    }
}

/// The command line, for `clap`.
fn command<'a>(alloc: Global) -> Result<Command<'a>, AllocError>
    ensures { IfOk result (λ command. app_of command ≡ tool_app) }
{
    let detect = option(alloc, "detect");
    let victims = option(alloc, "victims");
    let listings = flag(alloc, "listings");
    let schema = flag(alloc, "schema");
    let savepoints = flag(alloc, "savepoints");
    let trace = flag(alloc, "trace");
    let crew = option(alloc, "crew");
    let rounds = option(alloc, "rounds");
    Command::new(alloc, "gltool")
        .no_binary_name(true)
        .arg(detect)?
        .arg(victims)?
        .arg(listings)?
        .arg(schema)?
        .arg(savepoints)?
        .arg(trace)?
        .arg(crew)?
        .arg(rounds)
}

/// An option with a value.
fn option<'a>(alloc: Global, name: &'a str) -> Arg<'a>
    ensures rule { rule_of result ≡ option_rule name.entry.now }
    ensures local { result.global ≡ false }
{
    Arg::new(alloc, name).long(name)
}

/// A flag.
fn flag<'a>(alloc: Global, name: &'a str) -> Arg<'a>
    ensures rule { rule_of result ≡ flag_rule name.entry.now }
    ensures local { result.global ≡ false }
{
    option(alloc, name).action(ArgAction::SetTrue)
}

/// Why `clap` refused the words.
fn cause(kind: ErrorKind) -> Unread
    ensures { (result ≡ Unread.Memory) ↔ (kind ≡ ErrorKind.OutOfMemory) }
{
    match kind {
        ErrorKind::OutOfMemory => Unread::Memory,
        _ => Unread::Words,
    }
}

/// What these values ask for: a script if neither number is given, a crew if both are, which has none
/// of the optional lines.
fn asked_of(
    detect: Option<&str>,
    victims: Option<&str>,
    listings: bool,
    schema: bool,
    savepoints: bool,
    trace: bool,
    crew: Option<&str>,
    rounds: Option<&str>,
) -> Option<Asked>
    ensures some { IfSome result (λ asked.
        IsAsked (text detect.entry) (text victims.entry) listings schema savepoints trace (text crew.entry) (text rounds.entry) asked) }
    ensures none { IfNone result ((asked : WhatIsAsked)
        → ¬ (IsAsked (text detect.entry) (text victims.entry) listings schema savepoints trace (text crew.entry) (text rounds.entry) asked)) }
{
    let detect = detection(detect)?;
    let victims = choice(victims)?;
    match (crew, rounds, listings || schema || savepoints || trace) {
        (None, None, _) => Some(Asked::Script(Choices {
            detect,
            victims,
            listings,
            schema,
            savepoints,
            trace,
        })),
        (Some(crew), Some(rounds), false) => Some(Asked::Crew {
            sessions: number_to(MOST_SESSIONS, crew)?,
            rounds: number_to(MOST_ROUNDS, rounds)?,
            detect,
            victims,
        }),
        (Some(_), _, _) | (_, Some(_), _) => None,
    }
}

/// Whether a flag is among the words, by the value that `clap` gives it.
fn is_set(value: Option<&str>) -> bool
    ensures { result ≡ is_set (text value.entry) }
{
    match value {
        Some("true") => true,
        _ => false,
    }
}

/// The number with this text, in decimal, if it is one from 1 to `most`.
fn number_to(most: u32, word: &str) -> Option<u32>
    ensures some { IfSome result (λ number. IsNumberTo most word.now number) }
    ensures none { IfNone result ((number : ℕ) → ¬ (IsNumberTo most word.now number)) }
{
    let Ok(number) = word.parse::<u32>() else {
        return None;
    };
    if 1 <= number && number <= most {
        Some(number)
    } else {
        None
    }
}

/// The choice of victims with this name; without a word, the youngest.
fn choice(word: Option<&str>) -> Option<Victims>
    ensures some { IfSome result (λ victims. IsChoice (text word.entry) victims) }
    ensures none { IfNone result ((victims : Victims) → ¬ (IsChoice (text word.entry) victims)) }
{
    match word {
        None | Some("youngest") => Some(Victims::Youngest),
        Some("fewest") => Some(Victims::Fewest),
        _ => None,
    }
}

/// The way of detection with this name; without a word, at-block.
fn detection(word: Option<&str>) -> Option<Detect>
    ensures some { IfSome result (λ detect. IsDetection (text word.entry) detect) }
    ensures none { IfNone result ((detect : Detect) → ¬ (IsDetection (text word.entry) detect)) }
{
    match word {
        None | Some("at-block") => Some(Detect::AtBlock),
        Some("by-watcher") => Some(Detect::ByWatcher),
        _ => None,
    }
}
