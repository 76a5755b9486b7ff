//! The words, read by `clap`.
ghost use Rattle.std.specs.Prelude.{◌≡◌, ◌≤◌, map, string_bytes, IfOk, IfSome, false, option_map};
ghost use Rattle.clap.specs.Words.{app_of, rule_of, rows_of, found_of, first_of};
ghost use Rattle.zw_def_session.specs.Settings as spec;
ghost use Rattle.zw_args.specs.Settings.{Tells, TellsConfig};

use crate::{ArgsFault, Settings, Usage};
use clap::builder::ValueParser;
use clap::error::ErrorKind;
use clap::{Arg, ArgAction, ArgMatches, Command};
use std::alloc::{AllocError, Global};
use zw_path::{Path, PathFault};

const LEAST_BUDGET: i64 = 1;

const GREATEST_BUDGET: i64 = 1_000_000_000;

/// The budget where no word gives one.
const DEFAULT_BUDGET: u64 = 100_000;

// ---- the command

fn budget_range<'a>() -> ValueParser<'a>
    ensures { result ≡ ValueParser.Unsigned 1 spec.greatest_budget }
{
    clap::value_parser!(u64).range(LEAST_BUDGET..=GREATEST_BUDGET)
}

fn budget_option<'a>(alloc: Global) -> Arg<'a>
    ensures rule { rule_of result ≡ spec.budget_rule }
    ensures local { result.global ≡ false }
{
    Arg::new(alloc, "budget")
        .long("budget")
        .action(ArgAction::Set)
        .value_parser(budget_range())
}

fn flag<'a>(alloc: Global, name: &'a str) -> Arg<'a>
    ensures rule { rule_of result ≡ spec.flag_rule name.entry.now }
    ensures local { result.global ≡ false }
{
    Arg::new(alloc, name).long(name).action(ArgAction::SetTrue)
}

fn config_word<'a>(alloc: Global) -> Arg<'a>
    ensures rule { rule_of result ≡ spec.config_rule }
    ensures local { result.global ≡ false }
{
    Arg::new(alloc, "config")
        .required(true)
        .action(ArgAction::Set)
}

fn with_options<'a>(alloc: Global, command: Command<'a>) -> Result<Command<'a>, AllocError>
    ensures { IfOk result (λ c. app_of c ≡ spec.with_options (app_of command.entry)) }
{
    command
        .arg(budget_option(alloc))?
        .arg(flag(alloc, "log"))?
        .arg(flag(alloc, "steps"))?
        .arg(flag(alloc, "eager"))
}

// The command that the words are read by.
fn command<'a>(alloc: Global) -> Result<Command<'a>, AllocError>
    ensures { IfOk result (λ c. app_of c ≡ spec.zw_app) }
{
    let nameless = Command::new(alloc, "zw").no_binary_name(true);
    with_options(alloc, nameless)?.arg(config_word(alloc))
}

// ---- what was accepted

// The first value of an argument.
fn text<'a>(matches: &ArgMatches<'a>, id: &str) -> Option<&'a str>
    ensures { option_map (λ s. s.now) result ≡ first_of id.now (rows_of (found_of matches.now)) }
{
    matches.get_str(id)
}

fn is_given(matches: &ArgMatches<'_>, id: &str) -> bool
    ensures { result ≡ spec.is_given id.now (rows_of (found_of matches.now)) }
{
    text(matches, id).is_some_and(|text| text == "true")
}

// The number, where the option takes it.
fn within(number: u64) -> Option<u64>
    ensures value { result ≡ spec.within number }
    ensures within { IfSome result (λ n. (1 ≤ n) × (n ≤ spec.greatest_budget)) }
{
    if number < LEAST_BUDGET as u64 || number > GREATEST_BUDGET as u64 {
        None
    } else {
        Some(number)
    }
}

// The number that a text writes, where it is one that the option takes.
fn budget_in(text: &str) -> Option<u64>
    ensures value { result ≡ spec.budget_in text.now }
    ensures within { IfSome result (λ n. (1 ≤ n) × (n ≤ spec.greatest_budget)) }
{
    match text.parse() {
        Ok(number) => within(number),
        Err(_) => None,
    }
}

fn budget(matches: &ArgMatches<'_>) -> u64
    ensures value { result ≡ spec.budget_of (rows_of (found_of matches.now)) }
    ensures within { (1 ≤ result) × (result ≤ spec.greatest_budget) }
{
    text(matches, "budget")
        .and_then(|text| budget_in(text))
        .unwrap_or(DEFAULT_BUDGET)
}

// The path that CONFIG tells.
fn config(alloc: Global, matches: &ArgMatches<'_>) -> Result<Path, ArgsFault>
    ensures { TellsConfig result (spec.config_of (rows_of (found_of matches.now))) }
{
    let Some(text) = text(matches, "config") else {
        return Err(ArgsFault::Refused(Usage));
    };
    match Path::parse(alloc, text) {
        Ok(path) => Ok(path),
        Err(PathFault::Refused(_)) => Err(ArgsFault::Refused(Usage)),
        Err(PathFault::Memory) => Err(ArgsFault::Memory),
    }
}

fn told(alloc: Global, matches: &ArgMatches<'_>) -> Result<Settings, ArgsFault>
    ensures told { Tells result (spec.settings_in (rows_of (found_of matches.now))) }
    ensures budget { IfOk result (λ s. (1 ≤ s.budget) × (s.budget ≤ spec.greatest_budget)) }
{
    let config = config(alloc, matches)?;
    Ok(Settings {
        budget: budget(matches),
        gives_budget: text(matches, "budget").is_some(),
        log: is_given(matches, "log"),
        steps: is_given(matches, "steps"),
        eager: is_given(matches, "eager"),
        config,
    })
}

impl Settings {
    ghost use Rattle.std.specs.Prelude.{◌≡◌};
    ghost use Rattle.zw_def_session.specs.Settings.{is_bare};
    ghost use Rattle.zw_args.specs.Settings.{settings_seen};

    /// Whether no flag and no option is given.
    pub fn is_bare(&self) -> bool
        ensures { result ≡ is_bare (settings_seen self.now) }
    {
        !(self.gives_budget || self.log || self.steps || self.eager)
    }
}

/// What the words say, without the program's name.
pub fn settings(alloc: Global, words: &[String]) -> Result<Settings, ArgsFault>
    ensures told { Tells result (spec.settings_of (map string_bytes words.now)) }
    ensures budget { IfOk result (λ s. (1 ≤ s.budget) × (s.budget ≤ spec.greatest_budget)) }
{
    let command = command(alloc)?;
    match command.try_get_matches_from(words) {
        Ok(matches) => told(alloc, &matches),
        Err(error) => match error.kind() {
            ErrorKind::OutOfMemory => Err(ArgsFault::Memory),
            _ => Err(ArgsFault::Refused(Usage)),
        },
    }
}
