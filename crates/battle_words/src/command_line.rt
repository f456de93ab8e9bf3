//! The words of the command line.
ghost use Rattle.std.specs.Prelude.{◌≡◌, ◌≤◌, IfOk, IfErr, Some, None, codes, map, option_map, string_bytes};
ghost use Rattle.std.specs.Option.{ForSome};
ghost use Rattle.clap.specs.Words.{app_of, first_of, found_of, rows_of};
ghost use Rattle.battle_words.specs.Decimal.{number_or, number_within};
ghost use Rattle.battle_words.specs.Words.{AreWithin, IsArgument, IsInputWithin, battle_app, flag_rule, input_in, is_set, option_rule, plain_app, plain_from, settings, settings_in, settings_of, ticks_rule};

use crate::WORKERS_DEFAULT;
use crate::decimal::number_within;
use clap::error::ErrorKind;
use clap::{Arg, ArgAction, ArgMatches, Command};
use sgl_values::{
    ITEMS_MAX, LOOKS_MAX, Memory, ROWS_MAX, SPECTATORS_MAX, TICKS_MAX, Text, WORKERS_MAX,
};
use std::alloc::Global;

/// Where the script and the units come from.
#[derive(Drop)]
pub enum Input {
    /// Two files, by their names.
    Files { script: Text, units: Text },
    /// The sample with this number of units, at most 65,536.
    Sample(u32),
}

/// What the words of the command line ask for.
#[derive(Drop)]
pub struct RunSettings {
    /// The number of ticks, at most 10,000.
    pub ticks: u16,
    pub input: Input,
    /// The number of workers, from 1 to 64. Without `--workers` it is 4.
    pub workers: u32,
    /// The seed of the draw, any number of 64 bits. Without `--seed` it is 0.
    pub seed: u64,
    /// The limit of a tick's items, from 1 to 8,000,000. Without `--items` it is 8,000,000.
    pub items: u64,
    /// Whether the engine is `plain`. Without `--engine` it is `plan`.
    pub plain: bool,
    /// Whether `--summary` is there.
    pub summary: bool,
    /// Whether `--explain` is there; never with the plain engine, which has no plan.
    pub explain: bool,
    /// The number of spectators, at most 16. Without `--watch` it is 0.
    pub watch: u32,
    /// The number of looks of each spectator, from 1 to 1,000. Without `--looks` it is 1.
    pub looks: u32,
}

/// Why the words give no settings.
#[derive(Clone, Copy, Debug, PartialEq, Eq)]
pub enum WordsFault {
    /// The words are not those of a command line.
    Usage,
    /// Want of memory.
    Memory,
}

impl From<Memory> for WordsFault {
    ghost use Rattle.std.specs.Prelude.{◌≡◌};
    ghost use Rattle.battle_words.specs.declared.command_line.WordsFault.TheVariants as faults;

    ghost from_gives = { λ _ e. e ≡ faults.Memory };

    fn from(_: Memory) -> Self {
        WordsFault::Memory
    }
}

impl From<clap::Error> for WordsFault {
    ghost use Rattle.std.specs.Prelude.{◌≡◌, ◌≢◌};
    ghost use Rattle.clap.specs.Words.{kind_of};
    ghost use Rattle.clap.specs.declared.error.kind.ErrorKind.TheVariants as kinds;
    ghost use Rattle.battle_words.specs.declared.command_line.WordsFault.TheVariants as faults;

    ghost from_gives = { λ error fault. fault ≡ faults.Usage → kind_of error ≢ kinds.OutOfMemory };

    fn from(error: clap::Error) -> Self {
        if error.kind() == ErrorKind::OutOfMemory {
            WordsFault::Memory
        } else {
            WordsFault::Usage
        }
    }
}

/// Reads the words after the program's name, as `clap` reads those of a command with the argument TICKS, the options
/// `--script`, `--units`, `--sample`, `--workers`, `--seed`, `--items`, `--engine`, `--watch` and `--looks`, and the flags
/// `--summary` and `--explain`. TICKS has to be there, and either both files or a sample. A number is 1 to 20 decimal digits,
/// within its range; the engine is `plan` or `plain`, and `--explain` does not stand with `plain`; a flag has no value.
/// `Usage` comes only where the words are others, as words that ask for help or a version are; `Memory` may come with any
/// words.
pub fn read_words(alloc: Global, words: &[String]) -> Result<RunSettings, WordsFault>
    ensures ok { IfOk result (λ s. settings_of (map string_bytes words.now) ≡ Some (settings s)) }
    ensures usage { IfErr result (λ e. e ≡ WordsFault.Usage → settings_of (map string_bytes words.now) ≡ None) }
    ensures limits { IfOk result AreWithin }
{
    let command = battle_command(alloc)?;
    let matches = command.try_get_matches_from(words)?;
    settings_in(alloc, &matches)
}

// The command with its arguments, which `specs/Words.antt` lists in the same order.
fn battle_command<'a>(alloc: Global) -> Result<Command<'a>, Memory>
    ensures { IfOk result (λ c. app_of c ≡ battle_app) }
{
    let command = plain_command(alloc)
        .arg(ticks_argument(alloc))?
        .arg(option(alloc, "script"))?
        .arg(option(alloc, "units"))?
        .arg(option(alloc, "sample"))?
        .arg(option(alloc, "workers"))?
        .arg(option(alloc, "seed"))?
        .arg(option(alloc, "items"))?
        .arg(option(alloc, "engine"))?
        .arg(option(alloc, "watch"))?
        .arg(option(alloc, "looks"))?
        .arg(flag(alloc, "summary"))?
        .arg(flag(alloc, "explain"))?;
    Ok(command)
}

// The command without arguments, for words without the program's name, and without a word for help.
fn plain_command<'a>(alloc: Global) -> Command<'a>
    ensures { app_of result ≡ plain_app }
{
    Command::new(alloc, "battle")
        .no_binary_name(true)
        .disable_help_flag(true)
}

// TICKS, which has to be there.
fn ticks_argument<'a>(alloc: Global) -> Arg<'a>
    ensures { IsArgument ticks_rule result }
{
    Arg::new(alloc, "ticks")
        .required(true)
        .action(ArgAction::Set)
}

// An option with one text.
fn option<'a>(alloc: Global, name: &'a str) -> Arg<'a>
    ensures { IsArgument (option_rule name.entry.now) result }
{
    Arg::new(alloc, name).long(name).action(ArgAction::Set)
}

// An option without a value, which is set where it is there.
fn flag<'a>(alloc: Global, name: &'a str) -> Arg<'a>
    ensures { IsArgument (flag_rule name.entry.now) result }
{
    Arg::new(alloc, name).long(name).action(ArgAction::SetTrue)
}

// The settings that the matches give.
fn settings_in(alloc: Global, matches: &ArgMatches) -> Result<RunSettings, WordsFault>
    ensures ok { IfOk result (λ s. settings_in (rows_of (found_of matches.now)) ≡ Some (settings s)) }
    ensures usage { IfErr result (λ e. e ≡ WordsFault.Usage → settings_in (rows_of (found_of matches.now)) ≡ None) }
    ensures limits { IfOk result AreWithin }
{
    let workers = Some(u64::from(WORKERS_DEFAULT));
    let explain = is_set(matches, "explain");
    Ok(RunSettings {
        ticks: number_in(matches, "ticks", None, 0, u64::from(TICKS_MAX))? as u16,
        input: input_in(alloc, matches)?,
        workers: number_in(matches, "workers", workers, 1, u64::from(WORKERS_MAX))? as u32,
        seed: number_in(matches, "seed", Some(0), 0, u64::MAX)?,
        items: number_in(matches, "items", Some(ITEMS_MAX), 1, ITEMS_MAX)?,
        plain: plain_in(matches, explain)?,
        summary: is_set(matches, "summary"),
        explain,
        watch: number_in(matches, "watch", Some(0), 0, u64::from(SPECTATORS_MAX))? as u32,
        looks: number_in(matches, "looks", Some(1), 1, u64::from(LOOKS_MAX))? as u32,
    })
}

// Both files, or the sample; `Usage` comes where they stand together, and where a file or all are missing.
fn input_in(alloc: Global, matches: &ArgMatches) -> Result<Input, WordsFault>
    ensures ok { IfOk result (λ i. input_in (rows_of (found_of matches.now)) ≡ Some i) }
    ensures usage { IfErr result (λ e. e ≡ WordsFault.Usage → input_in (rows_of (found_of matches.now)) ≡ None) }
    ensures limits { IfOk result IsInputWithin }
{
    let script = value_in(matches, "script");
    let units = value_in(matches, "units");
    match (script, units, value_in(matches, "sample")) {
        (Some(script), Some(units), None) => Ok(files(alloc, script, units)?),
        (None, None, Some(count)) => sample(count),
        _ => Err(WordsFault::Usage),
    }
}

// The input of two files.
fn files(alloc: Global, script: &str, units: &str) -> Result<Input, Memory>
    ensures { IfOk result (λ i. i ≡ Input.Files script.now units.now) }
{
    Ok(Input::Files {
        script: Text::of(alloc, script)?,
        units: Text::of(alloc, units)?,
    })
}

// The input of a sample, by the digits of its number of units.
fn sample(digits: &str) -> Result<Input, WordsFault>
    ensures ok { IfOk result (λ i. option_map Input.Sample (number_within 0 ROWS_MAX digits.now) ≡ Some i) }
    ensures usage { IfErr result (λ _. number_within 0 ROWS_MAX digits.now ≡ None) }
    ensures limits { IfOk result IsInputWithin }
{
    match number_within(digits.as_bytes(), 0, u64::from(ROWS_MAX)) {
        Some(count) => Ok(Input::Sample(count as u32)),
        None => Err(WordsFault::Usage),
    }
}

// Whether the engine is the plain one; `Usage` comes where it is neither that nor `plan`, and where the plan is to be
// explained and there is none.
fn plain_in(matches: &ArgMatches, explain: bool) -> Result<bool, WordsFault>
    ensures ok { IfOk result (λ p. plain_from (first_of (codes "engine") (rows_of (found_of matches.now))) explain ≡ Some p) }
    ensures usage { IfErr result (λ _. plain_from (first_of (codes "engine") (rows_of (found_of matches.now))) explain ≡ None) }
{
    match value_in(matches, "engine") {
        Some("plan") | None => Ok(false),
        Some("plain") if !explain => Ok(true),
        Some(_) => Err(WordsFault::Usage),
    }
}

// The number of an argument, or its default, if it has one, where it is not there.
fn number_in(
    matches: &ArgMatches,
    id: &str,
    default: Option<u64>,
    least: u64,
    most: u64,
) -> Result<u64, WordsFault>
    requires { ForSome default (λ n. (least ≤ n) × (n ≤ most)) }
    ensures ok { IfOk result (λ n. number_or default least most (first_of id.now (rows_of (found_of matches.now))) ≡ Some n) }
    ensures within { IfOk result (λ n. (least ≤ n) × (n ≤ most)) }
    ensures usage { IfErr result (λ _. number_or default least most (first_of id.now (rows_of (found_of matches.now))) ≡ None) }
{
    let number = match value_in(matches, id) {
        Some(digits) => number_within(digits.as_bytes(), least, most),
        None => default,
    };
    number.ok_or(WordsFault::Usage)
}

// Whether a flag is set: `clap` gives it the text `true` where it is there, and `false` where it is not.
fn is_set(matches: &ArgMatches, id: &str) -> bool
    ensures { result ≡ is_set (first_of id.now (rows_of (found_of matches.now))) }
{
    match value_in(matches, id) {
        Some(text) => text == "true",
        None => false,
    }
}

// The text that the matches have for an argument.
fn value_in<'a>(matches: &ArgMatches<'a>, id: &str) -> Option<&'a str>
    ensures { option_map (λ s. s.now) result ≡ first_of id.now (rows_of (found_of matches.now)) }
{
    matches.get_str(id)
}
