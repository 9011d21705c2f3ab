//! The words of the command line, and the request that they make.
//!
//! The words are taken as `clap` takes them. `ui_command` in the specs is the command, and `fault_of` of `clap` says what is wrong with
//! words for it.

ghost use Rattle.std.specs.Prelude.{◌≡◌, [], map, codes, is_some, option_and_then, option_map, Some, true, IfOk, IfErr, string_bytes};
ghost use Rattle.clap.specs.Words.{app_of, fault_of, first_of, found_of, rows_of, subcommand_rows_of};
ghost use Rattle.ui_runner.specs.declared.command_line.WordsFault.TheVariants.{OutOfMemory};
ghost use Rattle.ui_runner.specs.CommandLine.{asked_in, asked_of, asked_view, both, checking_command, names_in, ui_command};

use clap::error::ErrorKind;
use clap::{Arg, ArgMatches, Command, Error};
use std::alloc::{AllocError, Global};
use std::io;

/// The names of the two files of a run.
#[derive(Clone, Copy, Debug, PartialEq, Eq)]
pub struct RunFiles<'a> {
    pub definition: &'a str,
    pub events: &'a str,
}

/// The request that the words make.
#[derive(Clone, Copy, Debug, PartialEq, Eq)]
pub enum Request<'a> {
    /// To check the definition in this file.
    Verify(&'a str),
    /// To run a definition over the lines of an event file.
    Run(RunFiles<'a>),
}

/// The reason why words make no request.
#[derive(Clone, Copy, Debug, PartialEq, Eq)]
pub enum WordsFault {
    Usage,
    OutOfMemory,
}

impl From<AllocError> for WordsFault {
    ghost from_gives = { λ _ fault. fault ≡ OutOfMemory };

    fn from(_error: AllocError) -> WordsFault {
        WordsFault::OutOfMemory
    }
}

impl From<io::Error> for WordsFault {
    fn from(error: io::Error) -> WordsFault {
        match error.kind() {
            io::ErrorKind::OutOfMemory => WordsFault::OutOfMemory,
            _ => WordsFault::Usage,
        }
    }
}

impl From<Error> for WordsFault {
    ghost use Rattle.clap.specs.Words.{kind_of};
    ghost use Rattle.clap.specs.declared.error.kind.ErrorKind.TheVariants as kinds;

    ghost from_gives = { λ error fault. kind_of error ≡ kinds.OutOfMemory → fault ≡ OutOfMemory };

    fn from(error: Error) -> WordsFault {
        match error.kind() {
            ErrorKind::OutOfMemory => WordsFault::OutOfMemory,
            _ => WordsFault::Usage,
        }
    }
}

// Returns the command with only the subcommand that checks a definition.
fn checking_command<'a>(alloc: Global) -> Result<Command<'a>, AllocError>
    ensures { IfOk result (λ c. app_of c ≡ checking_command) }
{
    let definition = Arg::new(alloc, "DEF").required(true);
    let verify = Command::new(alloc, "verify").arg(definition)?;
    Command::new(alloc, "ui").subcommand(verify)
}

// Returns the command of the program.
fn command<'a>(alloc: Global) -> Result<Command<'a>, AllocError>
    ensures { IfOk result (λ c. app_of c ≡ ui_command) }
{
    let definition = Arg::new(alloc, "DEF").required(true);
    let events = Arg::new(alloc, "EVENTS").required(true);
    let run = Command::new(alloc, "run").arg(definition)?.arg(events)?;
    checking_command(alloc)?.subcommand(run)
}

// Returns the names of the two files that a subcommand was given, if it was given both.
#[tactic(auto, using(crate::proofs::CommandLine::first_value_is))]
fn names_in<'a>(matches: &ArgMatches<'a>) -> Option<RunFiles<'a>>
    ensures { option_map (λ r. (r.definition.now, r.events.now)) result ≡ both (first_of (codes "DEF") (rows_of (found_of matches.now))) (first_of (codes "EVENTS") (rows_of (found_of matches.now))) }
{
    let definition = matches.get_str("DEF")?;
    let events = matches.get_str("EVENTS")?;
    Some(RunFiles { definition, events })
}

// Returns the name of the definition that a subcommand was given, if it was given one.
#[tactic(auto, using(crate::proofs::CommandLine::first_value_is))]
fn definition_in<'a>(matches: &ArgMatches<'a>) -> Option<&'a str>
    ensures { option_map (λ s. s.now) result ≡ first_of (codes "DEF") (rows_of (found_of matches.now)) }
{
    matches.get_str("DEF")
}

// Returns the request of a subcommand with what was given to it.
fn request_in<'a>(name: &str, matches: &ArgMatches<'a>) -> Option<Request<'a>>
    ensures { option_map asked_view result ≡ asked_in (name.now, rows_of (found_of matches.now)) }
{
    if name == "verify" {
        let definition = definition_in(matches)?;
        return Some(Request::Verify(definition));
    }
    let files = names_in(matches)?;
    Some(Request::Run(files))
}

// Returns the request of words that were taken.
fn request_of<'a>(matches: &ArgMatches<'a>) -> Option<Request<'a>>
    ensures { option_map asked_view result ≡ option_and_then asked_in (subcommand_rows_of matches.now) }
{
    let (name, used) = matches.subcommand()?;
    request_in(name, used)
}

/// Reads the words, of which the first is the name of the program.
///
/// # Errors
///
/// Returns `Usage` if `clap` finds a fault in the words or they make no request, and `OutOfMemory` if memory is refused.
pub fn read_words<'a>(alloc: Global, words: &'a [String]) -> Result<Request<'a>, WordsFault>
    ensures request { IfOk result (λ r. asked_of (map string_bytes words.now) ≡ Some (asked_view r)) }
    ensures fitting { IfOk result (λ r. fault_of ui_command (map string_bytes words.now) ≡ []) }
    ensures refused { IfErr result (λ e. fault_of ui_command (map string_bytes words.now) ≡ [] → is_some (asked_of (map string_bytes words.now)) ≡ true → e ≡ OutOfMemory) }
{
    let matches = command(alloc)?.try_get_matches_from(words)?;
    request_of(&matches).ok_or(WordsFault::Usage)
}
