//! What the arguments ask for. Each call parses them once.
ghost use Rattle.std.specs.Prelude.{◌≡◌, IfOk, IsErrOf, Some, None, is_some, map, string_bytes};
ghost use Rattle.clap.specs.Words.{found_of, rows_of};
ghost use Rattle.pj_words.specs.Words.{about_of, is_refused, is_set, wish_of};
ghost use Rattle.pj_words.specs.Asking.{Asks};
ghost use Rattle.pj_words.specs.declared.fault.WordsFault.TheVariants as faults;

use crate::about::{About, about_of_kind};
use crate::command::command;
use crate::fault::WordsFault;
use clap::error::ErrorKind;
use clap::{ArgMatches, Error};
use pj_value::NoMemory;
use std::alloc::Global;

/// What the arguments ask for.
#[derive(Drop)]
pub(crate) enum Asked {
    /// A run of a script.
    Run { history: bool },
    /// No run. The kind of this error tells whether the program is to say something of itself, or the
    /// arguments aren't taken.
    NoRun(Error),
}

/// Whether the flag `--history` stands among the arguments of which these are the matches.
fn is_history_set(matches: &ArgMatches<'_>) -> bool
    ensures { result ≡ is_set (rows_of (found_of matches.now)) }
{
    matches.get_one("history").unwrap_or(false)
}

/// What the arguments ask for, by one parse.
fn read(alloc: Global, arguments: &[String]) -> Result<Asked, NoMemory>
    ensures { IfOk result (λ asked. Asks asked (map string_bytes arguments.now)) }
{
    let command = command(alloc)?;
    match command.try_get_matches_from(arguments) {
        Ok(matches) => Ok(Asked::Run {
            history: is_history_set(&matches),
        }),
        Err(error) => match error.kind() {
            ErrorKind::OutOfMemory => Err(NoMemory),
            _ => Ok(Asked::NoRun(error)),
        },
    }
}

/// Whether the arguments ask for the text of the history behind the replies. They are the program's name and
/// then the flag `--history` or nothing, as `clap` reads them.
pub fn wants_history(alloc: Global, arguments: &[String]) -> Result<bool, WordsFault>
    ensures taken { IfOk result (λ history. wish_of (map string_bytes arguments.now) ≡ Some history) }

    // So beside out of memory one answer is left.
    ensures usage { IsErrOf result faults.Usage → wish_of (map string_bytes arguments.now) ≡ None }
{
    match read(alloc, arguments)? {
        Asked::Run { history } => Ok(history),
        Asked::NoRun(_) => Err(WordsFault::Usage),
    }
}

/// What the arguments ask the program to say of itself, as by `--help` or `--version`. None where they ask
/// for no such thing: then they ask for a run or aren't taken.
pub fn asked_about(alloc: Global, arguments: &[String]) -> Result<Option<About>, NoMemory>
    ensures { IfOk result (λ about. about ≡ about_of (map string_bytes arguments.now)) }
{
    match read(alloc, arguments)? {
        Asked::Run { history: _ } => Ok(None),
        Asked::NoRun(error) => Ok(about_of_kind(error.kind())),
    }
}

/// Why the arguments aren't taken, and how the program is called, in whole lines as `clap` writes them. None
/// where they ask for a run or about the program.
pub fn usage_text(alloc: Global, arguments: &[String]) -> Result<Option<String>, NoMemory>
    ensures { IfOk result (λ text. is_some text ≡ is_refused (map string_bytes arguments.now)) }
{
    match read(alloc, arguments)? {
        Asked::Run { history: _ } => Ok(None),
        Asked::NoRun(error) => match about_of_kind(error.kind()) {
            Some(_) => Ok(None),
            None => Ok(Some(error.to_string(alloc)?)),
        },
    }
}
