//! The command that `clap` reads the arguments by.
ghost use Rattle.std.specs.Prelude.{◌≡◌, IfOk};
ghost use Rattle.clap.specs.Words.{app_of};
ghost use Rattle.pj_words.specs.Words.{app};

use clap::{Arg, ArgAction, Command};
use std::alloc::{AllocError, Global};

const ABOUT: &str = "Runs a script of SQL sessions from standard input and writes the replies.";

const STATUSES: &str = "Status:
  0  the script was run and all was written
  2  the arguments aren't taken
  3  a line of the script is bad
  4  standard input couldn't be read
  5  standard output couldn't be written
  6  out of memory
  7  the script has more than 16777216 bytes

Example script:
  a: CREATE TABLE t (x UInt64) ENGINE = MergeTree ORDER BY x
  a: INSERT INTO t VALUES (3), (1), (2)
  a: SELECT count() FROM t";

/// The command, with its one flag `--history`.
pub(crate) fn command<'a>(alloc: Global) -> Result<Command<'a>, AllocError>
    ensures { IfOk result (λ command. app_of command ≡ app) }
{
    let history = Arg::new(alloc, "history")
        .long("history")
        .action(ArgAction::SetTrue)
        .help("Writes the history of the run behind the replies");
    Command::new(alloc, "projplay")
        .version("0.1.0")
        .about(ABOUT)
        .after_help(STATUSES)
        .arg(history)
}
