//! The program's command, with its help.

ghost use Rattle.std.specs.Prelude.{IfOk};
ghost use Rattle.sok_words.specs.Shapes.{Builds, sok_app, sok_top};

use crate::subcommand::subcommands;
use clap::Command;
use std::alloc::{AllocError, Global};

const LONG_ABOUT: &str = "\
A Sokoban workbench: plays, solves and keeps levels, with proved answers.

Without a command, as in `sok < INPUT`, it reads a line of letters and then a
collection, and plays the letters on the first level.";

/// The version of the program, and of the prover.
const VERSION: &str = "1.0\nproved with rattle-kit-13f logic dac8208d650f15bf";

const AFTER_HELP: &str = "\
Exit status:
  0  done
  1  no: not solved, certificate refused, or offer not better
  2  the words can't be read
  3  an input is refused, or a line of offers
  4  the limit of states is exceeded, or settle leaves a level untested
  5  a file, a stream or the database failed
  6  memory was refused
A fault is one line on the error stream: fault NUMBER NAME, and its arguments.
Rows, columns, letters, bytes and entries are counted from 0, and lines from 1.
With status 5, a second line says what failed. An input may have 16,777,216
bytes, and a certificate 268,435,456.";

/// Returns the program's command.
pub(crate) fn sok_command<'a>(alloc: Global) -> Result<Command<'a>, AllocError>
    ensures { IfOk result (Builds sok_app) }
{
    let mut command = top_command(alloc);
    for subcommand in &subcommands() {
        let own = subcommand.command(alloc)?;
        command = command.subcommand(own)?;
    }
    Ok(command)
}

/// Returns the program's command without its subcommands, one of which is required.
fn top_command<'a>(alloc: Global) -> Command<'a>
    ensures { Builds sok_top result }
{
    Command::new(alloc, "sok")
        .about("A Sokoban workbench: plays, solves and keeps levels, with proved answers")
        .long_about(LONG_ABOUT)
        .version(VERSION)
        .after_help(AFTER_HELP)
        .subcommand_required(true)
}
