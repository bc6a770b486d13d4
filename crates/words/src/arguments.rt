//! The arguments after the name of a command, read by `clap`.
ghost use Rattle.std.specs.Prelude.{◌≡◌, IfOk, map, option_map, string_bytes};
ghost use Rattle.clap.specs.Words.{app_of};
ghost use Rattle.words.specs.Arguments.{arguments_of};
ghost use Rattle.words.specs.ClapCommand.{app};

use clap::error::ErrorKind;
use clap::{Arg, ArgAction, Command};
use gb_text::Memory;
use std::alloc::{AllocError, Global};

/// The arguments that these give: the first `--` is dropped, and each after it is taken as it is. None
/// if one before it begins with `-` and is longer.
pub(crate) fn read_arguments<'a>(
    alloc: Global,
    rest: &'a [String],
) -> Result<Option<Vec<&'a str>>, Memory>
    ensures { IfOk result (λ read. arguments_of (map string_bytes rest.entry.now)
        ≡ option_map (λ arguments. map (λ s. s.now) arguments.items) read) }
{
    let command = command(alloc)?;
    match command.try_get_matches_from(rest) {
        Ok(matches) => match matches.get_strs("argument") {
            Some(arguments) => Ok(Some(Vec::from_slice(alloc, arguments)?)),
            None => Ok(Some(Vec::new(alloc))),
        },
        Err(error) => match error.kind() {
            ErrorKind::OutOfMemory => Err(Memory),
            _ => Ok(None),
        },
    }
}

// A command of one positional argument, which may be given any number of times.
fn command<'a>(alloc: Global) -> Result<Command<'a>, AllocError>
    ensures { IfOk result (λ command. app_of command ≡ app) }
{
    let argument = Arg::new(alloc, "argument").action(ArgAction::Append);
    Command::new(alloc, "gitbug")
        .no_binary_name(true)
        .disable_help_flag(true)
        .disable_version_flag(true)
        .arg(argument)
}
