//! The words after the command, which clap reads: options in any order, and names of files.

ghost use Rattle.std.specs.Prelude.{◌≡◌, ◌≢◌, Some, None, false, map, string_bytes, IfOk, IsErrOf};
ghost use Rattle.clap.specs.Words.{app_of, kind_of, rule_of};
ghost use Rattle.clap.specs.declared.error.kind.ErrorKind.TheVariants.{OutOfMemory};
ghost use Rattle.ux_command_line.specs.Matching.{option_rule, files_rule, action_for, app_with, matched, read_by, read_in, values_with};
ghost use Rattle.ux_command_line.specs.declared.error.WordsError.TheVariants.{Usage};

use crate::command::{Command, OptionName};
use crate::error::WordsError;
use crate::names::Names;
use crate::options::Options;
use clap::builder::ValueParser;
use clap::error::ErrorKind;
use clap::{Arg, ArgAction, ArgMatches, Command as App, Error};
use std::alloc::{AllocError, Global};

/// The options and the names of files that the words after a command give.
pub fn read<'a>(
    alloc: Global,
    command: Command,
    words: &'a [String],
) -> Result<(Options<'a>, Names), WordsError>
    ensures ok { IfOk result (λ read.
        read_by command (map string_bytes words.entry.now) ≡ Some (values_with read.0, read.1)) }
    ensures usage { IsErrOf result Usage →
        read_by command (map string_bytes words.entry.now) ≡ None }
{
    let matches = matches_in(alloc, command, words)?;
    let names = Names::of(alloc, &matches)?;
    let options = Options::of(matches).ok_or(WordsError::Usage)?;
    Ok((options, names))
}

/// What clap finds in the words after a command.
fn matches_in<'a>(
    alloc: Global,
    command: Command,
    words: &'a [String],
) -> Result<ArgMatches<'a>, WordsError>
    ensures ok { IfOk result (λ matches.
        read_by command (map string_bytes words.entry.now) ≡ read_in (matched matches)) }
    ensures usage { IsErrOf result Usage →
        read_by command (map string_bytes words.entry.now) ≡ None }
{
    let app = app_with(alloc, command.options())?;
    match app.try_get_matches_from(words) {
        Ok(matches) => Ok(matches),
        Err(error) => Err(cause(&error)),
    }
}

/// The words are no request, where memory didn't run out.
fn cause(error: &Error) -> WordsError
    ensures { result ≡ Usage → kind_of error.now ≢ OutOfMemory }
{
    match error.kind() {
        ErrorKind::OutOfMemory => WordsError::NoMemory,
        _ => WordsError::Usage,
    }
}

/// The command with these options, and names of files.
fn app_with<'a>(alloc: Global, options: &[OptionName]) -> Result<App<'a>, AllocError>
    ensures { IfOk result (λ app. app_of app ≡ app_with options.now) }
{
    let mut app = App::new(alloc, "unitex")
        .no_binary_name(true)
        .disable_help_flag(true);
    for option in options {
        app = app.arg(option_arg(alloc, *option))?;
    }
    app.arg(files_arg(alloc))
}

/// A flag, or an option with a value.
fn option_arg<'a>(alloc: Global, option: OptionName) -> Arg<'a>
    ensures rule { rule_of result ≡ option_rule option }
    ensures own { result.global ≡ false }
{
    let name = option.name();
    Arg::new(alloc, name).long(name).action(action(option))
}

fn action(option: OptionName) -> ArgAction
    ensures { result ≡ action_for option }
{
    if option.is_flag() {
        ArgAction::SetTrue
    } else {
        ArgAction::Set
    }
}

/// Names of files, none of which is empty.
fn files_arg<'a>(alloc: Global) -> Arg<'a>
    ensures rule { rule_of result ≡ files_rule }
    ensures own { result.global ≡ false }
{
    Arg::new(alloc, "files")
        .action(ArgAction::Append)
        .value_parser(ValueParser::NonEmptyString)
}
