//! The arguments of a program, by `clap`, and why they are no call.

ghost use Rattle.std.specs.Prelude.{◌≡◌, IfOk, Some};
ghost use Rattle.clap.specs.Words.{found_of};
ghost use Rattle.command_line.specs.Found.{IsFlag, IsNumber, Names};

use clap::error::ErrorKind;
use clap::{ArgMatches, Command};
use std::alloc::{AllocError, Global};
use thiserror::Error;

/// Why words are no call. The texts are those of `clap`, and are printed as they are.
#[derive(Debug, Drop, Error)]
pub enum ArgumentsFault {
    /// The help that was asked for: to standard output, exit status 0.
    #[error("{text}")]
    Help { text: String },
    /// Words that the program doesn't know: to standard error, exit status 2.
    #[error("{text}")]
    Bad { text: String },
    /// A word is no text.
    #[error("error: a word of the command line is not UTF-8")]
    NoText,
    #[error("out of memory")]
    Memory,
}

impl From<AllocError> for ArgumentsFault {
    fn from(_error: AllocError) -> ArgumentsFault {
        ArgumentsFault::Memory
    }
}

/// What comes on standard input of a command.
fn input_of(command: &str) -> &'static str {
    match command {
        "check" => "starts come",
        "verify" => "a record comes",
        _ => "a project comes",
    }
}

/// Adds a hint to the text of an error, where a word is left over that may be the name of a file.
fn put_hint(
    text: &mut String,
    error: &clap::Error,
    program: &str,
    words: &[String],
) -> Result<(), AllocError> {
    let is_option = text.starts_with("error: unexpected argument '-");
    if error.kind() != ErrorKind::UnknownArgument || is_option {
        return Ok(());
    }
    if let Some(command) = words.get(1) {
        let input = input_of(command);
        write!(
            text,
            "\nhint: {input} on standard input: {program} {command} < FILE\n"
        )?;
    }
    Ok(())
}

/// The fault of an error of `clap`.
fn words_fault(
    alloc: Global,
    error: &clap::Error,
    program: &str,
    words: &[String],
) -> Result<ArgumentsFault, AllocError> {
    if error.kind() == ErrorKind::OutOfMemory {
        return Err(AllocError);
    }
    let mut text = error.to_string(alloc)?;
    if error.exit_code() == 0 {
        return Ok(ArgumentsFault::Help { text });
    }
    put_hint(&mut text, error, program, words)?;
    Ok(ArgumentsFault::Bad { text })
}

/// What a program finds in words; the first word is its name.
pub fn matches_of<'a>(
    alloc: Global,
    program: Command<'a>,
    words: &'a [String],
) -> Result<ArgMatches<'a>, ArgumentsFault> {
    let name = program.get_name();
    match program.try_get_matches_from(words) {
        Ok(matches) => Ok(matches),
        Err(error) => Err(words_fault(alloc, &error, name, words)?),
    }
}

/// The name of a file that an option gives.
pub fn file_name(
    alloc: Global,
    matches: &ArgMatches<'_>,
    option: &str,
) -> Result<Option<String>, AllocError>
    ensures { IfOk result (Names (found_of matches.now) option.now) }
{
    match matches.get_str(option) {
        Some(name) => Ok(Some(String::from_str(alloc, name)?)),
        None => Ok(None),
    }
}

/// Whether a flag is there.
pub fn has_flag(matches: &ArgMatches<'_>, option: &str) -> bool
    ensures { IsFlag (found_of matches.now) option.now result }
{
    matches.get_flag(option)
}

/// The number that an option gives, if it is there.
pub fn number_of(matches: &ArgMatches<'_>, option: &str) -> Option<u64>
    ensures { IsNumber (found_of matches.now) option.now result }
{
    matches.get_one::<u64>(option)
}

/// How many an option gives, if it is there.
pub fn count_of(matches: &ArgMatches<'_>, option: &str) -> Option<usize>
    ensures { IsNumber (found_of matches.now) option.now result }
{
    matches.get_one::<usize>(option)
}
