//! Programs, subcommands and options as both programs have them, by `clap`.

use answers::VERSION;
use clap::{Arg, ArgAction, Command, value_parser};
use std::alloc::{AllocError, Global};

/// The heading of every help of a program of this name.
pub fn heading(alloc: Global, program: &str) -> Result<String, AllocError> {
    format!(in alloc; "{program} {VERSION}")
}

/// A program of this name without its subcommands: its heading, what it does in a line, and what stands below.
pub fn program_command<'a>(
    alloc: Global,
    name: &'a str,
    heading: &'a str,
    about: &'a str,
    more: &'a str,
) -> Result<Command<'a>, AllocError> {
    let program = subcommand(alloc, heading, name, about, more).bin_name(name)?;
    let program = program.version(VERSION).subcommand_required(true);
    Ok(program.disable_help_subcommand(true))
}

/// A subcommand with its help: the program's heading, what it does in a line, and what stands below its options.
pub fn subcommand<'a>(
    alloc: Global,
    heading: &'a str,
    name: &'a str,
    about: &'a str,
    more: &'a str,
) -> Command<'a> {
    Command::new(alloc, name)
        .before_help(heading)
        .about(about)
        .after_help(more)
}

/// An option that takes a number within these bounds.
pub fn number<'a>(
    alloc: Global,
    name: &'a str,
    value: &'a str,
    about: &'a str,
    least: i64,
    most: i64,
) -> Arg<'a> {
    Arg::new(alloc, name)
        .long(name)
        .value_name(value)
        .help(about)
        .value_parser(value_parser!(u64).range(least..=most))
}

/// An option that is there or not.
pub fn flag<'a>(alloc: Global, name: &'a str, about: &'a str) -> Arg<'a> {
    Arg::new(alloc, name)
        .long(name)
        .help(about)
        .action(ArgAction::SetTrue)
}

/// An option that takes the name of a file.
pub fn file<'a>(alloc: Global, name: &'a str, about: &'a str) -> Arg<'a> {
    Arg::new(alloc, name)
        .long(name)
        .value_name("FILE")
        .help(about)
        .action(ArgAction::Set)
}

/// A subcommand that checks standard input against the project in a file.
pub fn project_subcommand<'a>(
    alloc: Global,
    heading: &'a str,
    name: &'a str,
    about: &'a str,
    more: &'a str,
) -> Result<Command<'a>, AllocError> {
    let project = file(alloc, "project", "Check against the project in FILE").required(true);
    subcommand(alloc, heading, name, about, more).arg(project)
}
