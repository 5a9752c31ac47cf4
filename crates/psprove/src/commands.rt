//! The commands of psprove and their options, by `clap`.

ghost use Rattle.std.specs.Prelude.{◌≡◌, Some, IfOk, IfSome, codes, string_bytes, unwrap_or};
ghost use Rattle.clap.specs.Words.{found_of};
ghost use Rattle.clap.specs.Matches.{first_value};
ghost use Rattle.command_line.specs.Found.{IsNumberOr};
ghost use Rattle.psprove.specs.Calls.{AreLimits, IsCubeOf, IsFormOf, IsJoinOf, IsSearchOf, IsSolveOf, IsWorkOf};

use crate::cube::CubeCall;
use crate::reports::ReportForm;
use crate::solve::SolveCall;
use crate::{PROGRAM, help};
use clap::{Arg, ArgMatches, Command};
use command_line::{
    ArgumentsFault, VerifyCall, file, file_name, flag, has_flag, heading, matches_of, number,
    number_of, program_command, project_subcommand, read_arguments, subcommand, verify_call,
    verify_command,
};
use psprove_run::SolveOptions;
use session::{Limits, MAX_JOBS};
use std::alloc::{AllocError, Global};

/// How many seconds a search has by default.
const DEFAULT_SECONDS: &str = "60";

/// How many searches run side by side by default.
const DEFAULT_JOBS: &str = "1";

/// How many MiB the lemmas of a search may take by default.
const DEFAULT_MEMORY: &str = "512";

/// The most MiB of `--memory`: 1 TiB.
const MAX_MEMORY: i64 = 1_048_576;

/// The most conflicts and the most seconds of the options.
const MAX_LIMIT: i64 = 1_000_000_000;

/// The greatest makespan of `--below`.
const MAX_BELOW: i64 = 1_002_000_000;

/// The option that has a cube searched, without which its other options have no meaning.
const UNDER: &str = "under";

/// The forms of `--progress`.
const FORMS: &[&str] = &["lines", "json"];

/// What words ask for.
#[derive(Debug, Drop)]
pub(crate) enum Subcommand {
    Verify(VerifyCall),
    Solve(SolveCall),
    Cube(CubeCall),
    /// Of a record of the project in this file.
    Trim(String),
}

/// The most pieces of a cube.
const MAX_PIECES: i64 = 1_024;

/// The options that say how far a search goes.
fn limits<'a>(alloc: Global) -> Result<Vec<Arg<'a>>, AllocError> {
    let seconds = "End after S seconds";
    let conflicts = "End each search after N conflicts";
    let until = "End once there is a file FILE";
    let jobs = "Run N searches side by side, each in its own thread, 1 to 64";
    let seed = "Break ties by the seed K";
    let memory = "Limit the lemmas of each search to MIB MiB";
    Ok(vec![in alloc;
        number(alloc, "seconds", "S", seconds, 0, MAX_LIMIT).default_value(DEFAULT_SECONDS),
        number(alloc, "conflicts", "N", conflicts, 0, MAX_LIMIT),
        file(alloc, "until", until),
        number(alloc, "jobs", "N", jobs, 1, MAX_JOBS as i64).default_value(DEFAULT_JOBS),
        number(alloc, "seed", "K", seed, 0, MAX_LIMIT),
        number(alloc, "memory", "MIB", memory, 1, MAX_MEMORY).default_value(DEFAULT_MEMORY),
    ]?)
}

/// An option that takes a form of reports, or none.
fn progress<'a>(alloc: Global) -> Arg<'a> {
    Arg::new(alloc, "progress")
        .long("progress")
        .value_name("FORM")
        .help("Report each shorter schedule and greater bound on standard error, by lines or json")
        .num_args(0..=1)
        .default_missing_value(FORMS[0])
        .value_parser(FORMS)
}

/// The option that has a cube searched.
fn path_option<'a>(alloc: Global) -> Result<Arg<'a>, AllocError> {
    let under = "Search the cube whose path is in FILE: an arc a line, FROM TO WEIGHT";
    let path = file(alloc, UNDER, under).requires_arg("project")?;
    let path = path.requires_arg("record")?.conflicts_with("jobs")?;
    path.conflicts_with("progress")?.conflicts_with("resume")
}

/// The options of a search of a cube.
fn cube_options<'a>(alloc: Global) -> Result<Vec<Arg<'a>>, AllocError> {
    let import = "Use the lemmas in FILE, which searches of other cubes exported";
    let export = "Write lemmas for searches of other cubes into FILE";
    let guide = "Try the starts of the feasible schedule in FILE first";
    let below = "Look only for schedules shorter than C";
    let pieces = "Split the cube into P pieces where it stays open";
    let mut options = Vec::with_capacity(alloc, 6)?;
    options.push_reserved(path_option(alloc)?);
    options.push_reserved(file(alloc, "import", import).requires_arg(UNDER)?);
    options.push_reserved(file(alloc, "export", export).requires_arg(UNDER)?);
    options.push_reserved(file(alloc, "guide", guide).requires_arg(UNDER)?);
    options.push_reserved(number(alloc, "below", "C", below, 0, MAX_BELOW));
    let pieces = number(alloc, "pieces", "P", pieces, 1, MAX_PIECES);
    options.push_reserved(pieces.requires_arg(UNDER)?);
    Ok(options)
}

fn solve_command<'a>(alloc: Global, heading: &'a str) -> Result<Command<'a>, AllocError> {
    let about = "Print a shortest schedule of a project, with a record of lemmas that proves it";
    let start = "Start from the feasible schedule in FILE";
    let json = "Print the answer as one line of JSON";
    let record = "Write the record that proves the answer into FILE";
    let resume = "Go on from the record in FILE";
    let project = "Read the project from FILE, not from standard input";
    let follow = "Take shorter schedules from standard input, whose end ends the search";
    let limits = limits(alloc)?;
    let options = vec![in alloc;
        file(alloc, "start", start),
        file(alloc, "resume", resume),
        flag(alloc, "json", json),
        file(alloc, "record", record),
        progress(alloc),
        file(alloc, "project", project),
        flag(alloc, "follow", follow).requires_arg("project")?,
    ]?;
    let of_cube = cube_options(alloc)?;
    let command = subcommand(alloc, heading, "solve", about, help::SOLVE);
    command.args(limits)?.args(options)?.args(of_cube)
}

fn join_command<'a>(alloc: Global, heading: &'a str) -> Result<Command<'a>, AllocError> {
    let about = "Join the records of cubes into one record of the project";
    let tree = "Read the cubes from FILE: NAME RECORD LEMMAS and the path, a cube a line";
    let start = "Begin with the feasible schedule in FILE";
    let json = "Print the answer as one line of JSON";
    let record = "Write the record that proves the answer into FILE";
    let options = vec![in alloc;
        file(alloc, "tree", tree).required(true),
        file(alloc, "start", start),
        flag(alloc, "json", json),
        file(alloc, "record", record),
    ]?;
    project_subcommand(alloc, heading, "join", about, help::JOIN)?.args(options)
}

fn commands<'a>(alloc: Global, heading: &'a str) -> Result<Vec<Command<'a>>, AllocError> {
    let trim = "Trim the record on standard input to what its claim rests on";
    let mut commands = Vec::with_capacity(alloc, 4)?;
    commands.push_reserved(solve_command(alloc, heading)?);
    commands.push_reserved(verify_command(alloc, heading)?);
    commands.push_reserved(join_command(alloc, heading)?);
    commands.push_reserved(project_subcommand(alloc, heading, "trim", trim, help::TRIM)?);
    Ok(commands)
}

fn program<'a>(alloc: Global, heading: &'a str) -> Result<Command<'a>, AllocError> {
    let about = "Solve projects with resources and time lags, and check records";
    let commands = commands(alloc, heading)?;
    program_command(alloc, PROGRAM, heading, about, help::PROGRAM)?.subcommands(commands)
}

/// The form of reports.
fn form(alloc: Global, matches: &ArgMatches<'_>) -> Result<ReportForm, AllocError>
    ensures { IfOk result (IsFormOf (first_value (found_of matches.now) (codes "progress"))) }
{
    let word = file_name(alloc, matches, "progress")?;
    Ok(match word.as_deref() {
        None => ReportForm::Nothing,
        Some("json") => ReportForm::Json,
        Some(_) => ReportForm::Lines,
    })
}

/// The number that an option gives, or another one.
fn number_or(matches: &ArgMatches<'_>, option: &str, otherwise: u64) -> u64
    ensures { IsNumberOr otherwise (found_of matches.now) option.now result }
{
    number_of(matches, option).unwrap_or(otherwise)
}

/// How far a search goes, with one job.
fn limits_of(matches: &ArgMatches<'_>) -> Limits
    ensures limits { AreLimits (found_of matches.now) result }
    ensures jobs { result.jobs ≡ 1 }
{
    let memory = number_or(matches, "memory", 1);
    Limits {
        jobs: 1,
        conflicts: number_or(matches, "conflicts", u64::MAX),
        seconds: number_or(matches, "seconds", 0),
        seed: number_or(matches, "seed", 0),
        memory: memory.saturating_mul(1 << 20),
        below: number_of(matches, "below"),
    }
}

/// A search, and the names of its files.
fn search_of(alloc: Global, matches: &ArgMatches<'_>) -> Result<SolveCall, AllocError>
    ensures { IfOk result (IsSearchOf (found_of matches.now)) }
{
    let start = file_name(alloc, matches, "start")?;
    Ok(SolveCall {
        options: SolveOptions {
            limits: Limits {
                jobs: number_or(matches, "jobs", 1),
                ..limits_of(matches)
            },
            start: start.is_some(),
            json: has_flag(matches, "json"),
        },
        form: form(alloc, matches)?,
        start,
        resume: file_name(alloc, matches, "resume")?,
        tree: None,
        record: file_name(alloc, matches, "record")?,
        until: file_name(alloc, matches, "until")?,
        follow: has_flag(matches, "follow"),
        project: file_name(alloc, matches, "project")?,
    })
}

/// A join of records: nothing is searched.
fn join_of(alloc: Global, matches: &ArgMatches<'_>) -> Result<SolveCall, AllocError>
    ensures { IfOk result (IsJoinOf (found_of matches.now)) }
{
    let start = file_name(alloc, matches, "start")?;
    Ok(SolveCall {
        options: SolveOptions {
            limits: Limits::NO_SEARCH,
            start: start.is_some(),
            json: has_flag(matches, "json"),
        },
        form: ReportForm::Nothing,
        start,
        resume: None,
        tree: file_name(alloc, matches, "tree")?,
        record: file_name(alloc, matches, "record")?,
        until: None,
        follow: false,
        project: file_name(alloc, matches, "project")?,
    })
}

/// The name that an option has to have.
fn needed_name(alloc: Global, matches: &ArgMatches<'_>, name: &str) -> Result<String, AllocError>
    ensures { IfOk result (λ found.
        string_bytes found ≡ unwrap_or (first_value (found_of matches.now) name.now) (codes "")) }
{
    Ok(file_name(alloc, matches, name)?.unwrap_or(String::new(alloc)))
}

/// A search of the cube whose path is in a file.
fn cube_of(alloc: Global, matches: &ArgMatches<'_>, path: String) -> Result<CubeCall, AllocError>
    requires { first_value (found_of matches.now) (codes "under") ≡ Some (string_bytes path) }
    ensures { IfOk result (IsCubeOf (found_of matches.now)) }
{
    Ok(CubeCall {
        limits: limits_of(matches),
        pieces: number_or(matches, "pieces", 1),
        project: needed_name(alloc, matches, "project")?,
        path,
        start: file_name(alloc, matches, "start")?,
        guide: file_name(alloc, matches, "guide")?,
        import: file_name(alloc, matches, "import")?,
        export: file_name(alloc, matches, "export")?,
        record: needed_name(alloc, matches, "record")?,
        until: file_name(alloc, matches, "until")?,
        follow: has_flag(matches, "follow"),
    })
}

/// A search, of a cube if there is a path.
fn solve_of(alloc: Global, matches: &ArgMatches<'_>) -> Result<Subcommand, AllocError>
    ensures { IfOk result (IsSolveOf (found_of matches.now)) }
{
    match file_name(alloc, matches, UNDER)? {
        Some(path) => Ok(Subcommand::Cube(cube_of(alloc, matches, path)?)),
        None => Ok(Subcommand::Solve(search_of(alloc, matches)?)),
    }
}

/// What the matches ask for. None if words ask for nothing, which `clap` doesn't let pass.
fn found_work(alloc: Global, matches: &ArgMatches<'_>) -> Result<Option<Subcommand>, ArgumentsFault>
    ensures { IfOk result (λ work. IfSome work (IsWorkOf matches.now)) }
{
    match matches.subcommand() {
        Some(("solve", found)) => Ok(Some(solve_of(alloc, found)?)),
        Some(("join", found)) => Ok(Some(Subcommand::Solve(join_of(alloc, found)?))),
        Some(("trim", found)) => {
            let project = needed_name(alloc, found, "project")?;
            Ok(Some(Subcommand::Trim(project)))
        }
        Some(("verify", found)) => match verify_call(alloc, found)? {
            Some(call) => Ok(Some(Subcommand::Verify(call))),
            None => Ok(None),
        },
        _ => Ok(None),
    }
}

/// What the words of the command line ask for.
pub(crate) fn work_of(rt: &HostRuntime) -> Result<Subcommand, ArgumentsFault> {
    let (alloc, words) = (rt.alloc(), read_arguments(rt)?);
    let heading = heading(alloc, PROGRAM)?;
    let matches = matches_of(alloc, program(alloc, &heading)?, &words)?;
    found_work(alloc, &matches)?.ok_or(ArgumentsFault::Bad {
        text: String::new(alloc),
    })
}
