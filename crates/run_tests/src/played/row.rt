//! Calls that are played through devices, and what they have to tell.

ghost use Rattle.std.specs.Prelude.{◌<◌, IfOk, IfSome};
ghost use Rattle.psmax_run.specs.Jobs.{IsJob};

use crate::gates::HoldingGate;
use crate::played::buffers::{giving, taking};
use crate::played::text_of;
use book::are_allowed;
use devices::{Ended, Input, InputReader, Output, OutputWriter};
use psmax_run::{Job, ONE_WORKER, SearchOptions, run, run_parallel};
use std::alloc::Global;
use std::sync::Wait;
use std::test::Fail;
use std::thread::Threads;
use verify_run::{RecordKind, Scope, run_verify};

/// The number behind an option in words, if it is there.
fn number_after(line: &str, option: &str) -> Option<u64> {
    let (_, rest) = line.split_once(option)?;
    let word = rest.split_whitespace().next()?;
    word.parse().ok()
}

/// The job that words ask for, with a million nodes unless they say otherwise. None of `verify`.
fn job_of(line: &str) -> Result<Option<Job>, Fail>
    ensures { IfOk result (λ job. IfSome job IsJob) }
{
    match line.split(' ').next() {
        Some("verify") => return Ok(None),
        Some("check") => return Ok(Some(Job::Check)),
        Some("tidy") => return Ok(Some(Job::Tidy)),
        _ => {}
    }
    let workers = number_after(line, "--workers").map(|count| count as usize);
    let nodes = number_after(line, "--nodes").unwrap_or(1_000_000);
    if !are_allowed(workers.unwrap_or(ONE_WORKER), nodes) {
        return Err("these words make no job".into());
    }
    Ok(Some(Job::Solve(SearchOptions {
        workers,
        nodes,
        start: line.contains("--start"),
        json: line.contains("--json"),
        recorded: line.contains("--record"),
    })))
}

/// How a job, or `verify`, ends on these devices.
fn ended_of<I: Input, S: Input, O: Output, D: Output, R: Threads + Wait + Sync>(
    rt: &R,
    alloc: Global,
    job: Option<Job>,
    input: &mut I,
    second: &mut S,
    out: &mut O,
    record: &mut D,
    gate: &HoldingGate,
) -> Ended
    requires job { IfSome job IsJob }
    requires input { I.failed input.old < u64.MAX }
    requires second { S.failed second.old < u64.MAX }
    requires out { O.failed out.old < u64.MAX }
    requires record { D.failed record.old < u64.MAX }
{
    let Some(job) = job else {
        return run_verify(alloc, &Scope::Whole, RecordKind::Tree, input, second, out);
    };
    match job.by_workers() {
        Some(options) => run_parallel(rt, alloc, options, input, second, out, record, gate),
        None => run(alloc, job, input, second, out),
    }
}

/// The exit status, the fault, if any, the answer and the record, with a bar behind each of these.
fn ended_text(alloc: Global, ended: Ended, out: &[u8], record: &[u8]) -> Result<String, Fail> {
    let (out, record) = (str::from_utf8(out)?, str::from_utf8(record)?);
    let exit = ended.exit;
    match ended.fault {
        Some(fault) => Ok(format!(in alloc; "{exit} {fault}|{out}|{record}|")?),
        None => Ok(format!(in alloc; "{exit}|{out}|{record}|")?),
    }
}

/// How many bytes outputs take at once, which is more than any text has here.
const CHUNK: usize = 1_000;

/// A call: its words and two texts, and what it has to tell.
#[derive(Clone, Copy, Debug)]
pub(super) struct Row<'a> {
    line: &'a str,
    texts: [&'a str; 2],
    pub(super) wanted: &'a str,
}

impl<'a> Row<'a> {
    /// The row of a text: words, two texts or their names behind semicolons, and behind an arrow what the call has to
    /// tell.
    pub(super) fn of(text: &'a str) -> Row<'a> {
        let (call, wanted) = text.split_once(" -> ").unwrap_or((text, ""));
        let (line, texts) = call.split_once("; ").unwrap_or((call, ""));
        let (first, second) = texts.split_once("; ").unwrap_or((texts, ""));
        Row {
            line,
            texts: [text_of(first), text_of(second)],
            wanted,
        }
    }

    /// The `verify` of the record in what was told of a call, on the project of a name.
    pub(super) fn verifying(told: &'a str, project: &'a str) -> Row<'a> {
        let (_, written) = told.split_once('|').unwrap_or((told, ""));
        let (_, record) = written.split_once('|').unwrap_or((written, ""));
        Row {
            line: "verify --project p",
            texts: [record.strip_suffix('|').unwrap_or(record), text_of(project)],
            wanted: "",
        }
    }

    /// What the call tells.
    pub(super) fn told<R: Threads + Wait + Sync>(
        &self,
        rt: &R,
        alloc: Global,
        gate: &HoldingGate,
    ) -> Result<String, Fail> {
        let job = job_of(self.line)?;
        let [text, second] = self.texts;
        let mut input = InputReader::new(giving(text));
        let mut second = InputReader::new(giving(second));
        let mut out = OutputWriter::new(taking(alloc, CHUNK));
        let mut record = OutputWriter::new(taking(alloc, CHUNK));
        let ended = ended_of(
            rt,
            alloc,
            job,
            &mut input,
            &mut second,
            &mut out,
            &mut record,
            gate,
        );
        let (out, record) = (out.into_inner(), record.into_inner());
        ended_text(alloc, ended, &out.taken, &record.taken)
    }
}
