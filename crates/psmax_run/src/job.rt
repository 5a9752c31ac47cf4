//! The jobs of psmax.

/// How many workers search by default.
pub const ONE_WORKER: usize = 1;

/// What a search is asked for.
#[derive(Clone, Copy, Debug, PartialEq, Eq)]
pub struct SearchOptions {
    /// How many workers search. With none, one thread searches by itself, unless it has a start or makes a record.
    pub workers: Option<usize>,
    /// How many nodes are expanded at most. Then the answer is what is known.
    pub nodes: u64,
    /// Whether workers search from the starts on the second input.
    pub start: bool,
    /// Whether the answer is one line of JSON, and not plain lines.
    pub json: bool,
    /// Whether workers make a record, which comes where no limit stopped the search.
    pub recorded: bool,
}

/// What the program is to do.
#[derive(Clone, Copy, Debug, PartialEq, Eq)]
pub enum Job {
    /// Print the least schedule of the time lags of a project, or the positive cycle.
    Earliest,
    /// Print a shortest schedule of a project, or that there is none, or what is known.
    Solve(SearchOptions),
    /// Say whether the starts on standard input are a feasible schedule of a project in a file, or
    /// every rule that they break.
    Check,
    /// Print the canonical text of a project.
    Tidy,
}

impl Job {
    ghost use Rattle.std.specs.Prelude.{◌≡◌, false, true, MatchOption};
    ghost use Rattle.psmax_run.specs.declared.job.Job.TheVariants as jobs;
    ghost use Rattle.psmax_run.specs.Jobs.{has_workers};

    /// The options of a search by workers; none of another job.
    pub fn by_workers(self) -> Option<SearchOptions>
        ensures { MatchOption result (has_workers self ≡ false)
            (λ options. (self ≡ jobs.Solve options) × (has_workers self ≡ true)) }
    {
        let Job::Solve(options) = self else {
            return None;
        };
        if options.workers.is_some() || options.start || options.recorded {
            Some(options)
        } else {
            None
        }
    }
}
