//! A call of psmax: a job and the names of its files, or the check of a record.

use command_line::VerifyCall;
use devices::FileNames;
use psmax_run::Job;

/// The names of the files of a job: its second input, and the output of its record.
#[derive(Drop)]
pub(crate) struct JobNames {
    pub(crate) second: Option<String>,
    pub(crate) record_file: Option<String>,
}

/// A job, and the names of its files.
#[derive(Drop)]
pub(crate) struct Call {
    pub(crate) job: Job,
    pub(crate) names: JobNames,
}

impl Call {
    ghost use Rattle.std.specs.Prelude.{◌≡◌, is_some};

    /// The names of the files of the call.
    pub(crate) fn file_names(&self) -> FileNames<'_>
        ensures second { is_some result.second ≡ is_some self.now.names.second }
        ensures record_file { is_some result.record_file ≡ is_some self.now.names.record_file }
    {
        FileNames {
            second: self.names.second.as_deref(),
            second_option: if self.job == Job::Check {
                "--project"
            } else {
                "--start"
            },
            record_file: self.names.record_file.as_deref(),
            ..FileNames::none()
        }
    }
}

/// What words of psmax ask for.
#[derive(Drop)]
pub(crate) enum PsmaxCall {
    Run(Call),
    Verify(VerifyCall),
}
