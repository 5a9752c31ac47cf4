//! How a run ends: with its answer written, or with a fault.

ghost use Rattle.std.specs.Prelude.{◌≡◌, ◌<◌, Some, IfSome, IfNone};
ghost use Rattle.devices.specs.declared.fault.Fault.TheVariants as faults;
ghost use Rattle.devices.specs.Faults.{exit_of};
ghost use Rattle.devices.specs.Runs.{span, FailedWhere, TookAll, TookFront};

use crate::device::{Failed, Output, write_all};
use crate::fault::Fault;
use answers::Answer;

/// How a run ended: the exit status, and the fault that is printed, if any.
#[derive(Clone, Copy, Debug, PartialEq, Eq)]
pub struct Ended {
    pub exit: u8,
    pub fault: Option<Fault>,
}

impl Ended {
    ghost use Rattle.std.specs.Prelude.{◌≡◌, Some};
    ghost use Rattle.devices.specs.Faults.{exit_of};

    /// The end of a run that has no answer.
    pub fn with(fault: Fault) -> Ended
        ensures fault { result.fault ≡ Some fault }
        ensures status { result.exit ≡ exit_of fault }
    {
        Ended {
            exit: fault.exit(),
            fault: Some(fault),
        }
    }
}

/// Writes an answer.
pub fn write_answer<O: Output>(out: &mut O, answer: &Answer) -> Ended
    requires { O.failed out.old < u64.MAX }
    ensures whole { IfNone result.fault ((result.exit ≡ answer.now.exit)
        × TookAll (span O.held O.failed out.old out.new) answer.now.text.items) }
    ensures fault { IfSome result.fault (λ fault. (fault ≡ faults.WriteFailed) × (result.exit ≡ exit_of fault)) }
    ensures front { TookFront (span O.held O.failed out.old out.new) answer.now.text.items }
    ensures failed { FailedWhere (result.fault ≡ Some faults.WriteFailed) (span O.held O.failed out.old out.new) }
{
    match write_all(out, &answer.text) {
        Ok(()) => Ended {
            exit: answer.exit,
            fault: None,
        },
        Err(Failed) => Ended::with(Fault::WriteFailed),
    }
}
