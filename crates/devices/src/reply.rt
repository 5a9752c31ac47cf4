//! An answer on one output, and a record on another.

ghost use Rattle.std.specs.Prelude.{◌≡◌, ◌<◌, Some, IfNone, IfSome};
ghost use Rattle.devices.specs.declared.fault.Fault.TheVariants as faults;
ghost use Rattle.devices.specs.Faults.{exit_of};
ghost use Rattle.devices.specs.Runs.{span, OneFailedWhere, IsCutShort, IsWritten};

use crate::device::{Failed, Output, write_all};
use crate::ended::{Ended, write_answer};
use crate::fault::Fault;
use answers::Answer;
use std::marker::Model;

/// An answer, and the text of the record that is written after it, if any.
#[derive(Drop)]
pub struct Reply {
    pub(crate) answer: Answer,
    pub(crate) recorded: Option<Vec<u8>>,
}

impl Model for Reply {
    ghost use Rattle.std.specs.Prelude.{option_map};
    ghost use Rattle.devices.specs.Runs.{ReplyOf};

    ghost Value = { ReplyOf };

    ghost view = { λ r. record {
      exit = r.answer.exit;
      text = r.answer.text.items;
      recorded = option_map (λ text. text.items) r.recorded;
    } };
}

impl Reply {
    ghost use Rattle.std.specs.Prelude.{◌≡◌, option_map};

    /// The reply of these parts.
    pub fn new(answer: Answer, recorded: Option<Vec<u8>>) -> Reply
        ensures exit { result.exit ≡ answer.exit }
        ensures text { result.text ≡ answer.text.items }
        ensures recorded { result.recorded ≡ option_map (λ text. text.items) recorded }
    {
        Reply { answer, recorded }
    }
}

/// Writes an answer, and then its record, if there is one.
pub fn write_reply<O: Output, D: Output>(out: &mut O, record_out: &mut D, reply: &Reply) -> Ended
    requires out { O.failed out.old < u64.MAX }
    requires record_out { D.failed record_out.old < u64.MAX }
    ensures whole { IfNone result.fault ((result.exit ≡ reply.now.exit) × IsWritten reply.now
        (span O.held O.failed out.old out.new) (span D.held D.failed record_out.old record_out.new)) }
    ensures cut_short { result.fault ≡ Some faults.WriteFailed → IsCutShort reply.now
        (span O.held O.failed out.old out.new) (span D.held D.failed record_out.old record_out.new) }
    ensures fault { IfSome result.fault (λ fault. (fault ≡ faults.WriteFailed) × (result.exit ≡ exit_of fault)) }
    ensures failed { OneFailedWhere (result.fault ≡ Some faults.WriteFailed)
        (span O.held O.failed out.old out.new) (span D.held D.failed record_out.old record_out.new) }
{
    let ended = write_answer(out, &reply.answer);
    if ended.fault.is_some() {
        return ended;
    }
    let Some(text) = &reply.recorded else {
        return ended;
    };
    match write_all(record_out, text) {
        Ok(()) => ended,
        Err(Failed) => Ended::with(Fault::WriteFailed),
    }
}
