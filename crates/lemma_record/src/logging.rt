//! Events go into a log that grows.

ghost use Rattle.std.specs.Prelude.{◌≡◌, ◌<◌, ◌^◌, ◌++◌, length, OnOk, OnErr};
ghost use Rattle.lemma_record.specs.Texts.{whole};
ghost use Rattle.lemma_log.specs.Text.{body_text, event_text};

use crate::{Growing, Naming};
use lemma_log::{Event, put_event};
use std::alloc::{AllocError, Global};

/// Logs an event.
pub(crate) fn log_event<J: Naming>(
    alloc: Global,
    log: &mut Growing<J>,
    event: &Event,
) -> Result<(), AllocError>
    ensures ok { OnOk result (whole log.new ≡ whole log.old ++ event_text event.now) }
    ensures size { OnOk result (length (body_text event.now) < 2 ^ 63) }
{
    let mut text = Vec::new(alloc);
    put_event(&mut text, event)?;
    log.push(&text)
}
