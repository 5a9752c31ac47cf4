//! What holds of the texts of logs.

ghost use Rattle.lemma_log.specs.Logs.{LogIsOne, LogIsSpelled};

/// Laws over the definitions. The title and writable events, as they are written one after another, spell these events.
/// A text spells the events of one log at most.
pub fn spelling_law()
    ensures spelled { LogIsSpelled }
    ensures one { LogIsOne }
{}
