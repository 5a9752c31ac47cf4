//! What a run prints and its exit status.

ghost use Rattle.std.specs.Prelude.{◌≡◌, string_bytes};

/// What is to be written, and the exit status once it is.
#[derive(Drop)]
pub struct Answer {
    pub text: Vec<u8>,
    pub exit: u8,
}

impl Answer {
    /// The answer of a text.
    pub fn of(text: String, exit: u8) -> Answer
        ensures text { result.text.items ≡ string_bytes text }
        ensures status { result.exit ≡ exit }
    {
        Answer {
            text: text.into_bytes(),
            exit,
        }
    }
}
