//! The answers of both programs: their texts, as plain lines or as JSON, and their exit statuses.
#![tactic(auto)]

mod answer;
mod json_text;
mod solved;
mod texts;

pub use answer::Answer;
pub use json_text::{Figures, json_line};
pub use solved::{figured_answer, solved_answer};
pub use texts::{cycle_text, feasible_text, proved_text, starts_text, violations_text};

/// The version of both programs.
pub const VERSION: &str = "1.0.0";
