//! An answer as one line of JSON.

ghost use Rattle.std.specs.Prelude.{◌≡◌, ◌++◌, ◌∷◌, [], IfOk, string_bytes, codes, option_map, map, Some, false};
ghost use Rattle.json.specs.Print.{escape};
ghost use Rattle.serde_json.specs.View.{view};
ghost use Rattle.serde_json.specs.Written.{compact_text, has_float};
ghost use Rattle.answers.specs.Answers.{number_data, list_data, answer_data, json_line};
ghost use Rattle.answers.specs.Figured.{figured_data, figured_line};

use crate::VERSION;
use serde_json::{Value, json};
use std::alloc::{AllocError, Global};

fn number_or_null(number: Option<i64>) -> Value
    ensures { view result ≡ number_data number }
{
    match number {
        None => Value::Null,
        Some(number) => Value::from(number),
    }
}

fn values(alloc: Global, numbers: &[i64]) -> Result<Vec<Value>, AllocError>
    ensures { IfOk result (λ v. map view v.items ≡ map (λ z. number_data (Some z)) numbers.now) }
{
    let mut values = Vec::new(alloc);
    for number in numbers {
        values.push(Value::from(*number))?;
    }
    Ok(values)
}

fn list_or_null(alloc: Global, numbers: Option<&[i64]>) -> Result<Value, AllocError>
    ensures { IfOk result (λ v. view v ≡ list_data (option_map (λ n. n.now) numbers.entry)) }
{
    match numbers {
        None => Ok(Value::Null),
        Some(numbers) => Ok(Value::Array(values(alloc, numbers)?)),
    }
}

/// The answer as a value.
fn answer_value(
    alloc: Global,
    bound: Option<i64>,
    makespan: Option<i64>,
    starts: Option<&[i64]>,
    status: &str,
) -> Result<Value, AllocError>
    ensures { IfOk result (λ v. view v
        ≡ answer_data bound makespan (option_map (λ n. n.now) starts.entry) status.now) }
{
    json!(in alloc; {
        "bound": number_or_null(bound),
        "makespan": number_or_null(makespan),
        "starts": list_or_null(alloc, starts)?,
        "status": status
    })
}

/// A value as one line.
fn line_of(alloc: Global, value: &Value) -> Result<String, AllocError>
    requires { has_float (view value.now) ≡ false }
    ensures { IfOk result (λ t. string_bytes t ≡ compact_text (view value.now) ++ codes "\n") }
{
    let mut line = value.to_string(alloc)?;
    line.push_str("\n")?;
    Ok(line)
}

/// The answer as one line of JSON, under a status that needs no escapes.
pub fn json_line(
    alloc: Global,
    bound: Option<i64>,
    makespan: Option<i64>,
    starts: Option<&[i64]>,
    status: &str,
) -> Result<String, AllocError>
    requires { escape status.now ≡ status.now }
    ensures { IfOk result (λ t. string_bytes t
        ≡ json_line bound makespan (option_map (λ n. n.now) starts.entry) status.now) }
{
    let value = answer_value(alloc, bound, makespan, starts, status)?;
    line_of(alloc, &value)
}

/// How much a search of psprove did, and how long the record is that shows what it found.
#[derive(Clone, Copy, PartialEq, Eq, Debug)]
pub struct Figures {
    pub conflicts: u64,
    pub decisions: u64,
    /// How many bytes the record has.
    pub record_bytes: u64,
    /// Whole seconds by the clock, from the start of the search to its end.
    pub seconds: u64,
}

/// The answer with the figures as a value.
fn figured_value(
    alloc: Global,
    figures: &Figures,
    bound: Option<i64>,
    makespan: Option<i64>,
    starts: Option<&[i64]>,
    status: &str,
) -> Result<Value, AllocError>
    ensures { IfOk result (λ v. view v
        ≡ figured_data figures.now bound makespan (option_map (λ n. n.now) starts.entry) status.now) }
{
    json!(in alloc; {
        "bound": number_or_null(bound),
        "conflicts": figures.conflicts,
        "decisions": figures.decisions,
        "makespan": number_or_null(makespan),
        "record_bytes": figures.record_bytes,
        "seconds": figures.seconds,
        "starts": list_or_null(alloc, starts)?,
        "status": status,
        "version": VERSION
    })
}

/// The answer with the figures as one line of JSON.
pub(crate) fn figured_line(
    alloc: Global,
    figures: &Figures,
    bound: Option<i64>,
    makespan: Option<i64>,
    starts: Option<&[i64]>,
    status: &str,
) -> Result<String, AllocError>
    ensures { IfOk result (λ t. string_bytes t
        ≡ figured_line figures.now bound makespan (option_map (λ n. n.now) starts.entry) status.now) }
{
    let value = figured_value(alloc, figures, bound, makespan, starts, status)?;
    line_of(alloc, &value)
}
