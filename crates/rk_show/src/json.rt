// A trace as JSON.
ghost use Rattle.std.specs.Prelude.{◌≡◌, ◌++◌, codes, map, string_bytes, IfOk};
ghost use Rattle.std.specs.List.{AllByRecursion};
ghost use Rattle.serde_json.specs.Data.{array};
ghost use Rattle.serde_json.specs.View.{members_view, view};
ghost use Rattle.serde_json.specs.Written.{compact_text};
ghost use Rattle.rk_show.specs.Json.{json_text, record_data, record_members, records_data, text_data};
ghost use Rattle.rk_show.specs.Traces.{IsCounted};

use crate::showing::shown;
use rk_base::{Bytes, NoMemory};
use rk_traces::own;
use serde_json::{Map, Value, put};
use std::alloc::Global;
use tr_record::Record;

// A word or a path as lines show it.
fn text_value(alloc: Global, text: &[u8]) -> Result<Value, NoMemory>
    ensures { IfOk result (λ v. view v ≡ text_data text.now) }
{
    let shown = shown(alloc, text)?;
    // What is shown is ASCII.
    let Ok(shown) = str::from_utf8(shown.as_slice()) else {
        unreachable!()
    };
    let value = Value::try_from_str(alloc, shown)?;
    Ok(value)
}

fn word_values(alloc: Global, words: &[Bytes]) -> Result<Vec<Value>, NoMemory>
    ensures { IfOk result (λ vs. map view vs.items ≡ map text_data words.now) }
{
    let mut values = Vec::new(alloc);
    for word in words {
        values.push(text_value(alloc, word.as_slice())?)?;
    }
    Ok(values)
}

// The members of a record, with its words and its directory.
fn record_members(
    alloc: Global,
    argv: Value,
    rec: &Record,
    wd: Value,
) -> Result<Map<String, Value>, NoMemory>
    requires { IsCounted rec.now }
    ensures { IfOk result (λ m. members_view m.entries ≡ record_members (view argv) rec.now (view wd)) }
{
    let exit = Value::from(rec.exit);
    let ordinal = Value::from(rec.ordinal);
    let steps = Value::from(rec.steps.len());
    let turns = Value::from(own(rec));
    let mut members = Map::new(alloc);
    put(&mut members, alloc, "argv", argv)?;
    put(&mut members, alloc, "exit", exit)?;
    put(&mut members, alloc, "ordinal", ordinal)?;
    put(&mut members, alloc, "steps", steps)?;
    put(&mut members, alloc, "turns", turns)?;
    put(&mut members, alloc, "wd", wd)?;
    Ok(members)
}

fn record_value(alloc: Global, rec: &Record) -> Result<Value, NoMemory>
    requires { IsCounted rec.now }
    ensures { IfOk result (λ v. view v ≡ record_data rec.now) }
{
    let words = word_values(alloc, rec.key.argv().as_slice())?;
    let argv = Value::from(words);
    let wd = text_value(alloc, rec.key.wd().text())?;
    let members = record_members(alloc, argv, rec, wd)?;
    Ok(Value::from(members))
}

fn record_values(alloc: Global, table: &[Record]) -> Result<Vec<Value>, NoMemory>
    requires { AllByRecursion IsCounted table.now }
    ensures { IfOk result (λ vs. map view vs.items ≡ map record_data table.now) }
{
    let mut values = Vec::new(alloc);
    for rec in table {
        values.push(record_value(alloc, rec)?)?;
    }
    Ok(values)
}

fn array_text(alloc: Global, table: &[Record]) -> Result<String, NoMemory>
    requires { AllByRecursion IsCounted table.now }
    ensures { IfOk result (λ s. string_bytes s ≡ compact_text (array (records_data table.now))) }
{
    let values = record_values(alloc, table)?;
    let value = Value::from(values);
    let json = value.to_string(alloc)?;
    Ok(json)
}

/// The records of a table as one JSON array without blanks, and a newline. Each object has, by name, the words (`argv`),
/// the exit status, the ordinal, how many steps there are, what the command paid in turns, and the working directory
/// (`wd`); words and the directory as lines show them.
#[tactic(auto, unfolding(crate::specs::Json::json_text))]
pub fn trace_json(alloc: Global, table: &[Record]) -> Result<Bytes, NoMemory>
    requires { AllByRecursion IsCounted table.now }
    ensures { IfOk result (λ text. text ≡ json_text table.now) }
{
    let json = array_text(alloc, table)?;
    let mut text = Vec::from_slice(alloc, json.as_bytes())?;
    text.push(b'\n')?;
    Bytes::new(alloc, text)
}
