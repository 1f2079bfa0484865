// The lines of a trace.
ghost use Rattle.std.specs.Prelude.{◌≡◌, ◌++◌, ◌+◌, ◌≤◌, ◌^◌, IfOk, OnOk, codes, length};
ghost use Rattle.std.specs.Fmt.{decimal};
ghost use Rattle.std.specs.List.{AllByRecursion};
ghost use Rattle.rk_show.specs.Traces.{IsCounted, digest_line, digest_of, record_counts, record_head, record_line, record_lines, records_line, trace_text};

use crate::command::{add_command, add_number};
use rk_base::{Bytes, NoMemory};
use rk_traces::own;
use std::alloc::Global;
use tr_record::Record;

// A number and what stands after it.
fn add_count(out: &mut Vec<u8>, n: u64, words: &[u8]) -> Result<(), NoMemory>
    ensures { OnOk result (out.new.items ≡ out.old.items ++ (decimal n ++ words.now)) }
{
    add_number(out, n)?;
    out.extend_from_slice(words)?;
    Ok(())
}

// `I WORDS in WD #ORDINAL: `
#[tactic(auto, unfolding(crate::specs::Traces::record_head))]
fn add_head(out: &mut Vec<u8>, number: u64, rec: &Record) -> Result<(), NoMemory>
    ensures { OnOk result (out.new.items ≡ out.old.items ++ record_head number rec.now) }
{
    add_count(out, number, b" ")?;
    add_command(out, &rec.key, rec.ordinal)?;
    out.extend_from_slice(b": ")?;
    Ok(())
}

// `S steps, C turns, exit E`
#[tactic(auto, unfolding(crate::specs::Traces::record_counts))]
fn add_counts(out: &mut Vec<u8>, steps: u64, turns: u64, exit: u64) -> Result<(), NoMemory>
    ensures { OnOk result (out.new.items ≡ out.old.items ++ record_counts steps turns exit) }
{
    add_count(out, steps, b" steps, ")?;
    add_count(out, turns, b" turns, exit ")?;
    add_number(out, exit)?;
    Ok(())
}

fn add_record(out: &mut Vec<u8>, number: u64, rec: &Record) -> Result<(), NoMemory>
    requires { IsCounted rec.now }
    ensures { OnOk result (out.new.items ≡ out.old.items ++ record_line number rec.now) }
{
    add_head(out, number, rec)?;
    add_counts(out, rec.steps.len() as u64, own(rec), u64::from(rec.exit))?;
    out.push(b'\n')?;
    Ok(())
}

fn add_records(out: &mut Vec<u8>, table: &[Record]) -> Result<(), NoMemory>
    requires { AllByRecursion IsCounted table.now }
    ensures { OnOk result (out.new.items ≡ out.old.items ++ record_lines 0 table.now) }
{
    let mut number: u64 = 0;
    for rec in table {
        add_record(out, number, rec)?;
        number += 1;
    }
    Ok(())
}

// The digest with which a database's bytes end.
fn digest_of(db: &[u8]) -> &[u8]
    ensures { result.now ≡ digest_of db.now }
{
    &db[db.len().saturating_sub(32)..]
}

fn add_digest(out: &mut Vec<u8>, digest: &[u8]) -> Result<(), NoMemory>
    ensures { OnOk result (out.new.items ≡ out.old.items ++ digest_line digest.now) }
{
    let digits = hex::encode(*out.allocator(), digest)?;
    out.extend_from_slice(b"digest ")?;
    out.extend_from_slice(digits.as_bytes())?;
    out.push(b'\n')?;
    Ok(())
}

/// The lines of a trace: for each record of a table `I WORDS in WD #ORDINAL: S steps, C turns, exit E`, where I counts
/// from 0 in launch order and C is what the command paid, and last `digest D`, the digest of the database whose bytes
/// these are.
#[tactic(auto, unfolding(crate::specs::Traces::trace_text))]
pub fn trace_text(alloc: Global, table: &[Record], db: &[u8]) -> Result<Bytes, NoMemory>
    requires { AllByRecursion IsCounted table.now }
    ensures { IfOk result (λ text. text ≡ trace_text table.now db.now) }
{
    let mut text = Vec::new(alloc);
    add_records(&mut text, table)?;
    add_digest(&mut text, digest_of(db))?;
    Bytes::new(alloc, text)
}

/// `records R` and a newline: so many records were found to be spoken.
#[tactic(auto, unfolding(crate::specs::Traces::records_line))]
pub fn records_text(alloc: Global, n: u64) -> Result<Bytes, NoMemory>
    ensures { IfOk result (λ text. text ≡ records_line n) }
{
    let mut text = Vec::from_slice(alloc, b"records ")?;
    add_count(&mut text, n, b"\n")?;
    Bytes::new(alloc, text)
}
