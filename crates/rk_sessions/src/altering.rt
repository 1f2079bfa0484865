// Bytes that are altered: files cut short, bits turned, and records of a database changed.
use crate::numbers::{number, size, status};
use crate::talks::{answer_of, call_of};
use rk_base::{Bytes, NoMemory};
use std::alloc::Global;
use tr_kept::{read_kept, write_kept};
use tr_record::{Kept, Record, Step, StepList, Table};

/// The first bytes, so many of them.
pub fn cut(alloc: Global, bytes: &[u8], most: usize) -> Result<Vec<u8>, NoMemory> {
    let mut front = Vec::new(alloc);
    'bytes: for byte in bytes {
        if front.len() < most {
            front.push(*byte)?;
        }
    }
    Ok(front)
}

/// The bytes, with the lowest bit of the byte of this number turned, from 0 on.
pub fn turned(alloc: Global, bytes: &[u8], at: usize) -> Result<Vec<u8>, NoMemory> {
    let mut other = Vec::new(alloc);
    'bytes: for byte in bytes {
        let is_it = other.len() == at;
        other.push(if is_it { *byte ^ 1 } else { *byte })?;
    }
    Ok(other)
}

/// The bytes of hexadecimal digits in lines; none where they are no such digits.
pub fn bytes_of(alloc: Global, text: &str) -> Result<Vec<u8>, NoMemory> {
    let mut bytes = Vec::new(alloc);
    'lines: for line in text.lines() {
        if let Ok(some) = hex::decode(alloc, line.as_bytes()) {
            bytes.extend_from_slice(&some)?;
        }
    }
    Ok(bytes)
}

/// What is changed: a part of the step of this number, from 1 on, in the record of this number, from 0 on over all tables. A
/// change of an exit has its value in the place of the step's number.
#[derive(Clone, Copy)]
struct Change<'a> {
    record: usize,
    part: &'a str,
    step: &'a str,
    value: &'a str,
}

fn change_of(line: &str) -> Change<'_> {
    let (record, rest) = line.split_once(' ').unwrap_or((line, ""));
    let (part, rest) = rest.split_once(' ').unwrap_or((rest, ""));
    let (step, value) = rest.split_once(' ').unwrap_or((rest, ""));
    Change {
        record: size(record),
        part,
        step,
        value,
    }
}

// A step with this change.
fn changed(alloc: Global, step: &Step, change: &Change<'_>) -> Result<Step, NoMemory> {
    let mut copy = step.copy()?;
    match change.part {
        "cost" => copy.cost = number(change.value),
        "call" => {
            let (word, rest) = change.value.split_once(' ').unwrap_or((change.value, ""));
            copy.call = call_of(alloc, word, rest)?;
        }
        "answer" => copy.answer = answer_of(alloc, change.value)?,
        _ => {}
    }
    Ok(copy)
}

// The steps of a record with this change.
fn steps_with(alloc: Global, record: &Record, change: &Change<'_>) -> Result<StepList, NoMemory> {
    let mut steps = StepList::new(alloc);
    let wanted = size(change.step);
    let mut left = record.steps.walk();
    'steps: for place in 0..record.steps.len() {
        let Some((step, rest)) = left.step() else {
            break;
        };
        left = rest;
        if place.saturating_add(1) != wanted {
            steps.push(step.copy()?)?;
        } else if change.part != "without" {
            steps.push(changed(alloc, step, change)?)?;
        }
    }
    Ok(steps)
}

// Puts a record with this change at the end.
fn push_with(
    alloc: Global,
    table: &mut Table,
    record: &Record,
    change: &Change<'_>,
) -> Result<(), NoMemory> {
    let steps = steps_with(alloc, record, change)?;
    let key = record.key.copy()?;
    match change.part {
        "exit" => table.push(key, steps, status(change.step), record.exit_cost),
        "pays" => table.push(key, steps, record.exit, number(change.step)),
        _ => table.push(key, steps, record.exit, record.exit_cost),
    }
}

fn push_as(table: &mut Table, record: &Record) -> Result<(), NoMemory> {
    let steps = record.steps.share()?;
    table.push(record.key.copy()?, steps, record.exit, record.exit_cost)
}

// The records of a table of which the first has this number.
fn table_with(
    alloc: Global,
    table: &Table,
    first: usize,
    change: &Change<'_>,
) -> Result<Table, NoMemory> {
    let mut other = Table::new(alloc);
    let mut number = first;
    'records: for record in table.as_slice() {
        if number == change.record {
            push_with(alloc, &mut other, record, change)?;
        } else {
            push_as(&mut other, record)?;
        }
        number = number.saturating_add(1);
    }
    Ok(other)
}

// How many records stand in the first tables, so many of them.
fn count_before(tables: &Kept, most: usize) -> usize {
    let mut count = 0usize;
    'tables: for k in 0..most {
        if let Some(table) = tables.table(k) {
            count = count.saturating_add(table.len());
        }
    }
    count
}

// The tables, each with the change where it has the record.
fn tables_with(alloc: Global, tables: &Kept, change: &Change<'_>) -> Result<Kept, NoMemory> {
    let mut others = Kept::new(alloc);
    let mut left = tables.len();
    'tables: for _k in 0..tables.len() {
        left = left.saturating_sub(1);
        if let Some(table) = tables.table(left) {
            let other = table_with(alloc, table, count_before(tables, left), change)?;
            if other.len() > 0 {
                others.push(other)?;
            }
        }
    }
    Ok(others)
}

/// The database with the change that a line names, and its digest made anew. It is as before where it is damaged.
pub fn altered(alloc: Global, db: &[u8], line: &str) -> Result<Bytes, NoMemory> {
    match read_kept(alloc, db) {
        Ok(read) => {
            let tables = read.into_kept();
            let others = tables_with(alloc, &tables, &change_of(line))?;
            write_kept(alloc, &others)
        }
        Err(_) => Bytes::from_slice(alloc, db),
    }
}
