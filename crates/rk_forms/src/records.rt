// Steps of the table of records, of the tables that are kept, and of their spelling.
use crate::spelling::{Came, Spelt, bytes_step, came_of, chained, not_read, spelling_shown};
use rk_base::{Bytes, NoMemory};
use rk_calls::Key;
use rk_steps::{
    Seen, Subject, answer_of, answer_shown, behind, call_of, call_shown, key_of, key_shown, number,
    number_shown, plain, text,
};
use std::alloc::Global;
use std::mem;
use tr_kept::{CodecErr, kept_back, read_kept, write_kept};
use tr_record::{Kept, Record, Step, Table};

/// The table that is being made, those that are kept, the bytes that were last written or read, and the calls and answers of steps.
#[derive(Drop)]
pub(crate) struct Records {
    alloc: Global,
    table: Table,
    kept: Kept,
    bytes: Bytes,
    seen: Seen,
}

fn step_line(alloc: Global, cost: u64, call: &str, answer: &str) -> Result<String, NoMemory> {
    let text = format!(in alloc; "; {cost} {call} -> {answer}")?;
    Ok(text)
}

fn step_shown(alloc: Global, step: &Step) -> Result<String, NoMemory> {
    let call = call_shown(alloc, &step.call)?;
    let answer = answer_shown(alloc, &step.answer)?;
    step_line(alloc, step.cost, call.as_str(), answer.as_str())
}

fn record_shown(alloc: Global, record: &Record) -> Result<String, NoMemory> {
    let key = key_shown(alloc, &record.key)?;
    let mut text = format!(in alloc; "{} #{}", key.as_str(), record.ordinal)?;
    let mut left = record.steps.walk();
    'steps: for _ in 0..record.steps.len() {
        let Some((step, rest)) = left.step() else {
            break;
        };
        text.push_str(step_shown(alloc, &step.copy()?)?.as_str())?;
        left = rest;
    }
    let exit = format!(in alloc; "; {} exit {}", record.exit_cost, record.exit)?;
    text.push_str(exit.as_str())?;
    Ok(text)
}

fn table_shown(alloc: Global, table: &Table) -> Result<String, NoMemory> {
    let mut text = String::new(alloc);
    'records: for record in table.as_slice() {
        text.push_str(if text.is_empty() { "" } else { " | " })?;
        text.push_str(record_shown(alloc, record)?.as_str())?;
    }
    if text.is_empty() {
        text.push_str("no records")?;
    }
    Ok(text)
}

fn kept_shown(alloc: Global, kept: &Kept) -> Result<String, NoMemory> {
    let mut text = String::new(alloc);
    'tables: for k in 0..kept.len() {
        let Some(table) = kept.table(k) else {
            break;
        };
        text.push_str(if text.is_empty() { "" } else { " || " })?;
        text.push_str(table_shown(alloc, table)?.as_str())?;
    }
    if text.is_empty() {
        text.push_str("no records")?;
    }
    Ok(text)
}

// The table goes first among those that are kept, where it has records, and another one is begun.
fn keep(alloc: Global, table: &mut Table, kept: &mut Kept) -> Result<(), NoMemory> {
    let made = mem::replace(table, Table::new(alloc));
    if made.len() == 0 {
        return Ok(());
    }
    kept.push(made)?;
    Ok(())
}

// The table that is being made; where it has no records, the newest that is kept.
fn newest<'a>(table: &'a Table, kept: &'a Kept) -> &'a Table {
    if table.len() != 0 {
        return table;
    }
    match kept.table(0) {
        Some(newest) => newest,
        None => table,
    }
}

fn found(alloc: Global, record: Option<&Record>) -> Result<String, NoMemory> {
    match record {
        Some(record) => record_shown(alloc, record),
        None => plain(alloc, "none"),
    }
}

// How many steps there are then.
fn add(alloc: Global, table: &mut Table, i: usize, step: Step) -> Result<String, NoMemory> {
    if i < table.len() {
        table.add_step(i, step)?;
        return number_shown(alloc, table.get(i).map(|record| record.steps.len()));
    }
    plain(alloc, "none")
}

fn end(alloc: Global, table: &mut Table, i: usize, ended: (u8, u64)) -> Result<String, NoMemory> {
    if i < table.len() {
        table.end(i, ended.0, ended.1);
        return plain(alloc, "ended");
    }
    plain(alloc, "none")
}

fn small(words: &[Vec<u8>], i: usize) -> u8 {
    u8::try_from(number(words, i)).unwrap_or(0)
}

// The step `COST CALL -> ANSWER`.
fn step_of(alloc: Global, words: &[Vec<u8>]) -> Result<Option<Step>, NoMemory> {
    let mut parts = behind(words).split(|word| word.as_slice() == b"->".as_slice());
    let call = call_of(alloc, parts.next().unwrap_or(&[]))?;
    let answer = answer_of(alloc, parts.next().unwrap_or(&[]))?;
    match (call, answer) {
        (Some(call), Some(answer)) => Ok(Some(Step {
            cost: number(words, 0),
            call,
            answer,
        })),
        _ => Ok(None),
    }
}

impl Records {
    pub(crate) fn new(alloc: Global) -> Result<Records, NoMemory> {
        Ok(Records {
            alloc,
            table: Table::new(alloc),
            kept: Kept::new(alloc),
            bytes: Bytes::from_slice(alloc, b"")?,
            seen: Seen::new(alloc),
        })
    }

    fn begin(&mut self, words: &[Vec<u8>]) -> Result<String, NoMemory> {
        match key_of(self.alloc, words)? {
            Some(key) => number_shown(self.alloc, Some(self.table.begin(key)?)),
            None => plain(self.alloc, "no key"),
        }
    }

    // Whether call and answer are their own copies, and no others before.
    fn is_apart(&mut self, step: &Step) -> Result<bool, NoMemory> {
        let call = self.seen.call(&step.call)?;
        let answer = self.seen.answer(&step.answer)?;
        Ok(call && answer)
    }

    fn add_copy(&mut self, place: usize, step: &Step) -> Result<String, NoMemory> {
        if self.is_apart(step)? {
            let copy = step.copy()?;
            return add(self.alloc, &mut self.table, place, copy);
        }
        plain(self.alloc, "not apart")
    }

    fn add(&mut self, words: &[Vec<u8>]) -> Result<String, NoMemory> {
        match step_of(self.alloc, behind(words))? {
            Some(step) => self.add_copy(number(words, 0) as usize, &step),
            None => plain(self.alloc, "no step"),
        }
    }

    fn end(&mut self, words: &[Vec<u8>]) -> Result<String, NoMemory> {
        let ended = (small(words, 1), number(words, 2));
        end(
            self.alloc,
            &mut self.table,
            number(words, 0) as usize,
            ended,
        )
    }

    fn newest(&self) -> &Table {
        newest(&self.table, &self.kept)
    }

    fn by_key(&self, what: &str, ordinal: u64, key: &Key) -> Result<String, NoMemory> {
        match what {
            "count" => number_shown(self.alloc, Some(self.newest().count(key))),
            "place" => number_shown(self.alloc, self.newest().place(key, ordinal)),
            "candidate" => found(self.alloc, self.kept.candidate(key, ordinal)),
            _ => found(self.alloc, self.newest().find(key, ordinal)),
        }
    }

    fn keyed(&self, words: &[Vec<u8>]) -> Result<String, NoMemory> {
        match key_of(self.alloc, behind(behind(words)))? {
            Some(key) => self.by_key(text(words, 0), number(words, 1), &key),
            None => plain(self.alloc, "no key"),
        }
    }

    // How many tables are kept with the one that was made.
    fn push(&mut self) -> Result<String, NoMemory> {
        keep(self.alloc, &mut self.table, &mut self.kept)?;
        number_shown(self.alloc, Some(self.kept.len()))
    }

    fn spell(&mut self) -> Result<String, NoMemory> {
        keep(self.alloc, &mut self.table, &mut self.kept)?;
        self.bytes = write_kept(self.alloc, &self.kept)?;
        spelling_shown(self.alloc, self.bytes.as_slice())
    }

    // The tables, as they are read from what they are written as.
    fn back(&mut self) -> Result<String, NoMemory> {
        keep(self.alloc, &mut self.table, &mut self.kept)?;
        match kept_back(self.alloc, &self.kept) {
            Ok(kept) => kept_shown(self.alloc, &kept),
            Err(e) => not_read(self.alloc, e),
        }
    }

    // Steps speak of these tables then.
    fn hold(&mut self, kept: Kept) {
        self.table = Table::new(self.alloc);
        self.kept = kept;
    }

    // How many records the newest table has that is read from the last bytes.
    fn reread(&mut self) -> Result<String, NoMemory> {
        match read_kept(self.alloc, self.bytes.as_slice()) {
            Ok(read) => {
                self.hold(read.into_kept());
                number_shown(self.alloc, Some(self.newest().len()))
            }
            Err(e) => not_read(self.alloc, e),
        }
    }

    // How many records are read from those bytes that have so many nodes, each behind the one before, and so many records, each of
    // all of them; and how many steps the last one has.
    fn chain(&mut self, many: u64) -> Result<String, NoMemory> {
        self.bytes = Bytes::new(self.alloc, chained(self.alloc, many)?)?;
        let records = self.reread()?;
        let table = self.newest();
        let last = table.get(table.len().saturating_sub(1));
        let steps = number_shown(self.alloc, last.map(|record| record.steps.len()))?;
        let text = format!(in self.alloc;
            "{} records, the last of {} steps",
            records.as_str(),
            steps.as_str()
        )?;
        Ok(text)
    }

    // What bytes are written as again.
    fn again(&self, bytes: &[u8]) -> Result<Bytes, CodecErr> {
        let kept = read_kept(self.alloc, bytes)?.into_kept();
        match write_kept(self.alloc, &kept) {
            Ok(again) => Ok(again),
            Err(NoMemory) => Err(CodecErr::NoMemory),
        }
    }
}

impl Spelt for Records {
    fn bytes(&self) -> &[u8] {
        self.bytes.as_slice()
    }

    fn read(&mut self, bytes: Vec<u8>) -> Result<String, NoMemory> {
        self.bytes = Bytes::new(self.alloc, bytes)?;
        match read_kept(self.alloc, self.bytes.as_slice()) {
            Ok(read) => {
                self.hold(read.into_kept());
                kept_shown(self.alloc, &self.kept)
            }
            Err(e) => not_read(self.alloc, e),
        }
    }

    fn came(&self, bytes: &[u8]) -> Result<Came, NoMemory> {
        came_of(self.again(bytes), bytes)
    }
}

impl Subject for Records {
    fn fresh(&mut self) -> Result<(), NoMemory> {
        *self = Records::new(self.alloc)?;
        Ok(())
    }

    fn step(&mut self, words: &[Vec<u8>]) -> Result<String, NoMemory> {
        let alloc = self.alloc;
        match text(words, 0) {
            "begin" => self.begin(behind(words)),
            "step" => self.add(behind(words)),
            "end" => self.end(behind(words)),
            "len" => number_shown(alloc, Some(self.newest().len())),
            "get" => found(alloc, self.newest().get(number(words, 1) as usize)),
            "count" | "place" | "find" | "candidate" => self.keyed(words),
            "table" => table_shown(alloc, self.newest()),
            "kept" => kept_shown(alloc, &self.kept),
            "push" => self.push(),
            "spell" => self.spell(),
            "reread" => self.reread(),
            "chain" => self.chain(number(words, 1)),
            "back" => self.back(),
            _ => bytes_step(alloc, self, words),
        }
    }
}
