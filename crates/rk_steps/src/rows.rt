// Rows: a step a line, and what is wanted beside it.
use crate::escapes::words_of;
use crate::spelling::{ends_of, spelt};
use rk_base::NoMemory;
use std::alloc::Global;

/// What the steps of a file are asked of.
pub trait Subject {
    /// Begins anew.
    fn fresh(&mut self) -> Result<(), NoMemory>;

    /// The answer to a step of these words.
    fn step(&mut self, words: &[Vec<u8>]) -> Result<String, NoMemory>;
}

/// How many steps there were, and what came otherwise than it is wanted.
#[derive(Drop)]
pub struct Told {
    alloc: Global,
    text: String,
    line: u64,
    steps: u64,
    otherwise: u64,
}

impl Told {
    /// A line for each step that came otherwise.
    pub fn text(&self) -> &str {
        self.text.as_str()
    }

    /// How many steps there were.
    pub fn steps(&self) -> u64 {
        self.steps
    }

    /// How many of them came otherwise.
    pub fn otherwise(&self) -> u64 {
        self.otherwise
    }

    // A step, and what came otherwise.
    fn note(&mut self, name: &str, step: &str, came: &str, wanted: &str) -> Result<(), NoMemory> {
        if came != wanted {
            let line = format!(in self.alloc;
                "[{name}:{}] {step}: {came}, wanted {wanted}\n",
                self.line
            )?;
            self.text.push_str(line.as_str())?;
            self.otherwise = self.otherwise.saturating_add(1);
        }
        Ok(())
    }

    fn round<S: Subject>(
        &mut self,
        name: &str,
        subject: &mut S,
        row: (&str, &str),
        number: &str,
    ) -> Result<(), NoMemory> {
        let (step, wanted) = row;
        let step = spelt(self.alloc, step, number)?;
        let wanted = spelt(self.alloc, wanted, number)?;
        let words = words_of(self.alloc, step.as_str())?;
        let came = subject.step(&words)?;
        self.note(name, step.as_str(), came.as_str(), wanted.as_str())
    }

    // `repeat A..B` before a step: it is taken once for each of these numbers, which each `%` stands for.
    fn rounds<S: Subject>(
        &mut self,
        name: &str,
        subject: &mut S,
        row: (&str, &str),
    ) -> Result<(), NoMemory> {
        let (step, wanted) = row;
        let Some(rest) = step.strip_prefix("repeat ") else {
            return self.round(name, subject, row, "%");
        };
        let (range, step) = rest.split_once(' ').unwrap_or((rest, ""));
        let (first, last) = ends_of(range);
        'rounds: for i in first..=last {
            let number = format!(in self.alloc; "{i}")?;
            self.round(name, subject, (step, wanted), number.as_str())?;
        }
        Ok(())
    }

    fn take<S: Subject>(
        &mut self,
        name: &str,
        subject: &mut S,
        line: &str,
    ) -> Result<(), NoMemory> {
        if line.is_empty() || line.starts_with('#') || line.starts_with("of ") {
            return Ok(());
        }
        if line == "fresh" {
            return subject.fresh();
        }
        self.steps = self.steps.saturating_add(1);
        let row = line
            .split_once(" => ")
            .unwrap_or((line, "no wanted answer"));
        self.rounds(name, subject, row)
    }
}

/// What the steps of a file are asked of, by its line `of SUBJECT`.
pub fn subject_of(text: &str) -> &str {
    'lines: for line in text.lines() {
        if let Some(subject) = line.strip_prefix("of ") {
            return subject;
        }
    }
    ""
}

/// The steps of a file, taken.
pub fn carried_out<S: Subject>(
    alloc: Global,
    name: &str,
    text: &str,
    subject: &mut S,
) -> Result<Told, NoMemory> {
    let mut told = Told {
        alloc,
        text: String::new(alloc),
        line: 0,
        steps: 0,
        otherwise: 0,
    };
    'lines: for line in text.lines() {
        told.line = told.line.saturating_add(1);
        told.take(name, subject, line)?;
    }
    Ok(told)
}
