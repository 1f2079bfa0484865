// The program, as sessions call it.
use rk_base::NoMemory;
use rk_folder::{MemFolder, MemSink};
use std::alloc::Global;

/// More turns than a session needs.
pub(crate) const ENOUGH: u64 = 1_000_000;

/// How a call of the program ended, as far as sessions tell ends apart.
#[derive(Clone, Copy)]
pub enum End {
    /// A build ended, with so many commands launched, of which so many ran.
    Ended { launched: u64, ran: u64 },
    /// The words were no request.
    Usage,
    /// The script's run didn't end within the turns.
    Spent,
    /// It was refused for what stands in the folder, or for a read that failed.
    Refused,
    /// Another end.
    Other,
}

/// What a call of the program came to.
#[derive(Drop)]
pub struct Built {
    pub end: End,
    /// The status that the program exits with.
    pub status: u8,
    pub out: MemSink,
    pub err: MemSink,
}

/// The program whose builds the sessions are of.
pub trait Program: Drop {
    /// What these words ask for, of which the first is the program's name.
    fn invoke(
        &self,
        alloc: Global,
        words: &[String],
        folder: &mut MemFolder,
        out: MemSink,
        err: MemSink,
    ) -> Built;

    /// How many commands a build starts, which checks the records or doesn't.
    fn started(&self, alloc: Global, check: bool, folder: &mut MemFolder) -> u64;
}

/// The put that is to fail, from 1 on, and how many bytes go out before; none where its number is 0.
#[derive(Clone, Copy)]
pub(crate) struct Cut {
    pub(crate) put: u64,
    pub(crate) after: usize,
}

/// No put fails.
pub(crate) const WHOLE: Cut = Cut { put: 0, after: 0 };

fn sink(alloc: Global, cut: Cut) -> Result<MemSink, NoMemory> {
    let mut sink = MemSink::new(alloc);
    sink.fail_at(cut.put, cut.after)?;
    Ok(sink)
}

/// An explained build within so many turns.
pub(crate) fn build_within<P: Program>(
    program: &P,
    alloc: Global,
    turns: u64,
    folder: &mut MemFolder,
) -> Result<Built, NoMemory> {
    let mut words = Vec::new(alloc);
    'words: for word in ["rkr", "build", "--explain", "--steps"] {
        words.push(String::from_str(alloc, word)?)?;
    }
    words.push(format!(in alloc; "{turns}")?)?;
    let out = MemSink::new(alloc);
    let err = MemSink::new(alloc);
    Ok(program.invoke(alloc, &words, folder, out, err))
}

// The words of a line, of which `''` is the empty one; none where the line is empty.
fn words_of(alloc: Global, line: &str) -> Result<Vec<String>, NoMemory> {
    let mut words = Vec::new(alloc);
    if line.is_empty() {
        return Ok(words);
    }
    'words: for word in line.split(' ') {
        let word = if word == "''" { "" } else { word };
        words.push(String::from_str(alloc, word)?)?;
    }
    Ok(words)
}

/// What the words of a line ask for, over sinks of which these puts fail.
pub(crate) fn ask_in<P: Program>(
    program: &P,
    alloc: Global,
    line: &str,
    folder: &mut MemFolder,
    cuts: (Cut, Cut),
) -> Result<Built, NoMemory> {
    let words = words_of(alloc, line)?;
    let (output, errors) = cuts;
    let out = sink(alloc, output)?;
    let err = sink(alloc, errors)?;
    Ok(program.invoke(alloc, &words, folder, out, err))
}
