// Requests of which a call of the folder fails, each call in its turn.
use super::{Session, at, digits, drop_file, status_shown};
use crate::program::{Built, ENOUGH, Program, WHOLE, ask_in, build_within};
use rk_base::{Bytes, NoMemory};
use rk_folder::{FolderCall, MemFolder};
use rk_sessions::{contents, copied, has_line, number, shown, unexplained};
use std::alloc::Global;

/// More calls than a request of a session makes.
const MOST_CALLS: u64 = 1000;

/// What is left in the file of a write that failed.
const TORN: &[u8] = b"zz";

/// Which call failed.
#[derive(Clone, Copy)]
enum Stopped {
    /// A list or a read.
    Look,
    /// A call that was to change the folder.
    Change,
    /// None: the request made fewer calls.
    Nowhere,
}

/// A build of the twin, which is its first, and what the twin holds then.
#[derive(Drop)]
struct Afresh {
    built: Built,
    held: String,
}

// The call of this number failed, if so many were made.
fn stopped_by(folder: &MemFolder, call: u64) -> Stopped {
    if folder.calls() < call {
        return Stopped::Nowhere;
    }
    match folder.asked().last() {
        Some(last) => kind_of(last),
        None => Stopped::Nowhere,
    }
}

fn kind_of(call: &FolderCall) -> Stopped {
    if call.is_change() {
        Stopped::Change
    } else {
        Stopped::Look
    }
}

// The status and the line of the fault.
fn fault_of(stopped: Stopped) -> (&'static str, &'static str) {
    match stopped {
        Stopped::Look => ("244", "rkr: read fault"),
        Stopped::Change => ("245", "rkr: write fault"),
        Stopped::Nowhere => ("", ""),
    }
}

fn counts_shown(alloc: Global, looks: u64, changes: u64) -> Result<String, NoMemory> {
    let text = format!(in alloc; "{looks} {changes}")?;
    Ok(text)
}

// The call of this number is to fail, and to leave its file torn, or as it was.
fn fail_in(
    alloc: Global,
    folder: &mut MemFolder,
    call: u64,
    is_torn: bool,
) -> Result<(), NoMemory> {
    if is_torn {
        let left = Bytes::from_slice(alloc, TORN)?;
        return folder.fail_write_at(call, left);
    }
    folder.fail_at(call)
}

impl<P: Program> Session<P> {
    // The first build of a copy of the twin.
    fn built_afresh(&mut self) -> Result<Afresh, NoMemory> {
        let mut folder = copied(self.alloc, &mut self.twin)?;
        let db = at(self.alloc, "/.rkr/db")?;
        if folder.at(&db).is_some() {
            drop_file(&mut folder, self.alloc, &db)?;
        }
        let built = build_within(&self.program, self.alloc, ENOUGH, &mut folder)?;
        let held = contents(self.alloc, &mut folder)?;
        Ok(Afresh { built, held })
    }

    // Notes where a request whose call of this number failed didn't end by that, or went on.
    fn judge_stop(
        &mut self,
        line: &str,
        stopped: Stopped,
        call: u64,
        folder: &MemFolder,
        built: &Built,
    ) -> Result<(), NoMemory> {
        let (status, fault) = fault_of(stopped);
        let came = status_shown(self.alloc, built)?;
        self.tell(line, came.as_str(), status)?;
        let errors = shown(built.err.bytes());
        if !has_line(errors, fault) {
            self.tell(line, errors, fault)?;
        }
        let calls = digits(self.alloc, folder.calls())?;
        let wanted = digits(self.alloc, call)?;
        self.tell(line, calls.as_str(), wanted.as_str())
    }

    // Notes where the next build doesn't come to the same as the twin's, or leaves records that aren't spoken.
    fn judge_next(&mut self, folder: &mut MemFolder, afresh: &Afresh) -> Result<(), NoMemory> {
        let built = build_within(&self.program, self.alloc, ENOUGH, folder)?;
        let status = status_shown(self.alloc, &afresh.built)?;
        let errors = unexplained(shown(afresh.built.err.bytes()));
        let output = shown(afresh.built.out.bytes());
        self.judge(&built, status.as_str(), output, errors)?;
        let held = contents(self.alloc, folder)?;
        self.tell("folder", held.as_str(), afresh.held.as_str())?;
        let words = "rkr check";
        let checked = ask_in(&self.program, self.alloc, words, folder, (WHOLE, WHOLE))?;
        let came = status_shown(self.alloc, &checked)?;
        self.tell(words, came.as_str(), "0")
    }

    // A request in a copy of the folder, whose call of this number fails.
    fn stop_at(
        &mut self,
        line: &str,
        call: u64,
        is_torn: bool,
        afresh: &Afresh,
    ) -> Result<Stopped, NoMemory> {
        let mut folder = copied(self.alloc, &mut self.folder)?;
        fail_in(self.alloc, &mut folder, call, is_torn)?;
        let built = ask_in(&self.program, self.alloc, line, &mut folder, (WHOLE, WHOLE))?;
        let stopped = stopped_by(&folder, call);
        if !matches!(stopped, Stopped::Nowhere) {
            self.judge_stop(line, stopped, call, &folder, &built)?;
            self.judge_next(&mut folder, afresh)?;
        }
        Ok(stopped)
    }

    // How many looks and how many changes a request makes, each of which failed in its turn.
    fn stop_everywhere(&mut self, line: &str) -> Result<(u64, u64), NoMemory> {
        let afresh = self.built_afresh()?;
        let mut looks = 0u64;
        let mut changes = 0u64;
        'calls: for call in 1..MOST_CALLS {
            match self.stop_at(line, call, false, &afresh)? {
                Stopped::Look => looks = looks.saturating_add(1),
                Stopped::Change => {
                    let _torn = self.stop_at(line, call, true, &afresh)?;
                    changes = changes.saturating_add(1);
                }
                Stopped::Nowhere => break,
            }
        }
        Ok((looks, changes))
    }

    // A line of how many of a request's calls look, how many are to change the folder, and what it is asked for.
    pub(crate) fn stopped(&mut self, line: &str) -> Result<(), NoMemory> {
        self.builds = self.builds.saturating_add(1);
        let (looks, rest) = line.split_once(' ').unwrap_or((line, ""));
        let (changes, words) = rest.split_once(' ').unwrap_or((rest, ""));
        let call = format!(in self.alloc; "rkr {words}")?;
        let (came_looks, came_changes) = self.stop_everywhere(call.as_str())?;
        let came = counts_shown(self.alloc, came_looks, came_changes)?;
        let wanted = counts_shown(self.alloc, number(looks), number(changes))?;
        self.tell(words, came.as_str(), wanted.as_str())
    }
}
