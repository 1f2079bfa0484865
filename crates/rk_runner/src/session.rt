// Sessions of edits and builds over a folder in memory.
mod arranging;
mod asking;
mod stopping;

use crate::program::{Built, Cut, ENOUGH, End, Program, WHOLE, build_within};
use rk_base::{NoMemory, Path};
use rk_folder::{Folder, FolderErr, MemFolder};
use rk_sessions::{
    SessionStep, StepKind, asks_change, bytes_of, contents, has_line, kind_at, number, ran,
    rows_at, shown, size, steps_of, text_at, unexplained,
};
use std::alloc::Global;

/// A folder, what was built in it last, and what wasn't as it was wanted.
#[derive(Drop)]
pub struct Session<P: Program> {
    alloc: Global,
    program: P,
    folder: MemFolder,
    /// Another one, in which the same is done, but each build is the first.
    twin: MemFolder,
    script: String,
    /// What the next build is to cost, or 0 where that isn't looked at.
    cost: u64,
    /// The puts that fail in what is asked next.
    output: Cut,
    errors: Cut,
    /// How many calls of the folder there were before the last request.
    calls: u64,
    explained: String,
    told: String,
    builds: u64,
    otherwise: u64,
}

// No path of a session is faulty, so a path that is none counts as want of memory.
fn at(alloc: Global, text: &str) -> Result<Path, NoMemory> {
    match Path::parse(alloc, text.as_bytes()) {
        Ok(path) => Ok(path),
        Err(_) => Err(NoMemory),
    }
}

fn otherwise_shown(
    alloc: Global,
    script: &str,
    what: &str,
    came: &str,
    wanted: &str,
) -> Result<String, NoMemory> {
    let line = format!(in alloc; "[{script}] {what}: {came:?}, wanted {wanted:?}\n")?;
    Ok(line)
}

fn digits(alloc: Global, n: u64) -> Result<String, NoMemory> {
    let text = format!(in alloc; "{n}")?;
    Ok(text)
}

fn status_shown(alloc: Global, built: &Built) -> Result<String, NoMemory> {
    digits(alloc, u64::from(built.status))
}

// The put of the first number fails after so many bytes as the second says.
fn cut_of(line: &str) -> Cut {
    let (put, after) = line.split_once(' ').unwrap_or((line, ""));
    Cut {
        put: number(put),
        after: size(after),
    }
}

impl<P: Program> Session<P> {
    pub(crate) fn new(alloc: Global, program: P) -> Result<Session<P>, NoMemory> {
        Ok(Session {
            alloc,
            program,
            folder: MemFolder::new(alloc)?,
            twin: MemFolder::new(alloc)?,
            script: String::new(alloc),
            cost: 0,
            output: WHOLE,
            errors: WHOLE,
            calls: 0,
            explained: String::new(alloc),
            told: String::new(alloc),
            builds: 0,
            otherwise: 0,
        })
    }

    /// What wasn't as it was wanted, a line for each such thing.
    pub fn told(&self) -> &str {
        self.told.as_str()
    }

    /// How many builds and requests were looked at.
    pub fn builds(&self) -> u64 {
        self.builds
    }

    /// How many things weren't as they were wanted.
    pub fn otherwise(&self) -> u64 {
        self.otherwise
    }

    // Notes what came in place of what was wanted.
    fn tell(&mut self, what: &str, came: &str, wanted: &str) -> Result<(), NoMemory> {
        if came != wanted {
            let line = otherwise_shown(self.alloc, self.script.as_str(), what, came, wanted)?;
            self.told.push_str(line.as_str())?;
            self.otherwise = self.otherwise.saturating_add(1);
        }
        Ok(())
    }

    // Notes a change that the folder didn't allow.
    fn is_done(&mut self, done: bool, path: &str) -> Result<(), NoMemory> {
        if done {
            return Ok(());
        }
        self.tell("change", "refused", path)
    }

    fn begin(&mut self, script: &str) -> Result<(), NoMemory> {
        self.folder = MemFolder::new(self.alloc)?;
        self.twin = MemFolder::new(self.alloc)?;
        self.script = String::from_str(self.alloc, script)?;
        self.put("/Rikerfile", script)
    }

    pub(crate) fn put(&mut self, path: &str, text: &str) -> Result<(), NoMemory> {
        let place = at(self.alloc, path)?;
        self.twin.set_file(self.alloc, &place, text.as_bytes())?;
        let is_put = self.folder.set_file(self.alloc, &place, text.as_bytes())?;
        self.is_done(is_put, path)
    }

    fn make_dir(&mut self, path: &str) -> Result<(), NoMemory> {
        let place = at(self.alloc, path)?;
        self.twin.set_dir(&place)?;
        let is_made = self.folder.set_dir(&place)?;
        self.is_done(is_made, path)
    }

    pub(crate) fn remove(&mut self, path: &str) -> Result<(), NoMemory> {
        let place = at(self.alloc, path)?;
        drop_file(&mut self.twin, self.alloc, &place)?;
        drop_file(&mut self.folder, self.alloc, &place)
    }

    /// Builds in both folders, and notes where they differ.
    pub(crate) fn compare(&mut self) -> Result<(), NoMemory> {
        self.builds = self.builds.saturating_add(1);
        let built = build_within(&self.program, self.alloc, ENOUGH, &mut self.folder)?;
        let fresh = self.afresh()?;
        self.judge_by(&built, &fresh)?;
        self.compare_folders()
    }

    fn judge_by(&mut self, built: &Built, fresh: &Built) -> Result<(), NoMemory> {
        let status = status_shown(self.alloc, fresh)?;
        let errors = unexplained(shown(fresh.err.bytes()));
        self.judge(built, status.as_str(), shown(fresh.out.bytes()), errors)
    }

    fn compare_folders(&mut self) -> Result<(), NoMemory> {
        let came = contents(self.alloc, &mut self.folder)?;
        let wanted = contents(self.alloc, &mut self.twin)?;
        self.tell("folder", came.as_str(), wanted.as_str())
    }

    // What is called for from here on is the next request's.
    fn begin_request(&mut self) {
        self.folder.clear_asked();
        self.calls = self.folder.calls();
    }

    // The build within the fewest turns that do.
    fn cheapest(&mut self) -> Result<Built, NoMemory> {
        let cost = self.cost;
        if cost != 0 {
            self.cost = 0;
            'turns: for turns in 1..400u64 {
                let built = build_within(&self.program, self.alloc, turns, &mut self.folder)?;
                if !matches!(built.end, End::Spent) {
                    self.judge_turns(turns, cost)?;
                    return Ok(built);
                }
            }
            self.judge_cost("400 or more", cost)?;
        }
        build_within(&self.program, self.alloc, ENOUGH, &mut self.folder)
    }

    // Notes where the fewest turns that do aren't these.
    fn judge_turns(&mut self, came: u64, wanted: u64) -> Result<(), NoMemory> {
        let came = digits(self.alloc, came)?;
        self.judge_cost(came.as_str(), wanted)
    }

    fn judge_cost(&mut self, came: &str, wanted: u64) -> Result<(), NoMemory> {
        let wanted = digits(self.alloc, wanted)?;
        self.tell("costs", came, wanted.as_str())
    }

    // Notes where a build didn't come to this.
    fn judge(
        &mut self,
        built: &Built,
        status: &str,
        output: &str,
        error_text: &str,
    ) -> Result<(), NoMemory> {
        let came = status_shown(self.alloc, built)?;
        self.tell("status", came.as_str(), status)?;
        self.tell("output", shown(built.out.bytes()), output)?;
        let errors = unexplained(shown(built.err.bytes()));
        self.tell("error text", errors, error_text)
    }

    fn build(&mut self, status: &str, output: &str, error_text: &str) -> Result<(), NoMemory> {
        self.builds = self.builds.saturating_add(1);
        self.begin_request();
        let built = self.cheapest()?;
        self.judge(&built, status, output, error_text)?;
        self.explained = String::from_str(self.alloc, shown(built.err.bytes()))?;
        self.count(built.end)?;
        self.untouched(built.end)?;
        let fresh = self.afresh()?;
        self.judge(&fresh, status, output, error_text)
    }

    // The build of the twin, without the records of an earlier one.
    fn afresh(&mut self) -> Result<Built, NoMemory> {
        let db = at(self.alloc, "/.rkr/db")?;
        if self.twin.at(&db).is_some() {
            drop_file(&mut self.twin, self.alloc, &db)?;
        }
        build_within(&self.program, self.alloc, ENOUGH, &mut self.twin)
    }

    fn spent(&mut self, turns: u64) -> Result<(), NoMemory> {
        self.begin_request();
        let built = build_within(&self.program, self.alloc, turns, &mut self.folder)?;
        if !matches!(built.end, End::Spent) || asks_change(self.folder.asked()) {
            self.tell("budget", "enough", "spent")?;
        }
        self.tell("output", shown(built.out.bytes()), "")
    }

    fn ran(&mut self, wanted: &str) -> Result<(), NoMemory> {
        let came = ran(self.alloc, self.explained.as_str())?;
        self.tell("ran", came.as_str(), wanted)
    }

    fn why(&mut self, line: &str) -> Result<(), NoMemory> {
        if has_line(self.explained.as_str(), line) {
            return Ok(());
        }
        let came = String::from_str(self.alloc, self.explained.as_str())?;
        self.tell("explained", came.as_str(), line)
    }

    fn stands(&mut self, path: &str, kind: &str, text: &str) -> Result<(), NoMemory> {
        self.has(path, kind, text)?;
        self.twin_has(path, kind, text)
    }

    // What stands in the second folder.
    fn twin_has(&mut self, path: &str, kind: &str, text: &str) -> Result<(), NoMemory> {
        let place = at(self.alloc, path)?;
        let came_kind = kind_at(&self.twin, &place);
        self.tell("twin", came_kind, kind)?;
        let came = text_at(self.alloc, &self.twin, &place)?;
        self.tell("twin", came.as_str(), text)
    }

    // What stands in the first folder.
    fn has(&mut self, path: &str, kind: &str, text: &str) -> Result<(), NoMemory> {
        let place = at(self.alloc, path)?;
        let came_kind = kind_at(&self.folder, &place);
        self.tell(path, came_kind, kind)?;
        let came = text_at(self.alloc, &self.folder, &place)?;
        self.tell(path, came.as_str(), text)
    }

    fn attrs(&mut self, wanted: &str) -> Result<(), NoMemory> {
        let place = at(self.alloc, "/.rkr/attrs")?;
        let came = rows_at(self.alloc, &self.folder, &place)?;
        self.tell("attrs", came.as_str(), wanted)?;
        let twin = rows_at(self.alloc, &self.twin, &place)?;
        self.tell("twin", twin.as_str(), wanted)
    }

    fn take(&mut self, step: &SessionStep) -> Result<(), NoMemory> {
        let rest = step.rest.as_str();
        let text = step.text.as_str();
        match step.kind {
            StepKind::Fresh => self.begin(text),
            StepKind::Script => self.put("/Rikerfile", text),
            StepKind::File => self.put(rest, text),
            StepKind::Files => self.put_files(rest),
            StepKind::Dir => self.make_dir(rest),
            StepKind::Removed => self.remove(rest),
            StepKind::Costs => {
                self.cost = number(rest);
                Ok(())
            }
            StepKind::Build => self.build(rest, text, step.errors.as_str()),
            StepKind::Asked => self.asked(rest, text, step.errors.as_str()),
            StepKind::Called => self.called(rest, text, step.errors.as_str()),
            StepKind::Refused => self.refused(rest),
            StepKind::Spent => self.spent(number(rest)),
            StepKind::Ran => self.ran(rest),
            StepKind::Why => self.why(rest),
            StepKind::Holds => self.stands(rest, "file", text),
            StepKind::Lacks => self.stands(rest, "nothing", ""),
            StepKind::Directory => self.stands(rest, "directory", ""),
            StepKind::Attrs => self.attrs(rest),
            _ => self.bear(step),
        }
    }

    // What a folder, its state files and the sinks have to bear.
    fn bear(&mut self, step: &SessionStep) -> Result<(), NoMemory> {
        let rest = step.rest.as_str();
        let text = step.text.as_str();
        match step.kind {
            StepKind::Has => self.has(rest, "file", text),
            StepKind::HasNot => self.has(rest, "nothing", ""),
            StepKind::Bytes => {
                let bytes = bytes_of(self.alloc, text)?;
                self.put_bytes(rest, &bytes)
            }
            StepKind::Cut => self.cut(rest),
            StepKind::Turned => self.turn(rest),
            StepKind::Record => self.record(rest),
            StepKind::Special => self.put_special(rest),
            StepKind::Odd => self.make_odd(rest),
            StepKind::Fails => self.fail(rest),
            StepKind::Leaves => self.leave(rest, text),
            StepKind::OutputCut => {
                self.output = cut_of(rest);
                Ok(())
            }
            StepKind::ErrorsCut => {
                self.errors = cut_of(rest);
                Ok(())
            }
            StepKind::Changes => self.changed(rest),
            StepKind::Calls => self.called_for(rest),
            StepKind::Order => self.in_order(rest),
            StepKind::Starts => self.starts(rest),
            StepKind::Traced => self.traced(rest),
            StepKind::Talk => self.talk(rest, text),
            StepKind::Stopped => self.stopped(rest),
            _ => self.tell("step", "unknown", rest),
        }
    }
}

// A file that isn't there is removed already.
fn drop_file(folder: &mut MemFolder, alloc: Global, place: &Path) -> Result<(), NoMemory> {
    match folder.remove_file(alloc, place) {
        Ok(()) => Ok(()),
        Err(FolderErr::Failed) => Ok(()),
        Err(FolderErr::NoMemory) => Err(NoMemory),
    }
}

/// The sessions of a file, carried out by the builds of a program.
pub fn carried_out<P: Program>(
    alloc: Global,
    program: P,
    text: &str,
) -> Result<Session<P>, NoMemory> {
    let steps = steps_of(alloc, text)?;
    let mut session = Session::new(alloc, program)?;
    'steps: for step in &steps {
        session.take(step)?;
    }
    Ok(session)
}
