// Plans between what a folder holds before and after.
use rk_base::{Bytes, NoMemory, Path};
use rk_changes::{Holding, plan};
use rk_folder::State;
use rk_seal::{InstallList, Op, Plan};
use rk_steps::{Fetches, number_shown, path_of, plain, push_shown, text, word};
use rk_tree::{Content, Entry, FetchErr, Snapshot};
use std::alloc::Global;

/// What is held before and after, and what is fetched of it.
#[derive(Drop)]
pub(crate) struct Holdings {
    alloc: Global,
    before: Holding,
    after: Holding,
    fetches: Fetches,
}

fn nothing(alloc: Global) -> Holding {
    Holding {
        entries: Snapshot::new(alloc),
        rkr: false,
        state: State {
            db: None,
            attrs: None,
            install: None,
            fresh_list: false,
        },
    }
}

fn keep(alloc: Global, file: &mut Option<Bytes>, bytes: &[u8]) -> Result<String, NoMemory> {
    let bytes = Bytes::from_slice(alloc, bytes)?;
    *file = Some(bytes);
    plain(alloc, "held")
}

// `PATH dir`, `PATH file BYTES`, `PATH from PATH`, `PATH read PATH BYTES`, `PATH link TEXT`, or one of `rkr`, `fresh-list`, `attrs BYTES` and `db BYTES`.
fn hold(alloc: Global, holding: &mut Holding, words: &[Vec<u8>]) -> Result<String, NoMemory> {
    match text(words, 0) {
        "rkr" => {
            holding.rkr = true;
            plain(alloc, "held")
        }
        "fresh-list" => {
            holding.state.fresh_list = true;
            plain(alloc, "held")
        }
        "attrs" => keep(alloc, &mut holding.state.attrs, word(words, 1)),
        "db" => keep(alloc, &mut holding.state.db, word(words, 1)),
        _ => hold_entry(alloc, &mut holding.entries, words),
    }
}

// What a file holds that came from a path, and was read where there are bytes behind that.
fn content_from(alloc: Global, import: Path, words: &[Vec<u8>]) -> Result<Content, NoMemory> {
    if text(words, 1) == "from" {
        return Ok(Content::Unread(import));
    }
    let bytes = Bytes::from_slice(alloc, word(words, 3))?;
    Ok(Content::Read(import, bytes))
}

fn content_of(alloc: Global, words: &[Vec<u8>]) -> Result<Content, NoMemory> {
    let bytes = Bytes::from_slice(alloc, word(words, 2))?;
    match text(words, 1) {
        "from" | "read" => match path_of(alloc, word(words, 2))? {
            Some(import) => content_from(alloc, import, words),
            None => Ok(Content::Own(bytes)),
        },
        _ => Ok(Content::Own(bytes)),
    }
}

fn entry_of(alloc: Global, words: &[Vec<u8>]) -> Result<Entry, NoMemory> {
    let entry = match text(words, 1) {
        "dir" => Entry::Dir(0o755),
        "link" => Entry::Link(Bytes::from_slice(alloc, word(words, 2))?),
        _ => Entry::File(0o644, content_of(alloc, words)?),
    };
    Ok(entry)
}

fn hold_entry(
    alloc: Global,
    entries: &mut Snapshot,
    words: &[Vec<u8>],
) -> Result<String, NoMemory> {
    let entry = entry_of(alloc, words)?;
    match path_of(alloc, word(words, 0))? {
        Some(path) => {
            entries.put(path, entry)?;
            plain(alloc, "held")
        }
        None => plain(alloc, "no path"),
    }
}

fn push_at(alloc: Global, out: &mut String, first: &str, path: &Path) -> Result<(), NoMemory> {
    out.push_str(first)?;
    push_shown(alloc, out, path.text())
}

fn push_write(alloc: Global, out: &mut String, path: &Path, bytes: &Bytes) -> Result<(), NoMemory> {
    push_at(alloc, out, "; write ", path)?;
    out.push(' ')?;
    push_shown(alloc, out, bytes.as_slice())
}

fn push_op(alloc: Global, out: &mut String, op: &Op) -> Result<(), NoMemory> {
    match op {
        Op::RemoveFile(path) => push_at(alloc, out, "; remove-file ", path),
        Op::RemoveDir(path) => push_at(alloc, out, "; remove-dir ", path),
        Op::MakeDir(path) => push_at(alloc, out, "; make-dir ", path),
        Op::Write(path, bytes) => push_write(alloc, out, path, bytes),
    }
}

fn ops_shown(alloc: Global, ops: &[Op]) -> Result<String, NoMemory> {
    let mut out = number_shown(alloc, Some(ops.len()))?;
    if ops.len() > 20 {
        return Ok(out);
    }
    'ops: for op in ops {
        push_op(alloc, &mut out, op)?;
    }
    Ok(out)
}

fn calls_shown(alloc: Global, calls: &Option<InstallList>) -> Result<String, NoMemory> {
    match calls {
        Some(list) => ops_shown(alloc, list.as_slice()),
        None => number_shown(alloc, Some(0)),
    }
}

fn all_shown(alloc: Global, plan: &Plan) -> Result<String, NoMemory> {
    let mut out = calls_shown(alloc, &plan.calls)?;
    if plan.fresh_list {
        out.push_str(" and a fresh list")?;
    }
    Ok(out)
}

/// A plan's calls, of more than 20 only how many; and whether a list stands that isn't sealed.
pub(crate) fn plan_shown(
    alloc: Global,
    plan: Result<Option<Plan>, FetchErr>,
) -> Result<String, NoMemory> {
    match plan {
        Ok(Some(plan)) => all_shown(alloc, &plan),
        Ok(None) => plain(alloc, "no plan"),
        Err(FetchErr::Failed) => plain(alloc, "read fault"),
        Err(FetchErr::NoMemory) => Err(NoMemory),
    }
}

impl Holdings {
    pub(crate) fn new(alloc: Global) -> Holdings {
        Holdings {
            alloc,
            before: nothing(alloc),
            after: nothing(alloc),
            fetches: Fetches::new(alloc),
        }
    }

    pub(crate) fn before(&mut self, words: &[Vec<u8>]) -> Result<String, NoMemory> {
        hold(self.alloc, &mut self.before, words)
    }

    pub(crate) fn after(&mut self, words: &[Vec<u8>]) -> Result<String, NoMemory> {
        hold(self.alloc, &mut self.after, words)
    }

    /// What was held after is held before from here on, and nothing after.
    pub(crate) fn next(&mut self) -> Result<String, NoMemory> {
        self.before = nothing(self.alloc);
        std::mem::swap(&mut self.before, &mut self.after);
        plain(self.alloc, "next")
    }

    /// The plan between both, with what is told fetched for it.
    pub(crate) fn plan(&mut self) -> Result<Option<Plan>, FetchErr> {
        plan(self.alloc, &mut self.fetches, &self.before, &self.after)
    }

    /// A step of what is fetched, if it is one.
    pub(crate) fn fetches(&mut self, words: &[Vec<u8>]) -> Result<Option<String>, NoMemory> {
        self.fetches.step(words)
    }
}
