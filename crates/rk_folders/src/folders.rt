// Steps that any folder takes, and a folder and a sink in memory.
ghost use Rattle.rk_tree.specs.Entries.{IsWholeSnapshot};

use rk_attrs::{AttrRow, Attrs};
use rk_base::{Bytes, FileType, NoMemory, Path};
use rk_changes::attrs_of;
use rk_folder::{
    Folder, FolderCall, FolderErr, Got, ImportErr, Imported, Item, MemFolder, MemSink, Sink,
    SinkErr, Standing, State, import, state, tree_of,
};
use rk_steps::{
    Subject, attrs_shown, behind, kind_shown, number, number_shown, path_of, plain, push_shown,
    row_of, shown, text, word,
};
use rk_tree::{Node, Snapshot, Tree};
use std::alloc::Global;

fn push_marked(alloc: Global, out: &mut String, name: &[u8], mark: &str) -> Result<(), NoMemory> {
    out.push(' ')?;
    push_shown(alloc, out, name)?;
    out.push_str(mark)?;
    Ok(())
}

fn push_item(alloc: Global, out: &mut String, item: &Item) -> Result<(), NoMemory> {
    match item {
        Item::File(name) => push_marked(alloc, out, name.as_slice(), ""),
        Item::Dir(name) => push_marked(alloc, out, name.as_slice(), "/"),
        Item::Special(name) => push_marked(alloc, out, name.as_slice(), "!"),
        Item::Odd => push_marked(alloc, out, b"?", ""),
    }
}

// A listing: each name, with `/` behind a directory's and `!` behind what is special, and `?` for odd names.
fn items_shown(alloc: Global, items: &[Item]) -> Result<String, NoMemory> {
    let mut out = plain(alloc, "items")?;
    'items: for item in items {
        push_item(alloc, &mut out, item)?;
    }
    Ok(out)
}

fn push_behind(alloc: Global, out: &mut String, first: &str, bytes: &[u8]) -> Result<(), NoMemory> {
    out.push_str(first)?;
    out.push(' ')?;
    push_shown(alloc, out, bytes)
}

fn behind_word(alloc: Global, first: &str, bytes: &[u8]) -> Result<String, NoMemory> {
    let mut out = String::new(alloc);
    push_behind(alloc, &mut out, first, bytes)?;
    Ok(out)
}

fn no_answer(alloc: Global, e: FolderErr) -> Result<String, NoMemory> {
    match e {
        FolderErr::Failed => plain(alloc, "failed"),
        FolderErr::NoMemory => Err(NoMemory),
    }
}

fn done_shown(alloc: Global, done: Result<(), FolderErr>) -> Result<String, NoMemory> {
    match done {
        Ok(()) => plain(alloc, "done"),
        Err(e) => no_answer(alloc, e),
    }
}

fn listed(alloc: Global, got: Result<Vec<Item>, FolderErr>) -> Result<String, NoMemory> {
    match got {
        Ok(items) => items_shown(alloc, &items),
        Err(e) => no_answer(alloc, e),
    }
}

fn got_shown(alloc: Global, got: Result<Got, FolderErr>) -> Result<String, NoMemory> {
    match got {
        Ok(Got::Content(bytes)) => behind_word(alloc, "content", bytes.as_slice()),
        Ok(Got::Absent) => plain(alloc, "absent"),
        Err(e) => no_answer(alloc, e),
    }
}

fn kind_and_mode(alloc: Global, kind: &str, mode: u16) -> Result<String, NoMemory> {
    let out = format!(in alloc; "{kind} {mode:o}")?;
    Ok(out)
}

fn push_content(alloc: Global, out: &mut String, node: &Node) -> Result<(), NoMemory> {
    match node.kind() {
        FileType::File => push_file_content(alloc, out, node),
        FileType::Dir => Ok(()),
        FileType::Link => push_behind(alloc, out, "", node.link_text()),
    }
}

// Where a file came from, if it has no bytes of its own, and its bytes, where they are known.
fn push_file_content(alloc: Global, out: &mut String, node: &Node) -> Result<(), NoMemory> {
    if let Some(path) = node.import_path() {
        push_behind(alloc, out, " from", path.text())?;
    }
    match node.bytes() {
        Some(bytes) => push_behind(alloc, out, "", bytes),
        None => Ok(()),
    }
}

fn push_node(alloc: Global, out: &mut String, node: &Node) -> Result<(), NoMemory> {
    out.push_str(kind_and_mode(alloc, kind_shown(node.kind()), node.mode())?.as_str())?;
    push_content(alloc, out, node)
}

/// Each path with what stands there, after a semicolon.
fn snapshot_shown(alloc: Global, snapshot: &Snapshot) -> Result<String, NoMemory> {
    let mut out = number_shown(alloc, Some(snapshot.len()))?;
    if snapshot.len() > 20 {
        return Ok(out);
    }
    'rows: for (path, node) in snapshot.rows() {
        push_behind(alloc, &mut out, ";", path.text())?;
        out.push(' ')?;
        push_node(alloc, &mut out, node)?;
    }
    Ok(out)
}

fn push_file(alloc: Global, out: &mut String, file: &Option<Bytes>) -> Result<(), NoMemory> {
    match file {
        Some(bytes) => push_shown(alloc, out, bytes.as_slice()),
        None => {
            out.push_str("none")?;
            Ok(())
        }
    }
}

fn state_shown(alloc: Global, rkr: bool, state: &State) -> Result<String, NoMemory> {
    let mut out = plain(alloc, if rkr { ".rkr there" } else { ".rkr gone" })?;
    out.push_str(" attrs ")?;
    push_file(alloc, &mut out, &state.attrs)?;
    out.push_str(" db ")?;
    push_file(alloc, &mut out, &state.db)?;
    if state.install.is_some() {
        out.push_str(" install ")?;
        push_file(alloc, &mut out, &state.install)?;
    }
    if state.fresh_list {
        out.push_str(" and a fresh list")?;
    }
    Ok(out)
}

fn not_imported(alloc: Global, e: ImportErr) -> Result<String, NoMemory> {
    match e {
        ImportErr::Special(path) => behind_word(alloc, "special", path.text()),
        ImportErr::ReadFault => plain(alloc, "read fault"),
        ImportErr::NoMemory => Err(NoMemory),
    }
}

fn imported_shown(alloc: Global, found: &Imported) -> Result<String, NoMemory> {
    let mut out = state_shown(alloc, found.hidden.rkr, &found.hidden.state)?;
    out.push(' ')?;
    out.push_str(snapshot_shown(alloc, &found.entries)?.as_str())?;
    Ok(out)
}

fn import_step<F: Folder>(
    alloc: Global,
    folder: &mut F,
    skips_db: bool,
) -> Result<String, NoMemory> {
    match import(alloc, folder, skips_db) {
        Ok(found) => imported_shown(alloc, &found),
        Err(e) => not_imported(alloc, e),
    }
}

fn state_step<F: Folder>(alloc: Global, folder: &mut F) -> Result<String, NoMemory> {
    match state(alloc, folder) {
        Ok(hidden) => state_shown(alloc, hidden.rkr, &hidden.state),
        Err(e) => not_imported(alloc, e),
    }
}

fn rename_step<F: Folder>(
    alloc: Global,
    folder: &mut F,
    from: &Path,
    to: &[u8],
) -> Result<String, NoMemory> {
    match path_of(alloc, to)? {
        Some(to) => done_shown(alloc, folder.rename(alloc, from, &to)),
        None => plain(alloc, "no path"),
    }
}

fn path_step<F: Folder>(
    alloc: Global,
    folder: &mut F,
    words: &[Vec<u8>],
    path: &Path,
) -> Result<String, NoMemory> {
    match text(words, 0) {
        "list" => listed(alloc, folder.list(alloc, path)),
        "read" => got_shown(alloc, folder.read(alloc, path)),
        "write" => done_shown(alloc, folder.write(alloc, path, word(words, 2))),
        "make-dir" => done_shown(alloc, folder.make_dir(alloc, path)),
        "remove-file" => done_shown(alloc, folder.remove_file(alloc, path)),
        "remove-dir" => done_shown(alloc, folder.remove_dir(alloc, path)),
        "rename" => rename_step(alloc, folder, path, word(words, 2)),
        _ => plain(alloc, "unknown step"),
    }
}

/// A step that any folder takes.
pub(crate) fn folder_step<F: Folder>(
    alloc: Global,
    folder: &mut F,
    words: &[Vec<u8>],
) -> Result<String, NoMemory> {
    match text(words, 0) {
        "import" => return import_step(alloc, folder, false),
        "import-but-db" => return import_step(alloc, folder, true),
        "state" => return state_step(alloc, folder),
        _ => {}
    }
    match path_of(alloc, word(words, 1))? {
        Some(path) => path_step(alloc, folder, words, &path),
        None => plain(alloc, "no path"),
    }
}

/// What came of a put.
pub(crate) fn put_shown(alloc: Global, done: Result<(), SinkErr>) -> Result<String, NoMemory> {
    match done {
        Ok(()) => plain(alloc, "put"),
        Err(SinkErr::Failed) => plain(alloc, "failed"),
        Err(SinkErr::NoMemory) => Err(NoMemory),
    }
}

fn push_rename(alloc: Global, out: &mut String, from: &Path, to: &Path) -> Result<(), NoMemory> {
    push_behind(alloc, out, " rename", from.text())?;
    push_behind(alloc, out, "", to.text())
}

fn push_call(alloc: Global, out: &mut String, call: &FolderCall) -> Result<(), NoMemory> {
    match call {
        FolderCall::List(dir) => push_behind(alloc, out, " list", dir.text()),
        FolderCall::Read(file) => push_behind(alloc, out, " read", file.text()),
        FolderCall::Write(file) => push_behind(alloc, out, " write", file.text()),
        FolderCall::MakeDir(dir) => push_behind(alloc, out, " make-dir", dir.text()),
        FolderCall::RemoveFile(file) => push_behind(alloc, out, " remove-file", file.text()),
        FolderCall::RemoveDir(dir) => push_behind(alloc, out, " remove-dir", dir.text()),
        FolderCall::Rename(from, to) => push_rename(alloc, out, from, to),
    }
}

// The calls that were made.
fn calls_shown(alloc: Global, asked: &[FolderCall]) -> Result<String, NoMemory> {
    let mut out = number_shown(alloc, Some(asked.len()))?;
    'calls: for call in asked {
        push_call(alloc, &mut out, call)?;
    }
    Ok(out)
}

// Those of them that are to change the folder.
fn changes_shown(alloc: Global, asked: &[FolderCall]) -> Result<String, NoMemory> {
    let changes = asked.iter().filter(|call| call.is_change()).count();
    let mut out = number_shown(alloc, Some(changes))?;
    'calls: for call in asked {
        if call.is_change() {
            push_call(alloc, &mut out, call)?;
        }
    }
    Ok(out)
}

/// What stands at a path of a folder in memory.
pub(crate) fn standing_shown(alloc: Global, it: Option<&Standing>) -> Result<String, NoMemory> {
    match it {
        Some(Standing::File(bytes)) => behind_word(alloc, "file", bytes.as_slice()),
        Some(Standing::Dir) => plain(alloc, "dir"),
        Some(Standing::Special) => plain(alloc, "special"),
        None => plain(alloc, "nothing"),
    }
}

fn set_shown(alloc: Global, is_set: bool) -> Result<String, NoMemory> {
    plain(alloc, if is_set { "set" } else { "refused" })
}

// The tree of what was imported, with rows.
fn tree_step(alloc: Global, found: Imported, attrs: &Attrs) -> Result<Tree, NoMemory>
    requires { IsWholeSnapshot found.entries }
{
    tree_of(alloc, &found.entries, attrs)
}

// A snapshot, and the rows that keep what of it the folder doesn't.
fn kept_shown(alloc: Global, snapshot: &Snapshot) -> Result<String, NoMemory>
    requires { IsWholeSnapshot snapshot.now }
{
    let kept = attrs_of(alloc, snapshot)?;
    let mut out = snapshot_shown(alloc, snapshot)?;
    out.push_str(" kept ")?;
    out.push_str(attrs_shown(alloc, &kept)?.as_str())?;
    Ok(out)
}

fn tree_shown(alloc: Global, tree: &Tree) -> Result<String, NoMemory> {
    let snapshot = tree.snapshot()?;
    kept_shown(alloc, &snapshot)
}

fn counts_shown(alloc: Global, calls: u64, faults: (u64, u64, u64)) -> Result<String, NoMemory> {
    let (reads, writes, memory) = faults;
    let out = format!(in alloc; "calls {calls} reads {reads} writes {writes} memory {memory}")?;
    Ok(out)
}

fn put_counts(alloc: Global, faults: u64, memory: u64) -> Result<String, NoMemory> {
    let out = format!(in alloc; " faults {faults} memory {memory}")?;
    Ok(out)
}

/// A folder and a sink in memory, and rows of attributes.
#[derive(Drop)]
pub(crate) struct Held {
    alloc: Global,
    folder: MemFolder,
    sink: MemSink,
    rows: Vec<(Path, AttrRow)>,
}

impl Held {
    pub(crate) fn new(alloc: Global) -> Result<Held, NoMemory> {
        Ok(Held {
            alloc,
            folder: MemFolder::new(alloc)?,
            sink: MemSink::new(alloc),
            rows: Vec::new(alloc),
        })
    }

    /// The folder.
    pub(crate) fn folder(&mut self) -> &mut MemFolder {
        &mut self.folder
    }

    fn set_at(&mut self, words: &[Vec<u8>], path: &Path) -> Result<bool, NoMemory> {
        match text(words, 0) {
            "set-file" => self.folder.set_file(self.alloc, path, word(words, 2)),
            "set-dir" => self.folder.set_dir(path),
            "set-special" => self.folder.set_special(path),
            _ => self.folder.set_odd(path),
        }
    }

    fn set(&mut self, words: &[Vec<u8>]) -> Result<String, NoMemory> {
        match path_of(self.alloc, word(words, 1))? {
            Some(path) => set_shown(self.alloc, self.set_at(words, &path)?),
            None => plain(self.alloc, "no path"),
        }
    }

    fn at(&self, path: Option<Path>) -> Result<String, NoMemory> {
        match path {
            Some(path) => standing_shown(self.alloc, self.folder.at(&path)),
            None => plain(self.alloc, "no path"),
        }
    }

    fn fail(&mut self, call: u64) -> Result<String, NoMemory> {
        self.folder.fail_at(call)?;
        plain(self.alloc, "told")
    }

    fn fail_write(&mut self, call: u64, left: &[u8]) -> Result<String, NoMemory> {
        let left = Bytes::from_slice(self.alloc, left)?;
        self.folder.fail_write_at(call, left)?;
        plain(self.alloc, "told")
    }

    fn faults(&self) -> Result<String, NoMemory> {
        let folder = &self.folder;
        counts_shown(
            self.alloc,
            folder.calls(),
            (
                folder.read_faults(),
                folder.write_faults(),
                folder.memory_failures(),
            ),
        )
    }

    fn clear(&mut self) -> Result<String, NoMemory> {
        self.folder.clear_asked();
        plain(self.alloc, "cleared")
    }

    fn fail_put(&mut self, put: u64, after: u64) -> Result<String, NoMemory> {
        self.sink.fail_at(put, after as usize)?;
        plain(self.alloc, "told")
    }

    fn sink_shown(&self) -> Result<String, NoMemory> {
        let sink = &self.sink;
        let mut out = shown(self.alloc, sink.bytes())?;
        let counts = put_counts(self.alloc, sink.faults(), sink.memory_failures())?;
        out.push_str(counts.as_str())?;
        Ok(out)
    }

    fn row(&mut self, words: &[Vec<u8>]) -> Result<String, NoMemory> {
        let row = row_of(self.alloc, behind(words))?;
        match path_of(self.alloc, word(words, 0))? {
            Some(path) => {
                self.rows.push((path, row))?;
                number_shown(self.alloc, Some(self.rows.len()))
            }
            None => plain(self.alloc, "no path"),
        }
    }

    // The tree of the folder with the rows, and the rows that keep what of it the folder doesn't.
    fn grown(&mut self, attrs: &Attrs) -> Result<String, NoMemory> {
        match import(self.alloc, &mut self.folder, false) {
            Ok(found) => tree_shown(self.alloc, &tree_step(self.alloc, found, attrs)?),
            Err(e) => not_imported(self.alloc, e),
        }
    }

    fn tree(&mut self) -> Result<String, NoMemory> {
        let mut rows = Vec::new(self.alloc);
        std::mem::swap(&mut self.rows, &mut rows);
        match Attrs::from_vec(rows) {
            Some(attrs) => self.grown(&attrs),
            None => plain(self.alloc, "no rows"),
        }
    }
}

impl Subject for Held {
    fn fresh(&mut self) -> Result<(), NoMemory> {
        *self = Held::new(self.alloc)?;
        Ok(())
    }

    fn step(&mut self, words: &[Vec<u8>]) -> Result<String, NoMemory> {
        let alloc = self.alloc;
        match text(words, 0) {
            "set-file" | "set-dir" | "set-special" | "set-odd" => self.set(words),
            "at" => self.at(path_of(alloc, word(words, 1))?),
            "fail" => self.fail(number(words, 1)),
            "fail-write" => self.fail_write(number(words, 1), word(words, 2)),
            "faults" => self.faults(),
            "changes" => changes_shown(alloc, self.folder.asked()),
            "asked" => calls_shown(alloc, self.folder.asked()),
            "clear" => self.clear(),
            "put" => put_shown(alloc, self.sink.put(word(words, 1))),
            "fail-put" => self.fail_put(number(words, 1), number(words, 2)),
            "sink" => self.sink_shown(),
            "row" => self.row(behind(words)),
            "tree" => self.tree(),
            _ => folder_step(alloc, &mut self.folder, words),
        }
    }
}
