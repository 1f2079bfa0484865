// Steps of made workloads, and of what is told where there are no records.
ghost use Rattle.rk_folder.specs.Memory.{is_steady};
ghost use Rattle.std.specs.Prelude.{◌≡◌, ◌<◌, true};

use crate::folders::standing_shown;
use rk_base::{Bytes, NoMemory, Path};
use rk_folder::{MemFolder, Standing};
use rk_gen::{Draws, Edit, Figures, File, change, generate, start_folder, summary};
use rk_show::{records_text, trace_json, trace_text};
use rk_steps::{Subject, number, number_shown, path_of, plain, push_shown, shown, text, word};
use std::alloc::Global;

/// What is drawn.
#[derive(Drop)]
pub(crate) struct Made {
    alloc: Global,
    draws: Draws,
}

fn two(alloc: Global, first: &str, path: &[u8], bytes: &[u8]) -> Result<String, NoMemory> {
    let mut out = plain(alloc, first)?;
    out.push(' ')?;
    push_shown(alloc, &mut out, path)?;
    out.push(' ')?;
    push_shown(alloc, &mut out, bytes)?;
    Ok(out)
}

fn file_shown(alloc: Global, file: Option<&File>) -> Result<String, NoMemory> {
    match file {
        Some(file) => two(alloc, "file", file.path.text(), file.bytes.as_slice()),
        None => plain(alloc, "none"),
    }
}

fn remove_shown(alloc: Global, path: &Path) -> Result<String, NoMemory> {
    let mut out = plain(alloc, "remove ")?;
    push_shown(alloc, &mut out, path.text())?;
    Ok(out)
}

fn edit_shown(alloc: Global, edit: &Edit) -> Result<String, NoMemory> {
    match edit {
        Edit::Write(file) => two(alloc, "write", file.path.text(), file.bytes.as_slice()),
        Edit::Remove(path) => remove_shown(alloc, path),
        Edit::Nothing => plain(alloc, "nothing"),
    }
}

fn count_step(alloc: Global, seed: u64) -> Result<String, NoMemory> {
    let made = generate(alloc, seed)?;
    number_shown(alloc, Some(made.files.len()))
}

fn file_step(alloc: Global, seed: u64, i: u64) -> Result<String, NoMemory> {
    let made = generate(alloc, seed)?;
    file_shown(alloc, made.files.get(i as usize))
}

// The first edit of a seed.
fn first_edit(alloc: Global, seed: u64) -> Result<Edit, NoMemory> {
    let mut made = generate(alloc, seed)?;
    made.workload.edit(alloc)
}

fn edit_step(alloc: Global, seed: u64) -> Result<String, NoMemory> {
    let edit = first_edit(alloc, seed)?;
    edit_shown(alloc, &edit)
}

fn standing(alloc: Global, is_kind: bool, it: Option<&Standing>) -> Result<String, NoMemory> {
    match it {
        Some(Standing::File(_)) if is_kind => plain(alloc, "file"),
        _ => standing_shown(alloc, it),
    }
}

fn edit_in(alloc: Global, folder: &mut MemFolder, seed: u64) -> Result<(), NoMemory>
    requires { is_steady folder.old ≡ true }
{
    let edit = first_edit(alloc, seed)?;
    change(alloc, folder, &edit)
}

// What stands at a path of a seed's folder after its first edit, or what kind of thing.
fn edited_step(alloc: Global, seed: u64, path: &Path, is_kind: bool) -> Result<String, NoMemory> {
    let made = generate(alloc, seed)?;
    let mut folder = start_folder(alloc, &made.files)?;
    edit_in(alloc, &mut folder, seed)?;
    standing(alloc, is_kind, folder.at(path))
}

fn edited(alloc: Global, seed: u64, path: &[u8], is_kind: bool) -> Result<String, NoMemory> {
    match path_of(alloc, path)? {
        Some(path) => edited_step(alloc, seed, &path, is_kind),
        None => plain(alloc, "no path"),
    }
}

fn none_step(alloc: Global, seed: u64) -> Result<String, NoMemory> {
    let line = summary(alloc, seed, &Figures::new(), None)?;
    shown(alloc, line.as_slice())
}

// The line of two builds, each with three figures.
fn summary_step(alloc: Global, seed: u64, words: &[Vec<u8>]) -> Result<String, NoMemory> {
    let mut figures = Figures::new();
    figures.add(number(words, 3), number(words, 4), number(words, 5));
    figures.add(number(words, 6), number(words, 7), number(words, 8));
    let digest = Bytes::from_slice(alloc, word(words, 2))?;
    let line = summary(alloc, seed, &figures, Some(&digest))?;
    shown(alloc, line.as_slice())
}

impl Made {
    pub(crate) fn new(alloc: Global) -> Result<Made, NoMemory> {
        Ok(Made {
            alloc,
            draws: Draws::new(0),
        })
    }

    fn seed(&mut self, seed: u64) -> Result<String, NoMemory> {
        self.draws = Draws::new(seed);
        plain(self.alloc, "seeded")
    }

    fn draw(&mut self, below: u64) -> Result<String, NoMemory> {
        if below == 0 {
            return plain(self.alloc, "none");
        }
        let drawn = self.draws.draw(below);
        let out = format!(in self.alloc; "{drawn}")?;
        Ok(out)
    }
}

impl Subject for Made {
    fn fresh(&mut self) -> Result<(), NoMemory> {
        *self = Made::new(self.alloc)?;
        Ok(())
    }

    fn step(&mut self, words: &[Vec<u8>]) -> Result<String, NoMemory> {
        let alloc = self.alloc;
        let n = number(words, 1);
        match text(words, 0) {
            "seed" => self.seed(n),
            "draw" => self.draw(n),
            "files" => count_step(alloc, n),
            "file" => file_step(alloc, n, number(words, 2)),
            "edit" => edit_step(alloc, n),
            "edited" => edited(alloc, n, word(words, 2), false),
            "edited-kind" => edited(alloc, n, word(words, 2), true),
            "no-builds" => none_step(alloc, n),
            "two-builds" => summary_step(alloc, n, words),
            "no-json" => shown(alloc, trace_json(alloc, &[])?.as_slice()),
            "no-trace" => shown(alloc, trace_text(alloc, &[], word(words, 1))?.as_slice()),
            "records" => shown(alloc, records_text(alloc, n)?.as_slice()),
            _ => plain(alloc, "unknown step"),
        }
    }
}
