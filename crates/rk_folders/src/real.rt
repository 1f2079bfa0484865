// Steps of a real folder and of real streams, of which no clause tells what they hold, in a directory `real` that is made
// for them and removed again.
use crate::folders::{folder_step, put_shown};
use crate::plans::{Holdings, plan_shown};
use crate::recoveries::{call_of, install_list_of, install_shown, recovery_shown};
use rk_base::{Bytes, NoMemory};
use rk_folder::{ByFolder, Sink};
use rk_install::{install, recover};
use rk_real::{RealFolder, RealSink};
use rk_seal::{Op, Plan};
use rk_steps::{Subject, behind, mode, number, path_of, plain, shown, text, word};
use rk_tree::{Fetch, FetchErr};
use std::alloc::Global;
use std::fs::{File, Permissions};
use std::io::Write;
use std::os::unix::fs::{MetadataExt, PermissionsExt, symlink};
use std::{fs, io};

/// A real folder, what is planned for it, and what its directory is asked beside it.
#[derive(Drop)]
pub(crate) struct Real {
    alloc: Global,
    rt: HostRuntime,
    folder: RealFolder<HostRuntime>,
    holdings: Holdings,
    ops: Vec<Op>,
}

/// A stream that takes at most so many bytes at a time, or fails.
#[derive(Drop)]
struct Narrow {
    file: File,
    most: usize,
    fails: bool,
}

impl Write for Narrow {
    fn write(&mut self, buf: &[u8]) -> io::Result<usize> {
        if self.fails {
            return Err(io::Error::from(io::ErrorKind::BrokenPipe));
        }
        let n = buf.len().min(self.most);
        let (front, _) = buf.split_at_checked(n).unwrap_or((b"", b""));
        self.file.write(front)
    }

    fn flush(&mut self) -> io::Result<()> {
        Ok(())
    }
}

// The place of a path in the directory.
fn place_of(alloc: Global, path: &str) -> io::Result<String> {
    let mut place = String::from_str(alloc, "real")?;
    place.push_str(path)?;
    Ok(place)
}

// A file of more than 2^32 bytes; none of them is written.
fn make_long(rt: &HostRuntime, place: &str) -> io::Result<()> {
    let file = File::create(rt, place)?;
    file.set_len((1 << 32) + 1)
}

fn link(rt: &HostRuntime, alloc: Global, place: &str, path: &str) -> io::Result<()> {
    let other = place_of(alloc, path)?;
    fs::hard_link(rt, place, other.as_str())
}

fn set_mode(rt: &HostRuntime, place: &str, mode: u16) -> io::Result<()> {
    fs::set_permissions(rt, place, Permissions::from_mode(u32::from(mode)))
}

fn change(rt: &HostRuntime, alloc: Global, words: &[Vec<u8>]) -> io::Result<()> {
    let place = place_of(alloc, text(words, 1))?;
    match text(words, 0) {
        "really-begin" => fs::create_dir(rt, "real"),
        "really-end" => fs::remove_dir_all(rt, "real"),
        "really-link" => link(rt, alloc, place.as_str(), text(words, 2)),
        "really-mode" => set_mode(rt, place.as_str(), mode(words, 2)),
        "really-symlink" => symlink(rt, text(words, 2), place.as_str()),
        "really-long" => make_long(rt, place.as_str()),
        _ => fs::remove_file(rt, place.as_str()),
    }
}

fn mode_at(rt: &HostRuntime, alloc: Global, path: &str) -> io::Result<u32> {
    let place = place_of(alloc, path)?;
    let mode = fs::symlink_metadata(rt, place.as_str())?.mode();
    Ok(mode & 0o777)
}

fn mode_shown(alloc: Global, mode: u32) -> Result<String, NoMemory> {
    let out = format!(in alloc; "{mode:o}")?;
    Ok(out)
}

fn bytes_at(rt: &HostRuntime, alloc: Global, path: &str) -> io::Result<Vec<u8>> {
    let place = place_of(alloc, path)?;
    fs::read(rt, place.as_str())
}

fn create(rt: &HostRuntime, alloc: Global, path: &str) -> io::Result<File> {
    let place = place_of(alloc, path)?;
    File::create(rt, place.as_str())
}

fn through_narrow(
    rt: &HostRuntime,
    alloc: Global,
    words: &[Vec<u8>],
) -> io::Result<RealSink<Narrow>> {
    let file = create(rt, alloc, text(words, 1))?;
    let most = number(words, 2) as usize;
    let fails = text(words, 3) == "fails";
    Ok(RealSink::new(Narrow { file, most, fails }))
}

// Puts each of these words.
fn put_all<S: Sink>(alloc: Global, sink: &mut S, words: &[Vec<u8>]) -> Result<String, NoMemory> {
    let mut out = plain(alloc, "puts")?;
    'words: for word in words {
        out.push(' ')?;
        out.push_str(put_shown(alloc, sink.put(word.as_slice()))?.as_str())?;
    }
    Ok(out)
}

fn put_in_file(rt: &HostRuntime, alloc: Global, words: &[Vec<u8>]) -> Result<String, NoMemory> {
    match create(rt, alloc, text(words, 1)) {
        Ok(file) => put_all(alloc, &mut RealSink::new(file), behind(behind(words))),
        Err(_) => plain(alloc, "not done"),
    }
}

fn puts(rt: &HostRuntime, alloc: Global, words: &[Vec<u8>]) -> Result<String, NoMemory> {
    match through_narrow(rt, alloc, words) {
        Ok(mut sink) => put_all(alloc, &mut sink, behind(behind(behind(behind(words))))),
        Err(_) => plain(alloc, "not done"),
    }
}

fn no_bytes(alloc: Global, e: FetchErr) -> Result<String, NoMemory> {
    match e {
        FetchErr::Failed => plain(alloc, "read fault"),
        FetchErr::NoMemory => Err(NoMemory),
    }
}

fn fetched_shown(alloc: Global, bytes: Result<Bytes, FetchErr>) -> Result<String, NoMemory> {
    match bytes {
        Ok(bytes) => shown(alloc, bytes.as_slice()),
        Err(e) => no_bytes(alloc, e),
    }
}

fn done_shown(alloc: Global, done: io::Result<()>) -> Result<String, NoMemory> {
    plain(alloc, if done.is_ok() { "done" } else { "not done" })
}

impl Real {
    pub(crate) fn new(rt: HostRuntime) -> Result<Real, NoMemory> {
        let alloc = rt.alloc();
        let other = rt.clone()?;
        Ok(Real {
            alloc,
            rt,
            folder: RealFolder::new(other, String::from_str(alloc, "real")?),
            holdings: Holdings::new(alloc),
            ops: Vec::new(alloc),
        })
    }

    fn mode(&self, path: &str) -> Result<String, NoMemory> {
        match mode_at(&self.rt, self.alloc, path) {
            Ok(mode) => mode_shown(self.alloc, mode),
            Err(_) => plain(self.alloc, "nothing"),
        }
    }

    fn bytes(&self, path: &str) -> Result<String, NoMemory> {
        match bytes_at(&self.rt, self.alloc, path) {
            Ok(bytes) => shown(self.alloc, &bytes),
            Err(_) => plain(self.alloc, "nothing"),
        }
    }

    fn carry_out(&mut self, plan: Option<Plan>) -> Result<String, NoMemory> {
        match plan {
            Some(plan) => {
                let done = install(self.alloc, &mut self.folder, &plan);
                install_shown(self.alloc, done)
            }
            None => plain(self.alloc, "no plan"),
        }
    }

    fn install_planned(&mut self) -> Result<String, NoMemory> {
        match self.holdings.plan() {
            Ok(plan) => self.carry_out(plan),
            Err(e) => no_bytes(self.alloc, e),
        }
    }

    // The bytes of a file, fetched as a build fetches them.
    fn fetch(&mut self, path: &[u8]) -> Result<String, NoMemory> {
        match path_of(self.alloc, path)? {
            Some(path) => {
                let mut fetch = ByFolder::new(&mut self.folder);
                fetched_shown(self.alloc, fetch.get(self.alloc, &path))
            }
            None => plain(self.alloc, "no path"),
        }
    }

    fn put(&mut self, words: &[Vec<u8>]) -> Result<String, NoMemory> {
        match call_of(self.alloc, words)? {
            Some(op) => {
                self.ops.push(op)?;
                plain(self.alloc, "put")
            }
            None => plain(self.alloc, "no call"),
        }
    }

    // The plan of the calls that were put.
    fn install_list(&mut self) -> Result<String, NoMemory> {
        match install_list_of(self.alloc, &mut self.ops) {
            Some(list) => self.carry_out(Some(Plan {
                calls: Some(list),
                fresh_list: false,
            })),
            None => plain(self.alloc, "no list"),
        }
    }

    fn sealed(&mut self, words: &[Vec<u8>]) -> Result<String, NoMemory> {
        match text(words, 0) {
            "op" => self.put(behind(words)),
            "install-list" => self.install_list(),
            _ => recovery_shown(self.alloc, recover(self.alloc, &mut self.folder)),
        }
    }

    fn planned(&mut self, words: &[Vec<u8>]) -> Result<String, NoMemory> {
        match text(words, 0) {
            "before" => self.holdings.before(behind(words)),
            "after" => self.holdings.after(behind(words)),
            "next" => self.holdings.next(),
            "plan" => plan_shown(self.alloc, self.holdings.plan()),
            _ => self.install_planned(),
        }
    }
}

impl Subject for Real {
    fn fresh(&mut self) -> Result<(), NoMemory> {
        self.holdings = Holdings::new(self.alloc);
        Ok(())
    }

    fn step(&mut self, words: &[Vec<u8>]) -> Result<String, NoMemory> {
        let alloc = self.alloc;
        if let Some(told) = self.holdings.fetches(words)? {
            return Ok(told);
        }
        match text(words, 0) {
            "really-begin"
            | "really-end"
            | "really-link"
            | "really-mode"
            | "really-symlink"
            | "really-long"
            | "really-remove" => { done_shown(alloc, change(&self.rt, alloc, words)) }
            "really-read" => self.bytes(text(words, 1)),
            "fetch" => self.fetch(word(words, 1)),
            "mode" => self.mode(text(words, 1)),
            "put-in" => put_in_file(&self.rt, alloc, words),
            "puts" => puts(&self.rt, alloc, words),
            "before" | "after" | "next" | "plan" | "install" => self.planned(words),
            "op" | "install-list" | "recover" => self.sealed(words),
            _ => folder_step(alloc, &mut self.folder, words),
        }
    }
}
