// The answers to calls.
use crate::World;
use rk_base::{Errno, NoMemory};
use rk_calls::{Answer, Answerer, Call, Refs};

impl Answerer for World {
    ghost use Rattle.std.specs.Prelude.{Some};
    ghost use Rattle.rk_kernel.specs.World.{World};
    ghost use Rattle.rk_kernel.specs.Do.{answered};
    ghost use Rattle.rk_kernel.specs.Fitting.{answered-fits};

    type Stop = NoMemory;

    ghost Meaning = { World };

    ghost told = { λ world. Some world };

    ghost given = { answered };

    // Want of memory alone stops it, which says nothing.
    ghost Stops = { λ before now stop. Unit {0} };

    // A launch is not the world's to answer: it is refused, and nothing changes.
    fn answer(&mut self, refs: &mut Refs, call: &Call) -> Result<Answer, NoMemory> {
        match call {
            Call::Open(path, how) => self.open(refs, path, *how),
            Call::Read(r) => self.read(refs, *r),
            Call::ReadLine(r) => self.read_line(refs, *r),
            Call::Write(r, bytes) => self.write(refs, *r, bytes),
            Call::Stat(path, follow) => Ok(self.stat(refs, path, *follow)),
            Call::List(path) => self.list(refs, path),
            Call::ReadLink(path) => self.read_link(refs, path),
            Call::Walk(path) => self.walk(refs, path),
            Call::Same(a, b) => Ok(self.same(refs, a, b)),
            Call::Mkdir(path, mode) => self.mkdir(refs, path, *mode),
            Call::Rmdir(path) => self.rmdir(refs, path),
            Call::Unlink(path) => self.unlink(refs, path),
            Call::Rename(a, b) => self.rename(refs, a, b),
            Call::Symlink(text, path) => self.symlink(refs, text, path),
            Call::Link(a, b) => self.link(refs, a, b),
            Call::Chmod(path, mode) => self.chmod(refs, path, *mode),
            Call::Pipe => self.pipe(refs),
            Call::Launch(_, _) => Ok(Answer::No(Errno::Invalid)),
        }
    }

    ghost fitting = { answered-fits };

    ghost memory = { λ before now want stop gives. tt };
}
