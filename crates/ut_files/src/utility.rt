// The utilities by their names and options.
ghost use Rattle.std.specs.Prelude.{◌≡◌, IfOk, option_map};
ghost use Rattle.rk_calls.specs.declared.answer.Answer.TheVariants.{Go};
ghost use Rattle.ut_files.specs.Utilities.{name_of, named, file_talk, file_utility};

use crate::beginning::{Tasked, begin_found, first_word};
use crate::file_task::FileTask;
use crate::first::first_steps;
use crate::manner::Manner;
use crate::step::WorkItem;
use crate::worker::Worker;
use rk_base::{Bytes, NoMemory, Path, WordList};
use std::alloc::Global;
use ut_args::{Form, Opt, OptList};

/// A utility at work.
pub type FileUtility = Worker<FileTask>;

/// The file utilities of this crate (XCU, "Utilities").
#[derive(Clone, Copy, Debug, Drop)]
pub enum Utility {
    Chmod,
    Ln,
    Mkdir,
    Rm,
    Rmdir,
    Touch,
}

const NONE: [Opt; 0] = [];

const LN: [Opt; 2] = [
    Opt {
        letter: b's',
        form: Form::Alone,
    },
    Opt {
        letter: b'f',
        form: Form::Alone,
    },
];

const MKDIR: [Opt; 2] = [
    Opt {
        letter: b'p',
        form: Form::Alone,
    },
    Opt {
        letter: b'm',
        form: Form::Mode,
    },
];

const RM: [Opt; 2] = [
    Opt {
        letter: b'f',
        form: Form::Alone,
    },
    Opt {
        letter: b'r',
        form: Form::Alone,
    },
];

impl Utility {
    /// Its name, which its error text begins with.
    pub fn name(self) -> &'static [u8]
        ensures { result.now ≡ name_of self }
    {
        match self {
            Utility::Chmod => b"chmod",
            Utility::Ln => b"ln",
            Utility::Mkdir => b"mkdir",
            Utility::Rm => b"rm",
            Utility::Rmdir => b"rmdir",
            Utility::Touch => b"touch",
        }
    }

    /// The utility of this name, where this crate has it.
    pub fn named(name: &[u8]) -> Option<Utility>
        ensures { result ≡ named name.now }
    {
        if name == b"chmod".as_slice() {
            return Some(Utility::Chmod);
        }
        if name == b"ln".as_slice() {
            return Some(Utility::Ln);
        }
        if name == b"mkdir".as_slice() {
            return Some(Utility::Mkdir);
        }
        if name == b"rm".as_slice() {
            return Some(Utility::Rm);
        }
        if name == b"rmdir".as_slice() {
            return Some(Utility::Rmdir);
        }
        if name == b"touch".as_slice() {
            return Some(Utility::Touch);
        }
        None
    }
}

impl Tasked for Utility {
    ghost use Rattle.ut_files.specs.Utilities.{beginning};

    type Task = FileTask;

    ghost beginning = { beginning };

    fn table(&self) -> &'static [Opt] {
        match self {
            Utility::Chmod => &NONE,
            Utility::Ln => &LN,
            Utility::Mkdir => &MKDIR,
            Utility::Rm => &RM,
            Utility::Rmdir => &NONE,
            Utility::Touch => &NONE,
        }
    }

    fn manner(&self, alloc: Global, wd: &Path, given: &OptList) -> Result<Manner, NoMemory> {
        let name = Bytes::from_slice(alloc, self.name())?;
        let wd = wd.copy()?;
        Ok(Manner {
            name,
            wd,
            force: given.has(b'f'),
            recursive: given.has(b'r'),
            symbolic: given.has(b's'),
        })
    }

    fn first_steps(
        &self,
        alloc: Global,
        manner: &Manner,
        given: &OptList,
        operands: &[Bytes],
    ) -> Result<Vec<WorkItem<FileTask>>, NoMemory> {
        first_steps(alloc, *self, manner, given, operands)
    }
}

/// The utility of these words, of which the first is its name, in a working directory; `None` where this crate has
/// none of that name.
pub fn start(alloc: Global, wd: &Path, argv: &WordList) -> Result<Option<FileUtility>, NoMemory>
    ensures { IfOk result (λ o. option_map (λ w. file_talk w Go) o ≡ file_utility wd.now argv.now) }
{
    begin_found(alloc, Utility::named(first_word(argv)), wd, argv)
}
