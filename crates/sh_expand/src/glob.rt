// The machine of pathname expansion.
ghost use Rattle.std.specs.Prelude.{◌≡◌, ◌∷◌, [], ℕ, IfOk, false};
ghost use Rattle.rk_base.specs.Text.{Text};
ghost use Rattle.sh_expand.specs.Globbing.{Found, globs};
ghost use Rattle.sh_expand.specs.Stages.{glob_talk, after_glob};

use crate::steps::{Stage, Wait, run, take};
use rk_base::{Bytes, NoMemory, Path};
use rk_calls::{Answer, Call};
use sh_pattern::PathList;
use std::alloc::Global;
use std::collections::VecDeque;
use std::mem;

/// What stands between slashes: a text, or a pattern, in which a backslash quotes the byte after it.
#[derive(Debug, Drop)]
pub enum Component {
    Literal(Bytes),
    Pattern(Bytes),
}

/// What it wants next.
#[derive(Drop)]
pub enum Globbing {
    /// This call is to be answered, at the cost of one turn.
    Ask(Call),
    Found(PathList),
}

/// A field that is being expanded.
#[derive(Drop)]
pub struct Glob {
    pub(crate) alloc: Global,
    pub(crate) wd: Path,
    pub(crate) components: VecDeque<Component>,
    pub(crate) wait: Wait,
}

impl Glob {
    /// The expansion of a field with these components, in a working directory.
    pub(crate) fn start(
        alloc: Global,
        wd: &Path,
        components: VecDeque<Component>,
    ) -> Result<Glob, NoMemory>
        ensures { IfOk result (λ g. (k : Found) (n p : ℕ) → glob_talk g Answer.Go k n p ≡ globs wd.now false components.items ([] ∷ []) k n p) }
    {
        let wd = wd.copy()?;
        let mut prefixes = PathList::new(alloc);
        prefixes.push(Bytes::from_slice(alloc, b"")?)?;
        Ok(Glob {
            alloc,
            wd,
            components,
            wait: Wait::Ready(Stage::Between(false, prefixes)),
        })
    }

    /// What it wants next. It is resumed first with `Go`, after `Ask` with the call's answer, and after `Found` not
    /// again.
    pub(crate) fn resume(&mut self, answer: Answer) -> Result<Globbing, NoMemory>
        ensures { IfOk result (λ t. (k : Found) (n p : ℕ) → glob_talk self.old answer k n p ≡ after_glob t (λ a. glob_talk self.new a k) k n p) }
    {
        let alloc = self.alloc;
        let wait = mem::replace(&mut self.wait, Wait::Over);
        let stage = take(alloc, &self.components, wait, answer)?;
        let (wait, wants) = run(alloc, &self.wd, &mut self.components, stage)?;
        self.wait = wait;
        Ok(wants)
    }
}
