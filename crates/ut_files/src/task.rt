// Tasks of utilities.
ghost use Rattle.std.specs.Prelude.{◌≡◌, IfOk};

use crate::manner::Manner;
use crate::step::WorkItem;
use rk_base::NoMemory;
use rk_calls::{Answer, Call};
use std::alloc::Global;

/// A task of a utility: a call, and what comes of its answer.
pub trait Task: Drop {
    ghost use Rattle.ut_files.specs.declared.manner.Manner.{Manner};
    ghost use Rattle.ut_files.specs.Works.{Rules};

    ghost rules: { Manner → Rules Self };

    /// Its call.
    fn call(&self, alloc: Global, manner: &Manner) -> Result<Call, NoMemory>
        ensures { IfOk result (λ call. call ≡ (rules manner.now).asks self.now) };

    /// Whether its call opens a file.
    fn opens(&self) -> bool
        ensures { (m : Manner) → result ≡ (rules m).opens self.now };

    /// What its answer brings, which is done before what is left; `number` is the file's where it was opened.
    fn brings(
        self,
        alloc: Global,
        manner: &Manner,
        number: u64,
        answer: Answer,
    ) -> Result<Vec<WorkItem<Self>>, NoMemory>
        ensures { IfOk result (λ steps. steps.items ≡ (rules manner.now).brings number self answer) };
}
