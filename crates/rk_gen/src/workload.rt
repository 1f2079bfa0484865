// What the edits go on from.
ghost use Rattle.std.specs.Prelude.{◌≡◌, ◌<◌, ◌≤◌, ◌+◌, ◌^◌, ◌++◌, length, IfOk, OnOk, slice_set};
ghost use Rattle.rk_gen.specs.Draws.{draw, next};
ghost use Rattle.rk_gen.specs.Edits.{edit_of_kind, edited, line_more, longer, script_at, source_anew, source_gone, source_more};

use crate::draws::Draws;
use crate::edits::Edit;
use crate::files::File;
use crate::lines::{source_file, source_path};
use crate::scripts::{Script, script_file, script_line};
use rk_base::NoMemory;
use std::alloc::Global;
use std::marker::Model;

/// What the edits of a made workload go on from: the draws, how many sources were made so far, those that are gone as well,
/// and the scripts.
#[derive(Drop)]
pub struct Workload {
    draws: Draws,
    sources: u64,
    scripts: Vec<Script>,
}

impl Model for Workload {
    ghost use Rattle.std.specs.Prelude.{◌<◌, length};
    ghost use Rattle.rk_gen.specs.Start.{Made};

    ghost Value = { Made };

    ghost view = { λ w. record { x = w.draws; sources = w.sources; scripts = w.scripts.items } };

    ghost invariant = { λ w. (0 < w.sources) × (0 < length w.scripts.items) };
}

// One line more at the end of a script.
#[tactic(auto, unfolding(crate::specs::Edits::longer))]
fn add_line(alloc: Global, draws: &mut Draws, sources: u64, it: &mut Script) -> Result<(), NoMemory>
    requires { 0 < sources }
    ensures script { OnOk result (it.new ≡ (longer sources it.old draws.old).made) }
    ensures after { OnOk result (draws.new ≡ (longer sources it.old draws.old).after) }
{
    let i = it.lines.len() as u64;
    let line = script_line(alloc, draws, sources, it.number, i)?;
    it.lines.push(line)
}

impl Workload {
    /// The number of sources, and of scripts, is not zero.
    pub(crate) fn new(draws: Draws, sources: u64, scripts: Vec<Script>) -> Workload
        requires sources { 0 < sources }
        requires scripts { 0 < length scripts.items }
        ensures { result ≡ record { x = draws; sources = sources; scripts = scripts.items } }
    {
        Workload {
            draws,
            sources,
            scripts,
        }
    }

    #[tactic(auto, unfolding(crate::specs::Edits::source_anew))]
    fn source_anew(&mut self, alloc: Global) -> Result<Edit, NoMemory>
        ensures edit { IfOk result (λ e. e ≡ (source_anew self.old).edit) }
        ensures after { OnOk result (self.new ≡ (source_anew self.old).after) }
        ensures few { OnOk result (self.new.sources ≤ self.old.sources + 1) }
    {
        let k = self.draws.draw(self.sources);
        let file = source_file(alloc, &mut self.draws, k)?;
        Ok(Edit::Write(file))
    }

    #[tactic(auto, unfolding(crate::specs::Edits::source_more))]
    fn source_more(&mut self, alloc: Global) -> Result<Edit, NoMemory>
        requires { self.old.sources + 1 < 2 ^ 64 }
        ensures edit { IfOk result (λ e. e ≡ (source_more self.old).edit) }
        ensures after { OnOk result (self.new ≡ (source_more self.old).after) }
        ensures few { OnOk result (self.new.sources ≤ self.old.sources + 1) }
    {
        let file = source_file(alloc, &mut self.draws, self.sources)?;
        self.sources += 1;
        Ok(Edit::Write(file))
    }

    #[tactic(auto, unfolding(crate::specs::Edits::line_more))]
    fn line_more(&mut self, alloc: Global) -> Result<Edit, NoMemory>
        ensures edit { IfOk result (λ e. e ≡ (line_more self.old).edit) }
        ensures after { OnOk result (self.new ≡ (line_more self.old).after) }
        ensures few { OnOk result (self.new.sources ≤ self.old.sources + 1) }
    {
        let j = self.draws.draw(self.scripts.len() as u64) as usize;
        let it = &mut self.scripts[j];
        add_line(alloc, &mut self.draws, self.sources, it)?;
        let file = script_file(alloc, &self.scripts[j])?;
        Ok(Edit::Write(file))
    }

    #[tactic(auto, unfolding(crate::specs::Edits::source_gone))]
    fn source_gone(&mut self, alloc: Global) -> Result<Edit, NoMemory>
        ensures edit { IfOk result (λ e. e ≡ (source_gone self.old).edit) }
        ensures after { OnOk result (self.new ≡ (source_gone self.old).after) }
        ensures few { OnOk result (self.new.sources ≤ self.old.sources + 1) }
    {
        let k = self.draws.draw(self.sources);
        let path = source_path(alloc, k)?;
        Ok(Edit::Remove(path))
    }

    #[tactic(auto, unfolding(crate::specs::Edits::edit_of_kind))]
    fn edit_of_kind(&mut self, alloc: Global, kind: u64) -> Result<Edit, NoMemory>
        requires { self.old.sources + 1 < 2 ^ 64 }
        ensures edit { IfOk result (λ e. e ≡ (edit_of_kind kind self.old).edit) }
        ensures after { OnOk result (self.new ≡ (edit_of_kind kind self.old).after) }
        ensures few { OnOk result (self.new.sources ≤ self.old.sources + 1) }
    {
        if kind == 0 {
            self.source_anew(alloc)
        } else if kind == 1 {
            self.source_more(alloc)
        } else if kind == 2 {
            self.line_more(alloc)
        } else if kind == 3 {
            Ok(Edit::Nothing)
        } else {
            self.source_gone(alloc)
        }
    }

    /// The next edit.
    #[tactic(auto, unfolding(crate::specs::Edits::edited))]
    pub fn edit(&mut self, alloc: Global) -> Result<Edit, NoMemory>
        requires { self.old.sources + 1 < 2 ^ 64 }
        ensures edit { IfOk result (λ e. e ≡ (edited self.old).edit) }
        ensures after { OnOk result (self.new ≡ (edited self.old).after) }
        ensures few { OnOk result (self.new.sources ≤ self.old.sources + 1) }
    {
        let kind = self.draws.draw(5);
        self.edit_of_kind(alloc, kind)
    }
}
