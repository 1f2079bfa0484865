// What a seed makes before the first build.
ghost use Rattle.std.specs.Prelude.{◌≡◌, ◌<◌, ◌++◌, length, map, IfOk, OnOk};
ghost use Rattle.rk_gen.specs.Draws.{drawn_all};
ghost use Rattle.rk_gen.specs.Lines.{source_file};
ghost use Rattle.rk_gen.specs.Scripts.{script_file};
ghost use Rattle.rk_gen.specs.Start.{files_of, made_of, script_files, scripts, sources};

use crate::draws::Draws;
use crate::files::File;
use crate::lines::source_file;
use crate::scripts::{Script, make_script, rikerfile, script_file};
use crate::workload::Workload;
use rk_base::NoMemory;
use std::alloc::Global;

/// What a seed makes before the first build: the files of the folder, and what the edits go on from.
#[derive(Drop)]
pub struct Start {
    pub files: Vec<File>,
    pub workload: Workload,
}

fn source_files(alloc: Global, draws: &mut Draws, count: u64) -> Result<Vec<File>, NoMemory>
    ensures files { IfOk result (λ files. files.items ≡ (drawn_all source_file count draws.old).made) }
    ensures after { OnOk result (draws.new ≡ (drawn_all source_file count draws.old).after) }
{
    let mut files = Vec::new(alloc);
    for k in 0..count {
        let file = source_file(alloc, draws, k)?;
        files.push(file)?;
    }
    Ok(files)
}

#[tactic(auto, unfolding(crate::specs::Start::scripts))]
fn scripts(alloc: Global, draws: &mut Draws, sources: u64) -> Result<Vec<Script>, NoMemory>
    requires { 0 < sources }
    ensures scripts { IfOk result (λ all. all.items ≡ (scripts sources draws.old).made) }
    ensures some { IfOk result (λ all. 0 < length all.items) }
    ensures after { OnOk result (draws.new ≡ (scripts sources draws.old).after) }
{
    let count = 4 + draws.draw(12);
    let mut all = Vec::new(alloc);
    for j in 0..count {
        let it = make_script(alloc, draws, sources, j)?;
        all.push(it)?;
    }
    Ok(all)
}

fn add_script_files(alloc: Global, files: &mut Vec<File>, all: &[Script]) -> Result<(), NoMemory>
    ensures { OnOk result (files.new.items ≡ files.old.items ++ map script_file all.now) }
{
    for it in all {
        let file = script_file(alloc, it)?;
        files.push(file)?;
    }
    Ok(())
}

// The files of scripts, and of the one that runs them, after others.
fn add_scripts(alloc: Global, files: &mut Vec<File>, all: &[Script]) -> Result<(), NoMemory>
    ensures { OnOk result (files.new.items ≡ files.old.items ++ script_files all.now) }
{
    add_script_files(alloc, files, all)?;
    let file = rikerfile(alloc, all)?;
    files.push(file)?;
    Ok(())
}

/// The files that a seed makes: sources, scripts over them, and `Rikerfile`, which runs the scripts; and what the edits go on
/// from.
#[tactic(auto, unfolding(crate::specs::Start::files_of, crate::specs::Start::made_of, crate::specs::Start::sources, crate::specs::Start::source_count))]
pub fn generate(alloc: Global, seed: u64) -> Result<Start, NoMemory>
    ensures files { IfOk result (λ s. s.files.items ≡ files_of seed) }
    ensures made { IfOk result (λ s. s.workload ≡ made_of seed) }
    ensures few { IfOk result (λ s. s.workload.sources < 33) }
{
    let mut draws = Draws::new(seed);
    let count = 8 + draws.draw(25);
    let mut files = source_files(alloc, &mut draws, count)?;
    let all = scripts(alloc, &mut draws, count)?;
    add_scripts(alloc, &mut files, &all)?;
    let workload = Workload::new(draws, count, all);
    Ok(Start { files, workload })
}
