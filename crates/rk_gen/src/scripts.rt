// Scripts, and the script that runs them all.
ghost use Rattle.std.specs.Prelude.{◌≡◌, ◌<◌, ◌++◌, codes, string_bytes, IfOk, OnOk};
ghost use Rattle.std.specs.List.{flat_map};
ghost use Rattle.rk_gen.specs.Draws.{draw, next};
ghost use Rattle.rk_gen.specs.Scripts.{cat_both_line, cat_line, grep_line, line_of_kind, rikerfile, run_line, script, script_file, script_line, script_lines, script_path, to_output, wc_line};

use crate::draws::Draws;
use crate::files::{File, path_of};
use crate::lines::text_of;
use rk_base::{Bytes, NoMemory, Path, WordList};
use std::alloc::Global;

/// A script: its number, and its lines without their newlines.
#[derive(Debug, Drop)]
pub struct Script {
    pub number: u64,
    pub lines: WordList,
}

fn bytes_of(alloc: Global, text: &str) -> Result<Bytes, NoMemory>
    ensures { IfOk result (λ b. b ≡ text.now) }
{
    Bytes::from_slice(alloc, text.as_bytes())
}

#[tactic(auto, unfolding(crate::specs::Scripts::to_output))]
fn to_output(alloc: Global, j: u64, i: u64) -> Result<String, NoMemory>
    ensures { IfOk result (λ s. string_bytes s ≡ to_output j i) }
{
    let text = format!(in alloc; " > o{j}_{i}")?;
    Ok(text)
}

#[tactic(auto, unfolding(crate::specs::Scripts::cat_line))]
fn cat_line(alloc: Global, a: u64, output: &str) -> Result<Bytes, NoMemory>
    ensures { IfOk result (λ b. b ≡ cat_line a output.now) }
{
    let text = format!(in alloc; "cat s{a}{output}")?;
    bytes_of(alloc, text.as_str())
}

#[tactic(auto, unfolding(crate::specs::Scripts::grep_line))]
fn grep_line(alloc: Global, a: u64, output: &str) -> Result<Bytes, NoMemory>
    ensures { IfOk result (λ b. b ≡ grep_line a output.now) }
{
    let text = format!(in alloc; "grep -F x s{a} | sort{output}")?;
    bytes_of(alloc, text.as_str())
}

#[tactic(auto, unfolding(crate::specs::Scripts::cat_both_line))]
fn cat_both_line(alloc: Global, a: u64, b: u64, output: &str) -> Result<Bytes, NoMemory>
    ensures { IfOk result (λ it. it ≡ cat_both_line a b output.now) }
{
    let text = format!(in alloc; "cat s{a} s{b}{output}")?;
    bytes_of(alloc, text.as_str())
}

#[tactic(auto, unfolding(crate::specs::Scripts::wc_line))]
fn wc_line(alloc: Global, a: u64, output: &str) -> Result<Bytes, NoMemory>
    ensures { IfOk result (λ b. b ≡ wc_line a output.now) }
{
    let text = format!(in alloc; "wc -l < s{a}{output}")?;
    bytes_of(alloc, text.as_str())
}

#[tactic(auto, unfolding(crate::specs::Scripts::line_of_kind))]
fn line_of_kind(
    alloc: Global,
    draws: &mut Draws,
    kind: u64,
    sources: u64,
    a: u64,
    output: &str,
) -> Result<Bytes, NoMemory>
    requires { 0 < sources }
    ensures line { IfOk result (λ line. line ≡ (line_of_kind kind sources a output.now draws.old).made) }
    ensures after { OnOk result (draws.new ≡ (line_of_kind kind sources a output.now draws.old).after) }
{
    if kind == 0 {
        cat_line(alloc, a, output)
    } else if kind == 1 {
        grep_line(alloc, a, output)
    } else if kind == 2 {
        let b = draws.draw(sources);
        cat_both_line(alloc, a, b, output)
    } else {
        wc_line(alloc, a, output)
    }
}

/// The line I of the script J, over so many sources.
#[tactic(auto, unfolding(crate::specs::Scripts::script_line))]
pub(crate) fn script_line(
    alloc: Global,
    draws: &mut Draws,
    sources: u64,
    j: u64,
    i: u64,
) -> Result<Bytes, NoMemory>
    requires { 0 < sources }
    ensures line { IfOk result (λ line. line ≡ (script_line sources j i draws.old).made) }
    ensures after { OnOk result (draws.new ≡ (script_line sources j i draws.old).after) }
{
    let kind = draws.draw(4);
    let a = draws.draw(sources);
    let output = to_output(alloc, j, i)?;
    line_of_kind(alloc, draws, kind, sources, a, output.as_str())
}

#[tactic(auto, unfolding(crate::specs::Scripts::script_lines))]
fn script_lines(
    alloc: Global,
    draws: &mut Draws,
    sources: u64,
    j: u64,
) -> Result<Vec<Bytes>, NoMemory>
    requires { 0 < sources }
    ensures lines { IfOk result (λ lines. lines.items ≡ (script_lines sources j draws.old).made) }
    ensures after { OnOk result (draws.new ≡ (script_lines sources j draws.old).after) }
{
    let count = 2 + draws.draw(10);
    let mut lines = Vec::new(alloc);
    for i in 0..count {
        let line = script_line(alloc, draws, sources, j, i)?;
        lines.push(line)?;
    }
    Ok(lines)
}

/// The script J, over so many sources.
#[tactic(auto, unfolding(crate::specs::Scripts::script))]
pub(crate) fn make_script(
    alloc: Global,
    draws: &mut Draws,
    sources: u64,
    j: u64,
) -> Result<Script, NoMemory>
    requires { 0 < sources }
    ensures script { IfOk result (λ s. s ≡ (script sources j draws.old).made) }
    ensures after { OnOk result (draws.new ≡ (script sources j draws.old).after) }
{
    let lines = script_lines(alloc, draws, sources, j)?;
    Ok(Script {
        number: j,
        lines: WordList::new(lines),
    })
}

#[tactic(auto, using(crate::proofs::CanonicalLemmas::script_canonical), unfolding(crate::specs::Scripts::script_path))]
fn script_path(alloc: Global, j: u64) -> Result<Path, NoMemory>
    ensures { IfOk result (λ p. p ≡ script_path j) }
{
    let text = format!(in alloc; "/g{j}.sh")?;
    path_of(alloc, text.as_str())
}

/// The file of a script: `gJ.sh` in the root.
#[tactic(auto, unfolding(crate::specs::Scripts::script_file))]
pub(crate) fn script_file(alloc: Global, it: &Script) -> Result<File, NoMemory>
    ensures { IfOk result (λ f. f ≡ script_file it.now) }
{
    let path = script_path(alloc, it.number)?;
    let bytes = text_of(alloc, it.lines.as_slice())?;
    Ok(File { path, bytes })
}

#[tactic(auto, unfolding(crate::specs::Scripts::run_line))]
fn add_run_line(alloc: Global, text: &mut Vec<u8>, it: &Script) -> Result<(), NoMemory>
    ensures { OnOk result (text.new.items ≡ text.old.items ++ run_line it.now) }
{
    let j = it.number;
    let line = format!(in alloc; "sh g{j}.sh\n")?;
    text.extend_from_slice(line.as_bytes())?;
    Ok(())
}

fn add_run_lines(alloc: Global, text: &mut Vec<u8>, scripts: &[Script]) -> Result<(), NoMemory>
    ensures { OnOk result (text.new.items ≡ text.old.items ++ flat_map run_line scripts.now) }
{
    for it in scripts {
        add_run_line(alloc, text, it)?;
    }
    Ok(())
}

fn rikerfile_bytes(alloc: Global, scripts: &[Script]) -> Result<Bytes, NoMemory>
    ensures { IfOk result (λ b. b ≡ flat_map run_line scripts.now ++ codes "cat s* > all\n") }
{
    let mut text = Vec::new(alloc);
    add_run_lines(alloc, &mut text, scripts)?;
    text.extend_from_slice(b"cat s* > all\n")?;
    Bytes::new(alloc, text)
}

/// `Rikerfile`, which runs each script, and then puts all sources in one file.
#[tactic(auto, using(crate::proofs::CanonicalLemmas::rikerfile_canonical), unfolding(crate::specs::Scripts::rikerfile))]
pub(crate) fn rikerfile(alloc: Global, scripts: &[Script]) -> Result<File, NoMemory>
    ensures { IfOk result (λ f. f ≡ rikerfile scripts.now) }
{
    let bytes = rikerfile_bytes(alloc, scripts)?;
    let path = path_of(alloc, "/Rikerfile")?;
    Ok(File { path, bytes })
}
