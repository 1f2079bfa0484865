// Sources and their lines.
ghost use Rattle.std.specs.Prelude.{◌≡◌, ◌++◌, ◌∷◌, [], IfOk, OnOk};
ghost use Rattle.std.specs.List.{flat_map};
ghost use Rattle.std.specs.Fmt.{decimal};
ghost use Rattle.rk_gen.specs.Draws.{draw, drawn_all};
ghost use Rattle.rk_gen.specs.Lines.{ended, source, source_file, source_line, source_path, text_of};

use crate::draws::Draws;
use crate::files::{File, path_of};
use rk_base::{Bytes, NoMemory, Path};
use std::alloc::Global;

fn add_ended(text: &mut Vec<u8>, line: &[u8]) -> Result<(), NoMemory>
    ensures { OnOk result (text.new.items ≡ text.old.items ++ ended line.now) }
{
    text.extend_from_slice(line)?;
    text.push(b'\n')?;
    Ok(())
}

fn add_all_ended(text: &mut Vec<u8>, lines: &[Bytes]) -> Result<(), NoMemory>
    ensures { OnOk result (text.new.items ≡ text.old.items ++ flat_map ended lines.now) }
{
    for line in lines {
        add_ended(text, line.as_slice())?;
    }
    Ok(())
}

/// Lines as one text.
#[tactic(auto, unfolding(crate::specs::Lines::text_of))]
pub(crate) fn text_of(alloc: Global, lines: &[Bytes]) -> Result<Bytes, NoMemory>
    ensures { IfOk result (λ text. text ≡ text_of lines.now) }
{
    let mut text = Vec::new(alloc);
    add_all_ended(&mut text, lines)?;
    Bytes::new(alloc, text)
}

// A letter and a number.
fn letter_line(alloc: Global, letter: u8, n: u64) -> Result<Bytes, NoMemory>
    ensures { IfOk result (λ line. line ≡ letter ∷ decimal n) }
{
    let digits = format!(in alloc; "{n}")?;
    let mut line = Vec::from_slice(alloc, &[letter])?;
    line.extend_from_slice(digits.as_bytes())?;
    Bytes::new(alloc, line)
}

#[tactic(auto, unfolding(crate::specs::Lines::source_line))]
fn source_line(alloc: Global, draws: &mut Draws) -> Result<Bytes, NoMemory>
    ensures line { IfOk result (λ line. line ≡ (source_line draws.old).made) }
    ensures after { OnOk result (draws.new ≡ (source_line draws.old).after) }
{
    let letter = if draws.draw(2) == 0 { b'x' } else { b'y' };
    let n = draws.draw(1_000);
    letter_line(alloc, letter, n)
}

/// The lines of a source: up to seven.
#[tactic(auto, unfolding(crate::specs::Lines::source))]
pub(crate) fn source(alloc: Global, draws: &mut Draws) -> Result<Vec<Bytes>, NoMemory>
    ensures lines { IfOk result (λ lines. lines.items ≡ (source draws.old).made) }
    ensures after { OnOk result (draws.new ≡ (source draws.old).after) }
{
    let count = draws.draw(8);
    let mut lines = Vec::new(alloc);
    for _number in 0..count {
        let line = source_line(alloc, draws)?;
        lines.push(line)?;
    }
    Ok(lines)
}

/// Where the source of this number stands: `sK` in the root.
#[tactic(auto, using(crate::proofs::CanonicalLemmas::source_canonical), unfolding(crate::specs::Lines::source_path))]
pub(crate) fn source_path(alloc: Global, k: u64) -> Result<Path, NoMemory>
    ensures { IfOk result (λ p. p ≡ source_path k) }
{
    let text = format!(in alloc; "/s{k}")?;
    path_of(alloc, text.as_str())
}

/// The source of this number, made anew.
#[tactic(auto, unfolding(crate::specs::Lines::source_file))]
pub(crate) fn source_file(alloc: Global, draws: &mut Draws, k: u64) -> Result<File, NoMemory>
    ensures file { IfOk result (λ f. f ≡ (source_file k draws.old).made) }
    ensures after { OnOk result (draws.new ≡ (source_file k draws.old).after) }
{
    let lines = source(alloc, draws)?;
    let bytes = text_of(alloc, &lines)?;
    let path = source_path(alloc, k)?;
    Ok(File { path, bytes })
}
