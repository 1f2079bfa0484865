// The lines that tell outcomes.
ghost use Rattle.std.specs.Prelude.{◌≡◌, IfOk, true};
ghost use Rattle.rk_build.specs.Lines.{damage_text, damaged_line, digests, fixed_line, forged_line, name_of, special_line};
ghost use Rattle.rk_build.specs.Telling.{PutsLine, Tells};

use crate::{Outcome, StateFile};
use rk_base::{Bytes, NoMemory, Path};
use rk_folder::Sink;
use rk_show::shown;
use std::alloc::Global;
use tr_parts::Damage;

fn special_line(alloc: Global, path: &Path) -> Result<Bytes, NoMemory>
    ensures { IfOk result (λ b. b ≡ special_line path.now) }
{
    let path = shown(alloc, path.text())?;
    let mut line = Vec::from_slice(alloc, b"rkr: ")?;
    line.extend_from_slice(path.as_slice())?;
    line.extend_from_slice(b": not a file or directory\n")?;
    let line = Bytes::new(alloc, line)?;
    Ok(line)
}

fn name_of(file: StateFile) -> &'static [u8]
    ensures { result.now ≡ name_of file }
{
    match file {
        StateFile::Attrs => b"attrs",
        StateFile::Db => b"db",
        StateFile::Install => b"install",
    }
}

fn digests(alloc: Global, kept: &[u8; 32], computed: &[u8; 32]) -> Result<Bytes, NoMemory>
    ensures { IfOk result (λ b. b ≡ digests kept.now computed.now) }
{
    let kept = hex::encode(alloc, kept.as_slice())?;
    let computed = hex::encode(alloc, computed.as_slice())?;
    let mut text = Vec::from_slice(alloc, b"digest ")?;
    text.extend_from_slice(kept.as_bytes())?;
    text.extend_from_slice(b", computed ")?;
    text.extend_from_slice(computed.as_bytes())?;
    let text = Bytes::new(alloc, text)?;
    Ok(text)
}

fn damage_text(alloc: Global, damage: &Damage) -> Result<Bytes, NoMemory>
    ensures { IfOk result (λ b. b ≡ damage_text damage.now) }
{
    match damage {
        Damage::Short(_) => Bytes::from_slice(alloc, b"short"),
        Damage::Digest { kept, computed } => digests(alloc, kept, computed),
        Damage::Form => Bytes::from_slice(alloc, b"form"),
    }
}

fn damaged_line(alloc: Global, file: StateFile, damage: &Damage) -> Result<Bytes, NoMemory>
    ensures { IfOk result (λ b. b ≡ damaged_line file damage.now) }
{
    let damage = damage_text(alloc, damage)?;
    let mut line = Vec::from_slice(alloc, b"rkr: .rkr/")?;
    line.extend_from_slice(name_of(file))?;
    line.extend_from_slice(b": damaged: ")?;
    line.extend_from_slice(damage.as_slice())?;
    line.push(b'\n')?;
    let line = Bytes::new(alloc, line)?;
    Ok(line)
}

fn forged_line(alloc: Global, rec: u64, step: u64) -> Result<Bytes, NoMemory>
    ensures { IfOk result (λ b. b ≡ forged_line rec step) }
{
    let line = format!(in alloc; "rkr: record {rec} step {step}: forged\n")?;
    Bytes::from_slice(alloc, line.as_bytes())
}

// The lines that name nothing; none for an end.
fn fixed_line(outcome: &Outcome) -> &'static [u8]
    ensures { result.now ≡ fixed_line outcome.now }
{
    match outcome {
        Outcome::Ended { .. } => b"",
        Outcome::Said(_) => b"",
        Outcome::Usage =>
            b"usage: rkr build [--steps N] [--explain] [--fresh] [--check] | check | trace [--json] | forget | gen SEED\n",
        Outcome::Special(_) => b"",
        Outcome::Damaged(_, _) => b"",
        Outcome::Forged { .. } => b"",
        Outcome::Spent => b"rkr: budget spent\n",
        Outcome::ReadFault => b"rkr: read fault\n",
        Outcome::WriteFault => b"rkr: write fault\n",
        Outcome::NoMemory => b"rkr: out of memory\n",
    }
}

// Puts a line. Its failure changes nothing.
fn put_line<E: Sink>(err: &mut E, line: &[u8])
    ensures puts { PutsLine line.now (record { so_far = E.so_far err.old; faults = E.faults err.old; memory = E.memory_failures err.old }) (record { so_far = E.so_far err.new; faults = E.faults err.new; memory = E.memory_failures err.new }) }
    ensures steady { E.steady err.old ≡ true → E.faults err.new ≡ E.faults err.old }
{
    let _ = err.put(line);
}

/// Puts the outcome's line. Where there is no memory for a line that names something, the outcome is want of
/// memory.
pub fn tell<E: Sink>(alloc: Global, err: &mut E, outcome: Outcome) -> Outcome
    ensures tells { Tells outcome result (record { so_far = E.so_far err.old; faults = E.faults err.old; memory = E.memory_failures err.old }) (record { so_far = E.so_far err.new; faults = E.faults err.new; memory = E.memory_failures err.new }) }
    ensures steady { E.steady err.old ≡ true → E.faults err.new ≡ E.faults err.old }
{
    match outcome {
        Outcome::Special(path) => match special_line(alloc, &path) {
            Ok(line) => {
                put_line(err, line.as_slice());
                Outcome::Special(path)
            }
            Err(_) => {
                put_line(err, fixed_line(&Outcome::NoMemory));
                Outcome::NoMemory
            }
        },
        Outcome::Damaged(file, damage) => match damaged_line(alloc, file, &damage) {
            Ok(line) => {
                put_line(err, line.as_slice());
                Outcome::Damaged(file, damage)
            }
            Err(_) => {
                put_line(err, fixed_line(&Outcome::NoMemory));
                Outcome::NoMemory
            }
        },
        Outcome::Forged { rec, step } => match forged_line(alloc, rec, step) {
            Ok(line) => {
                put_line(err, line.as_slice());
                Outcome::Forged { rec, step }
            }
            Err(_) => {
                put_line(err, fixed_line(&Outcome::NoMemory));
                Outcome::NoMemory
            }
        },
        Outcome::Ended {
            status,
            launched,
            ran,
        } => Outcome::Ended {
            status,
            launched,
            ran,
        },
        Outcome::Said(status) => Outcome::Said(status),
        Outcome::Usage => {
            put_line(err, fixed_line(&Outcome::Usage));
            Outcome::Usage
        }
        Outcome::Spent => {
            put_line(err, fixed_line(&Outcome::Spent));
            Outcome::Spent
        }
        Outcome::ReadFault => {
            put_line(err, fixed_line(&Outcome::ReadFault));
            Outcome::ReadFault
        }
        Outcome::WriteFault => {
            put_line(err, fixed_line(&Outcome::WriteFault));
            Outcome::WriteFault
        }
        Outcome::NoMemory => {
            put_line(err, fixed_line(&Outcome::NoMemory));
            Outcome::NoMemory
        }
    }
}
