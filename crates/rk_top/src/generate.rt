// A made workload: a session of builds and edits over a folder in memory, and the line that tells it.
ghost use Rattle.std.specs.Prelude.{◌≡◌, ◌+◌, ◌<◌, ◌≤◌, ◌^◌, ℕ, IfOk, OnOk, Some, true};
ghost use Rattle.rk_top.specs.First.{first_talk};
ghost use Rattle.rk_folder.specs.Memory.{held_by, is_steady};
ghost use Rattle.rk_folder.specs.Told.{bytes_in, standing};
ghost use Rattle.rk_gen.specs.Edits.{edited};
ghost use Rattle.rk_top.specs.Generated.{Generates, IsBuilt, IsLine, KeepsTables, Reaches, digest_of, edited_stage, last_digest, line_of_stage, stage_of};
ghost use Rattle.rk_build.specs.Kept.{AreTables, state_in};
ghost use Rattle.rk_build.specs.Outcomes.{Counted, IsNoFault};
ghost use Rattle.rk_build.specs.Sessions.{IsWell};
ghost use Rattle.rk_replay.specs.Ran.{ran_total};
ghost use Rattle.tr_record.specs.Generations.{records, table_at};

use crate::commands::Commands;
use rk_base::{Bytes, NoMemory, Path, Steps};
use rk_build::{BuildErr, Outcome, build_in, tables_in};
use rk_calls::Maker;
use rk_folder::{MemFolder, MemSink, Sink, SinkErr, Standing, db_file};
use rk_gen::{Figures, Start, Workload, change, generate, start_folder, summary};
use rk_replay::paid;
use rk_request::{DEFAULT_STEPS, Request};
use std::alloc::Global;
use std::sync::ledger::Ledger;
use tr_record::Kept;

/// How many edits there are, each before a build.
const ROUNDS: u64 = 20;

/// Where a session stands: its folder, and what its builds came to.
#[derive(Drop)]
pub(crate) struct Session {
    pub folder: MemFolder,
    pub figures: Figures,
}

// The bytes of a file, and nothing of what else stands.
fn bytes_of(standing: &Standing) -> Result<Option<Bytes>, NoMemory>
    ensures { IfOk result (λ bytes. bytes ≡ bytes_in (Some standing.now)) }
{
    match standing {
        Standing::File(bytes) => {
            let bytes = bytes.copy()?;
            Ok(Some(bytes))
        }
        Standing::Dir => Ok(None),
        Standing::Special => Ok(None),
    }
}

fn bytes_at(folder: &MemFolder, file: &Path) -> Result<Option<Bytes>, NoMemory>
    ensures { IfOk result (λ bytes. bytes ≡ bytes_in (standing (held_by folder.now) file.now)) }
{
    match folder.at(file) {
        Some(standing) => bytes_of(standing),
        None => Ok(None),
    }
}

// The bytes of the database, where it stands.
fn db_of(alloc: Global, folder: &MemFolder) -> Result<Option<Bytes>, NoMemory>
    ensures { IfOk result (λ db. db ≡ (state_in (held_by folder.now)).db) }
{
    let file = db_file(alloc)?;
    bytes_at(folder, &file)
}

// The tables that the database spells.
fn tables_of(alloc: Global, folder: &MemFolder) -> Result<Kept, NoMemory>
    requires { KeepsTables (held_by folder.now) }
    ensures { IfOk result (λ kept. AreTables (state_in (held_by folder.now)).db kept) }
{
    let db = db_of(alloc, folder)?;
    match tables_in(alloc, &db) {
        Ok(read) => Ok(read.into_kept()),
        Err(stop) => match stop {
            BuildErr::NoMemory => Err(NoMemory),
            _ => unreachable!(),
        },
    }
}

// The turns that the commands of the newest table paid that ran over what was kept before.
fn turns_of(old: &Kept, now: &Kept) -> u64
    requires { ran_total (records old.now) (table_at 0 now.now) < 2 ^ 64 }
    ensures { result ≡ ran_total (records old.now) (table_at 0 now.now) }
{
    match now.table(0) {
        Some(table) => paid(old, table),
        None => 0,
    }
}

// One build, over a folder that is well and of which no call is to fail. Where the budget doesn't meet it, all stays as it is.
fn build_once<M: Maker, L: Ledger>(
    alloc: Global,
    maker: &mut M,
    session: &mut Session,
    live: &mut Steps<L>,
) -> Result<(), NoMemory>
    requires well { IsWell M.first (held_by session.old.folder) }
    requires steady { is_steady session.old.folder ≡ true }
    requires room { session.old.figures.builds + 1 < 2 ^ 32 }
    ensures built { OnOk result (IsBuilt M.first (stage_of session.old) (stage_of session.new)) }
    ensures well { OnOk result (IsWell M.first (held_by session.new.folder)) }
    ensures steady { is_steady session.new.folder ≡ true }
    ensures builds { OnOk result (session.new.figures.builds ≤ session.old.figures.builds + 1) }
    ensures paid { OnOk result (live.old + session.new.figures.turns ≤ live.new + session.old.figures.turns) }
{
    let request = Request::Build {
        steps: DEFAULT_STEPS,
        explain: false,
        fresh: false,
        check: false,
    };
    let old = tables_of(alloc, &session.folder)?;
    let mut out = MemSink::new(alloc);
    let mut err = MemSink::new(alloc);
    match build_in(
        alloc,
        maker,
        &request,
        &mut session.folder,
        &mut out,
        &mut err,
        live,
    ) {
        Outcome::Ended {
            status: _,
            launched,
            ran,
        } => {
            let kept = tables_of(alloc, &session.folder)?;
            session.figures.add(launched, ran, turns_of(&old, &kept));
            Ok(())
        }
        Outcome::Spent => Ok(()),
        Outcome::NoMemory => Err(NoMemory),
        _ => unreachable!(),
    }
}

// An edit, and a build after it.
fn round<M: Maker, L: Ledger>(
    alloc: Global,
    maker: &mut M,
    workload: &mut Workload,
    session: &mut Session,
    live: &mut Steps<L>,
) -> Result<(), NoMemory>
    requires sources { workload.old.sources + 1 < 2 ^ 64 }
    requires well { IsWell M.first (held_by session.old.folder) }
    requires steady { is_steady session.old.folder ≡ true }
    requires room { session.old.figures.builds + 1 < 2 ^ 32 }
    ensures workload { OnOk result (workload.new ≡ (edited workload.old).after) }
    ensures few { OnOk result (workload.new.sources ≤ workload.old.sources + 1) }
    ensures built { OnOk result (IsBuilt M.first (edited_stage (edited workload.old).edit (stage_of session.old)) (stage_of session.new)) }
    ensures well { OnOk result (IsWell M.first (held_by session.new.folder)) }
    ensures steady { is_steady session.new.folder ≡ true }
    ensures builds { OnOk result (session.new.figures.builds ≤ session.old.figures.builds + 1) }
    ensures paid { OnOk result (live.old + session.new.figures.turns ≤ live.new + session.old.figures.turns) }
{
    let edit = workload.edit(alloc)?;
    change(alloc, &mut session.folder, &edit)?;
    build_once(alloc, maker, session, live)
}

// The session of a seed, by the machines of any maker.
fn run<M: Maker, L: Ledger>(
    alloc: Global,
    maker: &mut M,
    seed: u64,
    live: &mut Steps<L>,
) -> Result<Session, NoMemory>
    ensures session { IfOk result (λ s. Reaches M.first seed 20 (stage_of s)) }
    ensures paid { IfOk result (λ s. live.old + s.figures.turns ≤ live.new) }
{
    let Start {
        files,
        mut workload,
    } = generate(alloc, seed)?;
    let folder = start_folder(alloc, &files)?;
    let mut session = Session {
        folder,
        figures: Figures::new(),
    };
    build_once(alloc, maker, &mut session, live)?;
    for _n in 0..ROUNDS {
        round(alloc, maker, &mut workload, &mut session, live)?;
    }
    Ok(session)
}

// The last bytes of a database.
fn digest_of(alloc: Global, db: &Bytes) -> Result<Bytes, NoMemory>
    ensures { IfOk result (λ digest. digest ≡ digest_of db.now) }
{
    let bytes = db.as_slice();
    let front = bytes.len().saturating_sub(32);
    Bytes::from_slice(alloc, &bytes[front..])
}

fn last_digest(alloc: Global, folder: &MemFolder) -> Result<Option<Bytes>, NoMemory>
    ensures { IfOk result (λ digest. digest ≡ last_digest (held_by folder.now)) }
{
    match db_of(alloc, folder)? {
        None => Ok(None),
        Some(db) => {
            let digest = digest_of(alloc, &db)?;
            Ok(Some(digest))
        }
    }
}

fn line_of_stage(alloc: Global, seed: u64, session: &Session) -> Result<Bytes, NoMemory>
    ensures { IfOk result (λ line. line ≡ line_of_stage seed (stage_of session.now)) }
{
    let digest = last_digest(alloc, &session.folder)?;
    summary(alloc, seed, &session.figures, digest.as_ref())
}

// The line of a seed's session.
fn line_of_seed<L: Ledger>(alloc: Global, seed: u64, live: &mut Steps<L>) -> Result<Bytes, NoMemory>
    ensures { IfOk result (IsLine first_talk seed live.old live.new) }
{
    let mut maker = Commands::new(alloc);
    let session = run(alloc, &mut maker, seed, live)?;
    line_of_stage(alloc, seed, &session)
}

/// Runs the session of a seed over a folder of its own, and puts its line. It answers `Said(0)`, `WriteFault` or `NoMemory`.
pub(crate) fn tell_workload<O: Sink, L: Ledger>(
    alloc: Global,
    seed: u64,
    out: &mut O,
    live: &mut Steps<L>,
) -> Outcome
    ensures says { Generates first_talk seed live.old live.new (O.so_far out.old) (O.so_far out.new) result }
    ensures counts { (reads writes errors : ℕ) → Counted (record { reads = reads; writes = writes; puts = O.faults out.old; error_puts = errors }) (record { reads = reads; writes = writes; puts = O.faults out.new; error_puts = errors }) result }
    ensures steady { O.steady out.old ≡ true → IsNoFault result }
{
    match line_of_seed(alloc, seed, live) {
        Ok(line) => match out.put(line.as_slice()) {
            Ok(()) => Outcome::Said(0),
            Err(SinkErr::Failed) => Outcome::WriteFault,
            Err(SinkErr::NoMemory) => Outcome::NoMemory,
        },
        Err(NoMemory) => Outcome::NoMemory,
    }
}
