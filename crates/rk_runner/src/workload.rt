// A made workload: after each edit a build over the records comes to what a first one does.
use crate::program::Program;
use crate::session::Session;
use rk_base::NoMemory;
use rk_sessions::{Draws, SOURCES, script, source};
use std::alloc::Global;

const SCRIPTS: u64 = 4;

fn put_source<P: Program>(
    alloc: Global,
    draws: &mut Draws,
    session: &mut Session<P>,
    a: u64,
) -> Result<(), NoMemory> {
    let name = format!(in alloc; "/s{a}")?;
    let text = source(alloc, draws)?;
    session.put(name.as_str(), text.as_str())
}

fn remove_source<P: Program>(
    alloc: Global,
    session: &mut Session<P>,
    a: u64,
) -> Result<(), NoMemory> {
    let name = format!(in alloc; "/s{a}")?;
    session.remove(name.as_str())
}

fn put_script<P: Program>(
    alloc: Global,
    draws: &mut Draws,
    session: &mut Session<P>,
    j: u64,
) -> Result<(), NoMemory> {
    let name = format!(in alloc; "/g{j}.sh")?;
    let lines = draws.draw(6).saturating_add(1);
    let text = script(alloc, draws, j, lines)?;
    session.put(name.as_str(), text.as_str())
}

fn edit<P: Program>(
    alloc: Global,
    draws: &mut Draws,
    session: &mut Session<P>,
) -> Result<(), NoMemory> {
    let a = draws.draw(SOURCES);
    let j = draws.draw(SCRIPTS);
    match draws.draw(5) {
        0 | 1 => put_source(alloc, draws, session, a),
        2 => put_script(alloc, draws, session, j),
        3 => remove_source(alloc, session, a),
        _ => Ok(()),
    }
}

fn fill<P: Program>(
    alloc: Global,
    draws: &mut Draws,
    session: &mut Session<P>,
) -> Result<(), NoMemory> {
    'sources: for a in 0..SOURCES {
        put_source(alloc, draws, session, a)?;
    }
    'scripts: for j in 0..SCRIPTS {
        put_script(alloc, draws, session, j)?;
    }
    session.put(
        "/Rikerfile",
        "for g in g*.sh; do sh $g || echo $g failed; done; cat s* o* > all; cat log 2>&1\n",
    )
}

/// The session of a seed: a first build, and so many edits with a build after each.
pub fn made<P: Program>(
    alloc: Global,
    program: P,
    seed: u64,
    edits: u64,
) -> Result<Session<P>, NoMemory> {
    let mut draws = Draws::new(seed);
    let mut session = Session::new(alloc, program)?;
    fill(alloc, &mut draws, &mut session)?;
    session.compare()?;
    'edits: for _ in 0..edits {
        edit(alloc, &mut draws, &mut session)?;
        session.compare()?;
    }
    Ok(session)
}
