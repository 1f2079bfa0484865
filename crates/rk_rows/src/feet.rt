// Feet of calls, in words.
use rk_base::NoMemory;
use rk_kernel::{Cell, CellList, Foot};
use rk_steps::push_shown;
use rk_tree::NodeId;
use std::alloc::Global;

// A name in a directory.
fn push_entry(alloc: Global, out: &mut String, dir: NodeId, name: &[u8]) -> Result<(), NoMemory> {
    let start = format!(in alloc; "entry {} ", dir.number())?;
    out.push_str(start.as_str())?;
    push_shown(alloc, out, name)
}

fn push_numbered(
    alloc: Global,
    out: &mut String,
    word: &str,
    number: usize,
) -> Result<(), NoMemory> {
    let text = format!(in alloc; "{word} {number}")?;
    out.push_str(text.as_str())?;
    Ok(())
}

fn push_cell(alloc: Global, out: &mut String, cell: &Cell) -> Result<(), NoMemory> {
    match cell {
        Cell::Entry(dir, name) => push_entry(alloc, out, *dir, name.as_slice()),
        Cell::Names(dir) => push_numbered(alloc, out, "names", dir.number()),
        Cell::Above(dir) => push_numbered(alloc, out, "above", dir.number()),
        Cell::Mode(node) => push_numbered(alloc, out, "mode", node.number()),
        Cell::Bytes(file) => push_numbered(alloc, out, "bytes", file.number()),
        Cell::Opened(description) => push_numbered(alloc, out, "open", *description),
        Cell::Pipe(pipe) => push_numbered(alloc, out, "pipe", *pipe),
        Cell::Output => Ok(out.push_str("output")?),
        Cell::ErrorText => Ok(out.push_str("error text")?),
    }
}

// Cells in their order, or `-` where there are none.
fn push_cells(alloc: Global, out: &mut String, cells: &CellList) -> Result<(), NoMemory> {
    let mut first = true;
    'cells: for cell in cells.as_slice() {
        out.push_str(if first { "" } else { ", " })?;
        push_cell(alloc, out, cell)?;
        first = false;
    }
    out.push_str(if first { "-" } else { "" })?;
    Ok(())
}

/// What a call reads, and what it writes.
pub(crate) fn foot_shown(alloc: Global, foot: &Foot) -> Result<String, NoMemory> {
    let mut out = String::new(alloc);
    out.push_str("reads ")?;
    push_cells(alloc, &mut out, &foot.reads)?;
    out.push_str("; writes ")?;
    push_cells(alloc, &mut out, &foot.writes)?;
    Ok(out)
}
