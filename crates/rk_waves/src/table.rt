// What earlier pieces did, by cells and by commands.
ghost use Rattle.std.specs.Prelude.{◌≡◌, [], Bool, IfOk, List, OnOk, length, map, replicate, slice_get, slice_set, ℕ};
ghost use Rattle.rk_waves.specs.Pieces.{Placed, wave_of, with_piece};
ghost use Rattle.rk_waves.specs.Table.{after_reads, after_write, after_writes, least};
ghost use Rattle.rk_waves.specs.Table.{all_changed, changed, noted, with_read, with_written};
ghost use Rattle.rk_waves.specs.Table.{fresh_cell, gathers_in, number_in, read_in, written_in};
ghost use Rattle.rk_waves.specs.Tells.{HasRoom, Tells, gathers_by};

use crate::Piece;
use crate::greatest::{CellWaves, Greatest};
use rk_base::NoMemory;
use std::alloc::Global;
use std::marker::Model;

// What pieces did that read a cell.
fn read_at(cells: &[CellWaves], cell: usize) -> Greatest
    ensures value { result ≡ read_in (slice_get cells.now cell) }
{
    match cells.get(cell) {
        None => Greatest::none(),
        Some(it) => it.read,
    }
}

// What pieces did that wrote a cell.
fn written_at(cells: &[CellWaves], cell: usize) -> Greatest
    ensures value { result ≡ written_in (slice_get cells.now cell) }
{
    match cells.get(cell) {
        None => Greatest::none(),
        Some(it) => it.written,
    }
}

fn gathers_at(cells: &[CellWaves], cell: usize) -> bool
    ensures value { result ≡ gathers_in (slice_get cells.now cell) }
{
    match cells.get(cell) {
        None => false,
        Some(it) => it.gathers,
    }
}

// The least wave for a piece of this command that writes a cell.
fn after_write(cells: &[CellWaves], owner: usize, cell: usize) -> usize
    ensures value { result ≡ after_write (slice_get cells.now cell) owner }
{
    let read = read_at(cells, cell).but(owner);
    let written = if gathers_at(cells, cell) {
        0
    } else {
        written_at(cells, cell).but(owner)
    };
    read.max(written)
}

// The least wave for a piece of this command that reads these cells.
fn after_reads(cells: &[CellWaves], owner: usize, reads: &[usize]) -> usize
    ensures value { result ≡ after_reads cells.now owner reads.now }
{
    let mut after = 0;
    'cells: for c in reads {
        after = after.max(written_at(cells, *c).but(owner));
    }
    after
}

// The least wave for a piece of this command that writes these cells.
fn after_writes(cells: &[CellWaves], owner: usize, writes: &[usize]) -> usize
    ensures value { result ≡ after_writes cells.now owner writes.now }
{
    let mut after = 0;
    'cells: for c in writes {
        after = after.max(after_write(cells, owner, *c));
    }
    after
}

// The wave of a command's last piece.
fn wave_of(commands: &[usize], owner: usize) -> usize
    ensures value { result ≡ number_in (slice_get commands.now owner) }
{
    match commands.get(owner) {
        None => 0,
        Some(wave) => *wave,
    }
}

// The least wave of a piece.
fn least(cells: &[CellWaves], commands: &[usize], piece: &Piece) -> usize
    ensures value { result ≡ least (record { cells = cells.now; commands = commands.now }) piece.now }
{
    let own = wave_of(commands, piece.owner);
    let after_read = after_reads(cells, piece.owner, &piece.reads);
    let after_write = after_writes(cells, piece.owner, &piece.writes);
    let from: usize = 1;
    from.max(own).max(after_read.max(after_write))
}

fn note_read(cells: &mut Vec<CellWaves>, owner: usize, after: usize, cell: usize)
    ensures value { cells.new.items ≡ changed (with_read owner after) cells.old.items cell }
{
    match cells.get_mut(cell) {
        None => {}
        Some(it) => it.read = it.read.with(owner, after),
    }
}

fn note_written(cells: &mut Vec<CellWaves>, owner: usize, after: usize, cell: usize)
    ensures value { cells.new.items ≡ changed (with_written owner after) cells.old.items cell }
{
    match cells.get_mut(cell) {
        None => {}
        Some(it) => it.written = it.written.with(owner, after),
    }
}

fn note_reads(cells: &mut Vec<CellWaves>, owner: usize, after: usize, reads: &[usize])
    ensures value { cells.new.items ≡ all_changed (with_read owner after) cells.old.items reads.now }
{
    'cells: for c in reads {
        note_read(cells, owner, after, *c);
    }
}

fn note_writes(cells: &mut Vec<CellWaves>, owner: usize, after: usize, writes: &[usize])
    ensures value { cells.new.items ≡ all_changed (with_written owner after) cells.old.items writes.now }
{
    'cells: for c in writes {
        note_written(cells, owner, after, *c);
    }
}

fn note_wave(commands: &mut Vec<usize>, owner: usize, wave: usize)
    ensures value { commands.new.items ≡ slice_set commands.old.items owner wave }
{
    if let Some(slot) = commands.get_mut(owner) {
        *slot = wave;
    }
}

fn fresh_cells(alloc: Global, gathers: &[bool]) -> Result<Vec<CellWaves>, NoMemory>
    ensures value { IfOk result (λ cells. cells.items ≡ map fresh_cell gathers.now) }
{
    let mut cells = Vec::new(alloc);
    'cells: for it in gathers {
        cells.push(CellWaves::new(*it))?;
    }
    Ok(cells)
}

/// What earlier pieces did, by cells and by commands: of each cell the two greatest waves of pieces of different commands
/// that read it, and that wrote it, and of each command the wave of its last piece.
#[derive(Drop)]
pub struct Table {
    cells: Vec<CellWaves>,
    commands: Vec<usize>,
}

impl Model for Table {
    ghost use Rattle.rk_waves.specs.Table.{Table};

    ghost Value = { Table };

    ghost view = { λ t. record { cells = t.cells.items; commands = t.commands.items } };
}

impl Table {
    /// The table of no pieces, with room for so many commands. Of each cell it is told whether it only gathers what other
    /// cells hold, so that two writes of it are no conflict.
    pub fn new(alloc: Global, gathers: &[bool], commands: usize) -> Result<Table, NoMemory>
        ensures value { IfOk result (λ t. t ≡ record { cells = map fresh_cell gathers.now; commands = replicate commands 0 }) }
        ensures cells { IfOk result (λ t. length t.cells ≡ length gathers.now) }
        ensures commands { IfOk result (λ t. length t.commands ≡ commands) }
        ensures tells { IfOk result (Tells (gathers_by gathers.now) []) }
    {
        let cells = fresh_cells(alloc, gathers)?;
        let commands = vec![in alloc; 0usize; commands]?;
        Ok(Table { cells, commands })
    }

    /// The least wave of a piece after those that the table tells, which it tells from then on. No count of pieces that
    /// fits memory comes to a wave that doesn't fit; one would be `NoMemory`.
    pub fn place(&mut self, piece: &Piece) -> Result<usize, NoMemory>
        ensures value { IfOk result (λ wave. wave ≡ least self.old piece.now) }
        ensures noted { OnOk result (self.new ≡ noted self.old piece.now (least self.old piece.now)) }
        ensures wave { (gathers : ℕ → Bool) (earlier : List Placed) → HasRoom gathers earlier self.old piece.now
            → IfOk result (λ wave. wave ≡ wave_of gathers earlier piece.now) }
        ensures tells { (gathers : ℕ → Bool) (earlier : List Placed) → HasRoom gathers earlier self.old piece.now
            → OnOk result (Tells gathers (with_piece gathers earlier piece.now) self.new) }
        ensures same_size { (length self.new.cells ≡ length self.old.cells) × (length self.new.commands ≡ length self.old.commands) }
    {
        let wave = least(&self.cells, &self.commands, piece);
        let Some(after) = wave.checked_add(1) else {
            return Err(NoMemory);
        };
        note_reads(&mut self.cells, piece.owner, after, &piece.reads);
        note_writes(&mut self.cells, piece.owner, after, &piece.writes);
        note_wave(&mut self.commands, piece.owner, wave);
        Ok(wave)
    }
}
