// Where a builtin stands.
use crate::marks::Marks;
use crate::name::Name;
use rk_base::{Bytes, WordList};
use rk_calls::Turn;
use sh_operands::{Format, Primary};

/// What a builtin waits for, or does next.
#[derive(Drop)]
pub enum Stage {
    /// Its output is being written; it has this status then.
    Writing(Name, u8),
    /// This directory is looked up.
    Walking(Bytes),
    /// A line is read, as `-r` has it or not, for these variables, behind these bytes.
    Reading(bool, WordList, Marks),
    /// These operands that are no numbers are told, from a place on; what the pieces of a format make of operands, and the
    /// status, come after them.
    Printing(WordList, usize, Format, WordList, u8),
    /// What the pieces of a format make of operands is paid for, and is made and written; it has this status then.
    Paid(Format, WordList, u8),
    /// What stands at a path is looked up, which decides by this primary, or the opposite.
    Judging(Primary, bool),
    /// It has this status, whatever is answered.
    Over(u8),
}

/// A turn, and the stage after it.
#[derive(Drop)]
pub struct Move {
    pub turn: Turn,
    pub stage: Stage,
}

/// Where a builtin stands: before its first turn, with its words, its name first, or behind one.
#[derive(Drop)]
pub enum Progress {
    Begins(WordList),
    Stands(Stage),
}
