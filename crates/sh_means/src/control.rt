// What the machine has still to do.
ghost use Rattle.std.specs.Prelude.{◌≡◌};
ghost use Rattle.sh_means.specs.Simple.{refusal_flow, is_plain, exports, keeps};
ghost use Rattle.sh_means.specs.Stack.{kind_of_code};

use crate::flow::{Flow, Place};
use crate::resolved_command::ResolvedCommand;
use crate::state::{Callee, SavedState};
use rk_base::{Bytes, WordList};
use rk_calls::Turn;
use sh_ast::{
    Assignments, Branches, CaseItems, CommandList, Compound, Connectors, LoopKind, Redirects,
    SimpleCommand, Word, Words,
};
use sh_builtin::Builtin;
use sh_expand::{Expanded, Expander};
use sh_redirect::{DescriptorTable, Redirect, Redirecting};
use sh_special::Order;
use sh_vars::Saved;
use std::rc::Rc;

/// What a simple command is, by its fields.
#[derive(Drop)]
pub enum CommandKind {
    Bare,
    Special(Order),
    Calls(Callee),
    Builtin,
    Launches,
}

impl CommandKind {
    /// What a refused redirection ends.
    pub fn refusal_flow(&self) -> Flow
        ensures { result ≡ refusal_flow (kind_of_code self.now) }
    {
        match self {
            CommandKind::Bare => Flow::Normal,
            CommandKind::Special(_) => Flow::Exits,
            CommandKind::Calls(_) => Flow::Normal,
            CommandKind::Builtin => Flow::Normal,
            CommandKind::Launches => Flow::Normal,
        }
    }

    /// Whether assignments hold for its time alone.
    pub fn is_plain(&self) -> bool
        ensures { result ≡ is_plain (kind_of_code self.now) }
    {
        match self {
            CommandKind::Bare => false,
            CommandKind::Special(_) => false,
            CommandKind::Calls(_) => true,
            CommandKind::Builtin => true,
            CommandKind::Launches => true,
        }
    }

    /// Whether assignments are exported.
    pub fn exports(&self) -> bool
        ensures { result ≡ exports (kind_of_code self.now) }
    {
        match self {
            CommandKind::Bare => false,
            CommandKind::Special(order) => order.exports(),
            CommandKind::Calls(_) => true,
            CommandKind::Builtin => true,
            CommandKind::Launches => true,
        }
    }

    /// Whether its redirections stay.
    pub fn keeps(&self) -> bool
        ensures { result ≡ keeps (kind_of_code self.now) }
    {
        match self {
            CommandKind::Bare => false,
            CommandKind::Special(order) => order.keeps(),
            CommandKind::Calls(_) => false,
            CommandKind::Builtin => false,
            CommandKind::Launches => false,
        }
    }
}

/// What words are expanded for.
#[derive(Drop)]
pub enum Then {
    Simple(Rc<SimpleCommand>),
    For(Bytes, Rc<CommandList>),
}

/// Words from a place on, and the fields of those before.
#[derive(Drop)]
pub struct PendingFields {
    pub words: Rc<Words>,
    pub at: usize,
    pub fields: WordList,
    pub then: Then,
}

/// What redirections are made for.
#[derive(Drop)]
pub enum Made {
    Simple(Rc<Assignments>, Box<ResolvedCommand>),
    Compound(Rc<Compound>),
}

/// Redirections from a place on, and the map before all of them.
#[derive(Drop)]
pub struct PendingRedirects {
    pub redirects: Rc<Redirects>,
    pub at: usize,
    pub before: Rc<DescriptorTable>,
    pub made: Made,
}

/// Assignments from a place on.
#[derive(Drop)]
pub struct PendingAssignments {
    pub assignments: Rc<Assignments>,
    pub at: usize,
    pub exported: bool,
    pub resolved: Box<ResolvedCommand>,
}

/// A `case` at a pattern of an item.
#[derive(Drop)]
pub struct PendingCase {
    pub items: Rc<CaseItems>,
    pub at: usize,
    pub pattern: usize,
    pub value: Bytes,
}

/// A redirection whose operand is expanded, before those that are left.
#[derive(Drop)]
pub struct PendingOperand {
    pub left: PendingRedirects,
    pub descriptor: u8,
    pub kind: Redirect,
}

/// An assignment whose value is expanded, before those that are left.
#[derive(Drop)]
pub struct PendingValue {
    pub left: PendingAssignments,
    pub name: Bytes,
}

/// What a word is expanded for. What goes on after the word is at the place behind it.
#[derive(Drop)]
pub enum Aim {
    Fields(PendingFields),
    Operand(PendingOperand),
    Value(PendingValue),
    Subject(Rc<CaseItems>),
    Pattern(PendingCase),
}

/// A word half expanded.
#[derive(Drop)]
pub struct PendingWord {
    pub expander: Expander,
    pub word: Rc<Word>,
    pub place: Place,
    pub aim: Aim,
}

/// A `for` at one of its fields.
#[derive(Drop)]
pub struct Each {
    pub name: Bytes,
    pub fields: WordList,
    pub at: usize,
    pub body: Rc<CommandList>,
}

/// A `while` or an `until`.
#[derive(Drop)]
pub struct Loop {
    pub kind: LoopKind,
    pub condition: Rc<CommandList>,
    pub body: Rc<CommandList>,
}

/// The branches of an `if` from a place on, and its last list.
#[derive(Drop)]
pub struct PendingIf {
    pub branches: Rc<Branches>,
    pub at: usize,
    pub otherwise: Rc<CommandList>,
}

/// The pipelines of an AND-OR list behind this place, by the connectors from there on.
#[derive(Drop)]
pub struct PendingLinks {
    pub pipelines: Rc<CommandList>,
    pub at: usize,
    pub connectors: Rc<Connectors>,
}

/// A stage of a pipeline at a place, before the next one; it reads from `input`, and the pipe behind it has this read end.
#[derive(Drop)]
pub struct PendingStage {
    pub list: Rc<CommandList>,
    pub at: usize,
    pub next: usize,
    pub input: Option<u64>,
    pub read_end: u64,
}

/// What was begun and has had its turn.
#[derive(Drop)]
pub enum Wait {
    /// A line of error text is written; then it ends so.
    Told(Flow, u8),
    /// A command is launched; then it ends so.
    Launched(Flow),
    /// The pipe behind a stage is made.
    Stage(Place, PendingStage),
    /// A dot script is opened, and has this number then.
    Opened(Place, Bytes, u64),
    /// It is read.
    Read(Place, Bytes),
    /// A redirection is made.
    Redirects(Place, PendingRedirects, Box<Redirecting>),
    /// An expansion fault is told: a parameter and a message.
    Fails(Bytes, Bytes),
    /// A builtin runs.
    Builtin(Box<Builtin>),
}

/// A part of a compound command that comes next.
#[derive(Drop)]
pub enum CompoundStep {
    Compound(Place, Rc<Compound>),
    /// The body of a function that was called.
    Called(Place, Callee),
    If(Place, PendingIf),
    /// A round of a loop whose body last had this status.
    Round(Place, u8, Loop),
    Each(Place, Each),
    /// The variable of a `for` takes the field, which was paid for.
    Gives(Place, Each),
    Case(Place, PendingCase),
    /// The stages of a pipeline from a place on, the first of which reads from this number.
    Stages(Place, Rc<CommandList>, usize, Option<u64>),
}

/// What comes next of words, of a simple or a compound command: their expansion, then redirections, then assignments.
#[derive(Drop)]
pub enum WordStep {
    Words(Place, PendingFields),
    Expand(Box<PendingWord>),
    /// What a word gave.
    Deliver(Box<PendingWord>, Expanded),
    Make(Place, PendingRedirects),
    Assign(Place, PendingAssignments),
    /// A text under its name.
    Text(Place, Bytes, Bytes),
}

/// How the shell of a key begins, before its script is evaluated.
#[derive(Drop)]
pub enum Begin {
    /// The line of a fault of usage.
    Misused(Bytes),
    /// A script.
    Script(Bytes),
    /// A first word with a slash, which names a script.
    Command(Bytes),
    /// It is looked up.
    Looked(Bytes),
    /// A script is opened, and has this number then.
    Opened(Bytes, u64),
    /// It is read.
    Read(Bytes),
}

/// What comes next.
#[derive(Drop)]
pub enum Control {
    Begins(Begin),
    /// Commands from a place on.
    Run(Place, Rc<CommandList>, usize),
    /// A whole list.
    Whole(Place, Rc<CommandList>),
    /// One of the commands.
    One(Place, Rc<CommandList>, usize),
    CompoundStep(CompoundStep),
    WordStep(WordStep),
    Waits(Wait),
    Leave(Flow),
}

/// What is left to do after a command, to its list or pipeline.
#[derive(Drop)]
pub enum Continuation {
    Rest(Place, Rc<CommandList>, usize),
    Links(Place, PendingLinks),
    /// After a stage, whose pipe has this read end; the status is the one before the pipeline.
    Stage(Place, Rc<CommandList>, usize, u64, u8, Box<SavedState>),
    Watch(Place),
    Invert,
    Condition(Place, u8, Loop),
    Body(Place, Loop),
    Each(Place, Each),
    /// After the condition of a branch: its body, and the branches behind it.
    Choose(Place, Rc<CommandList>, PendingIf),
}

/// What is undone after a command.
#[derive(Drop)]
pub enum Undo {
    Redirected(Rc<Redirects>, Rc<DescriptorTable>),
    Assigned(Rc<Assignments>, Saved),
    Function(WordList),
    Script,
    Subshell(Box<SavedState>),
    Substitution(Box<PendingWord>, Box<SavedState>),
}

/// What the control stack has: what is around a command, or what is undone behind it.
#[derive(Drop)]
pub enum Frame {
    Continuation(Continuation),
    Undo(Undo),
}

// A call of a function puts three of them on the stack, and so does a subshell.
const _: () = prove!(size_of::<Frame>() <= 80);

/// A turn, which may cost nothing, and what comes after it.
#[derive(Drop)]
pub struct Acted {
    pub turn: Turn,
    pub control: Control,
}
