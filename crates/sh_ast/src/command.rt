// Commands.
use crate::word::Parts;
use rk_base::Bytes;
use std::rc::Rc;

/// A command (XCU 2.9).
#[cycle(command)]
#[derive(Drop)]
pub enum Command {
    /// A simple command (XCU 2.9.1).
    Simple(Rc<SimpleCommand>),
    /// A compound command (XCU 2.9.4) and its redirections.
    Compound(Rc<Compound>, Rc<Redirects>),
    /// The definition of a function (XCU 2.9.5): its name, and its body with the redirections of each call.
    Function(Bytes, Rc<Compound>, Rc<Redirects>),
    /// Two commands or more, each with its output in the next one's input, or one or more with `!` in front (XCU 2.9.2): whether `!` stands there, and the commands.
    Pipeline(bool, Rc<CommandList>),
    /// An AND-OR list of two pipelines or more (XCU 2.9.3), and the operators between them.
    AndOr(Rc<CommandList>, Rc<Connectors>),
}

/// Commands, one after another.
#[cycle(command)]
#[derive(Drop)]
pub struct CommandList {
    pub items: Vec<Command>,
}

/// An operator between pipelines.
#[derive(Clone, Copy, Debug)]
pub enum Connector {
    /// `&&`
    And,
    /// `||`
    Or,
}

/// The operators of an AND-OR list, one for each pipeline but the first.
#[derive(Drop)]
pub struct Connectors {
    pub items: Vec<Connector>,
}

/// A compound command (XCU 2.9.4).
#[cycle(command)]
#[derive(Drop)]
pub enum Compound {
    /// `{ }`
    Group(Rc<CommandList>),
    /// `( )`
    Subshell(Rc<CommandList>),
    /// `for`: the variable, the words behind `in` where it stands, and the body.
    For(Bytes, Option<Rc<Words>>, Rc<CommandList>),
    /// `case`: the word, and the items.
    Case(Rc<Word>, Rc<CaseItems>),
    /// `if`: the branches of `if` and of each `elif`, and what stands behind `else`, nothing where it doesn't stand.
    If(Rc<Branches>, Rc<CommandList>),
    /// `while` and `until`: the condition, and the body.
    Loop(LoopKind, Rc<CommandList>, Rc<CommandList>),
}

/// Which status of the condition lets a loop go on.
#[derive(Clone, Copy, Debug)]
pub enum LoopKind {
    /// `while`: zero.
    While,
    /// `until`: any other.
    Until,
}

/// The branches of an `if`, one at least.
#[cycle(command)]
#[derive(Drop)]
pub struct Branches {
    pub items: Vec<Branch>,
}

/// A condition, and what is done where it holds.
#[cycle(command)]
#[derive(Drop)]
pub struct Branch {
    pub condition: Rc<CommandList>,
    pub body: Rc<CommandList>,
}

/// The items of a `case`.
#[cycle(command)]
#[derive(Drop)]
pub struct CaseItems {
    pub items: Vec<CaseItem>,
}

/// Patterns, and what is done where one of them matches.
#[cycle(command)]
#[derive(Drop)]
pub struct CaseItem {
    pub patterns: Rc<Words>,
    pub body: Rc<CommandList>,
}

/// Words, one after another.
#[cycle(command)]
#[derive(Drop)]
pub struct Words {
    pub items: Vec<Rc<Word>>,
}

/// A word: its parts, and the bodies of its command substitutions, also of those within its parts, by their numbers.
#[cycle(command)]
#[derive(Drop)]
pub struct Word {
    pub parts: Rc<Parts>,
    pub bodies: Vec<Rc<CommandList>>,
}

/// A simple command (XCU 2.9.1): each of the three lists is in the order of the text.
#[cycle(command)]
#[derive(Drop)]
pub struct SimpleCommand {
    pub assignments: Rc<Assignments>,
    pub words: Rc<Words>,
    pub redirects: Rc<Redirects>,
}

/// Assignments, one after another.
#[cycle(command)]
#[derive(Drop)]
pub struct Assignments {
    pub items: Vec<Assignment>,
}

/// A variable, and the word for its value.
#[cycle(command)]
#[derive(Drop)]
pub struct Assignment {
    pub name: Bytes,
    pub value: Rc<Word>,
}

/// Redirections, one after another.
#[cycle(command)]
#[derive(Drop)]
pub struct Redirects {
    pub items: Vec<Redirect>,
}

/// A redirection (XCU 2.7): the descriptor (0 to 9), what becomes of it, and the operand, or the body of a here-document.
#[cycle(command)]
#[derive(Drop)]
pub struct Redirect {
    pub descriptor: u8,
    pub operator: RedirectOperator,
    pub operand: Rc<Word>,
}

/// What a redirection does with its descriptor.
#[derive(Clone, Copy, Debug)]
pub enum RedirectOperator {
    /// `<` (XCU 2.7.1)
    Input,
    /// `>` and `>|` (XCU 2.7.2)
    Output,
    /// `>>` (XCU 2.7.3)
    Append,
    /// `<&` and `>&` (XCU 2.7.5, 2.7.6)
    Duplicate,
    /// `<<` and `<<-` (XCU 2.7.4): the operand is the body. Of a literal body it is one quoted literal.
    HereDocument,
}
