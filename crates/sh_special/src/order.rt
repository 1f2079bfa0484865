// What a special builtin is told to do.
ghost use Rattle.std.specs.Prelude.{◌≡◌};
ghost use Rattle.sh_special.specs.Orders.{keeps_order, exports_order};

use crate::{DeclarationList, Options};
use rk_base::{Bytes, WordList};

/// What a special builtin is told to do by its words.
#[derive(Debug, Drop)]
pub enum Order {
    /// `:` does nothing.
    Pass,
    /// So many loops are left, counted from the innermost.
    Break(u64),
    /// So many loops out, counted from the innermost, it goes on.
    Continue(u64),
    /// With a status, where one is given.
    Return(Option<u8>),
    Exit(Option<u8>),
    /// This text is evaluated.
    Eval(Bytes),
    /// This file is.
    Dot(Bytes),
    /// The command with these words takes the place of the shell.
    Exec(WordList),
    /// `exec` without a command: its redirections stay.
    Keep,
    /// Options, and positional parameters where operands or `--` stand.
    Set(Options, Option<WordList>),
    /// These variables are readonly from now on, or else exported.
    Declare(bool, DeclarationList),
    Unset(WordList),
    /// So many positional parameters go.
    Shift(u64),
    /// The line of a usage fault.
    Usage(Bytes),
}

impl Order {
    /// Whether the redirections of the command stay, as those of `exec` without a command do.
    pub fn keeps(&self) -> bool
        ensures { result ≡ keeps_order self.now }
    {
        match self {
            Order::Keep => true,
            Order::Pass => false,
            Order::Break(_) => false,
            Order::Continue(_) => false,
            Order::Return(_) => false,
            Order::Exit(_) => false,
            Order::Eval(_) => false,
            Order::Dot(_) => false,
            Order::Exec(_) => false,
            Order::Set(_, _) => false,
            Order::Declare(_, _) => false,
            Order::Unset(_) => false,
            Order::Shift(_) => false,
            Order::Usage(_) => false,
        }
    }

    /// Whether assignments before it are exported, as those before `exec` of a command are (XCU exec).
    pub fn exports(&self) -> bool
        ensures { result ≡ exports_order self.now }
    {
        matches!(self, Order::Exec(_))
    }
}
