// What was read of the words of a utility.
ghost use Rattle.std.specs.Prelude.{◌≡◌};
ghost use Rattle.ut_args.specs.declared.args.UsageOr.TheVariants as usage;

use crate::opts::OptList;
use rk_base::{Bytes, NoMemory, WordList};
use std::marker::Model;

/// The options in the order in which they were given, and the operands.
#[derive(Debug, Drop)]
pub struct Args {
    pub given: OptList,
    pub operands: WordList,
}

impl Model for Args {
    ghost use Rattle.std.specs.Prelude.{List};
    ghost use Rattle.rk_base.specs.Text.{Text};
    ghost use Rattle.ut_args.specs.Opts.{ArgsValue};

    ghost Value = { ArgsValue };

    ghost view = { λ a. record { given = a.given; operands = a.operands } };
}

/// The first option that is at fault, or want of memory.
#[derive(Debug, Drop)]
pub enum UsageOr {
    /// `-` and the option's letter.
    Usage(Bytes),
    NoMemory,
}

impl From<NoMemory> for UsageOr {
    ghost from_gives = { λ _ e. e ≡ usage.NoMemory };

    fn from(_: NoMemory) -> UsageOr {
        UsageOr::NoMemory
    }
}
