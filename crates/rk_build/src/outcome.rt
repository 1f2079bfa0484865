// How a call of `rkr` ends.
use rk_base::Path;
use tr_parts::Damage;

/// A file in `.rkr` that is read: by a build attrs and the database, and before it a sealed list of calls that is finished.
#[derive(Clone, Copy, Debug, PartialEq, Eq)]
pub enum StateFile {
    Attrs,
    Db,
    Install,
}

/// How a call of `rkr` ends.
#[derive(Debug, Drop)]
pub enum Outcome {
    /// The build ran: the script's status, how many commands were launched, and how many of them ran.
    Ended { status: u8, launched: u64, ran: u64 },
    /// What was asked of the database alone is done: 0; or there is none: 1.
    Said(u8),
    /// The words are no request.
    Usage,
    /// The first path, in listing order, at which neither a file nor a directory stands where one has to.
    Special(Path),
    /// The first state file, of a sealed list of calls, attrs and then the database, that is damaged, and how.
    Damaged(StateFile, Damage),
    /// This record of the database, from 0 on, isn't what its command says, and this is its first step, from 1 on,
    /// that the command doesn't take; one past the last is the exit.
    Forged { rec: u64, step: u64 },
    /// The script's run doesn't end within the budget of turns.
    Spent,
    /// A list or a read of the folder failed.
    ReadFault,
    /// Another call of the folder, or a put, failed.
    WriteFault,
    NoMemory,
}
