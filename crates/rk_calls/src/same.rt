// Calls and answers compared.
ghost use Rattle.std.specs.Prelude.{◌≡◌, ◌↔◌, IsTrue};

use crate::{Answer, Call, How};
use rk_base::{Errno, FileType};

fn same_how(a: How, b: How) -> bool
    ensures { IsTrue result ↔ (a ≡ b) }
{
    match (a, b) {
        (How::Read, How::Read) => true,
        (How::Make, How::Make) => true,
        (How::Append, How::Append) => true,
        _ => false,
    }
}

fn same_flag(a: bool, b: bool) -> bool
    ensures { IsTrue result ↔ (a ≡ b) }
{
    a == b
}

/// Whether both are one call.
pub fn same_call(a: &Call, b: &Call) -> bool
    ensures { IsTrue result ↔ (a.now ≡ b.now) }
{
    match (a, b) {
        (Call::Open(p, h), Call::Open(q, k)) => p.same(q) && same_how(*h, *k),
        (Call::Read(r), Call::Read(s)) => *r == *s,
        (Call::ReadLine(r), Call::ReadLine(s)) => *r == *s,
        (Call::Write(r, p), Call::Write(s, q)) => *r == *s && p.same(q),
        (Call::Stat(p, f), Call::Stat(q, g)) => p.same(q) && same_flag(*f, *g),
        (Call::List(p), Call::List(q)) => p.same(q),
        (Call::ReadLink(p), Call::ReadLink(q)) => p.same(q),
        (Call::Walk(p), Call::Walk(q)) => p.same(q),
        (Call::Same(p, o), Call::Same(q, t)) => p.same(q) && o.same(t),
        (Call::Mkdir(p, m), Call::Mkdir(q, n)) => p.same(q) && *m == *n,
        (Call::Rmdir(p), Call::Rmdir(q)) => p.same(q),
        (Call::Unlink(p), Call::Unlink(q)) => p.same(q),
        (Call::Rename(p, o), Call::Rename(q, t)) => p.same(q) && o.same(t),
        (Call::Symlink(p, o), Call::Symlink(q, t)) => p.same(q) && o.same(t),
        (Call::Link(p, o), Call::Link(q, t)) => p.same(q) && o.same(t),
        (Call::Chmod(p, m), Call::Chmod(q, n)) => p.same(q) && *m == *n,
        (Call::Pipe, Call::Pipe) => true,
        (Call::Launch(p, m), Call::Launch(q, n)) => p.same(q) && m.same(n),
        _ => false,
    }
}

fn same_errno(a: Errno, b: Errno) -> bool
    ensures { IsTrue result ↔ (a ≡ b) }
{
    a == b
}

fn same_kind(a: FileType, b: FileType) -> bool
    ensures { IsTrue result ↔ (a ≡ b) }
{
    match (a, b) {
        (FileType::File, FileType::File) => true,
        (FileType::Dir, FileType::Dir) => true,
        (FileType::Link, FileType::Link) => true,
        _ => false,
    }
}

/// Whether both are one answer.
pub fn same_answer(a: &Answer, b: &Answer) -> bool
    ensures { IsTrue result ↔ (a.now ≡ b.now) }
{
    match (a, b) {
        (Answer::Go, Answer::Go) => true,
        (Answer::Done, Answer::Done) => true,
        (Answer::Opened, Answer::Opened) => true,
        (Answer::Piped, Answer::Piped) => true,
        (Answer::Content(p), Answer::Content(q)) => p.same(q),
        (
            Answer::Stat { kind, mode, empty },
            Answer::Stat {
                kind: other_kind,
                mode: other_mode,
                empty: other_empty,
            },
        ) => {
            same_kind(*kind, *other_kind) && *mode == *other_mode && same_flag(*empty, *other_empty)
        }
        (Answer::Names(p), Answer::Names(q)) => p.same(q),
        (Answer::Text(p), Answer::Text(q)) => p.same(q),
        (Answer::Place(p), Answer::Place(q)) => p.same(q),
        (Answer::Same(p), Answer::Same(q)) => same_flag(*p, *q),
        (Answer::Joined(s), Answer::Joined(t)) => *s == *t,
        (Answer::No(e), Answer::No(f)) => same_errno(*e, *f),
        _ => false,
    }
}
