// The calls of an install, in their order.
ghost use Rattle.std.specs.Prelude.{◌≡◌, Some, None, true, if◌then◌else◌};
ghost use Rattle.std.specs.List.{list_all};
ghost use Rattle.std.specs.Ordering.{is_lt};
ghost use Rattle.rk_base.specs.Text.{text_cmp, is_within};
ghost use Rattle.rk_seal.specs.Ops.{hidden_dir, path_of, remove_group, make_group, write_group, group, is_call, is_before, follow, are_calls};

use rk_base::{Bytes, Path};
use std::marker::Model;

/// A call that changes a folder.
#[derive(Debug, Drop)]
pub enum Op {
    RemoveFile(Path),
    RemoveDir(Path),
    MakeDir(Path),
    /// A whole file, made where nothing stands.
    Write(Path, Bytes),
}

/// The calls of an install, at least one, in the order in which a plan has them: removals, descending by path;
/// directories made, ascending; files written, ascending; the directory `.rkr` made; its file `attrs` written or
/// removed; its file `db` written. No other file of `.rkr` is among them.
#[derive(Debug, Drop)]
pub struct InstallList {
    ops: Vec<Op>,
}

impl Model for InstallList {
    ghost use Rattle.std.specs.Prelude.{◌≡◌, List, true};
    ghost use Rattle.rk_seal.specs.declared.ops.Op.{Op};
    ghost use Rattle.rk_seal.specs.Ops.{are_calls};

    ghost Value = { List Op };

    ghost view = { λ l. l.ops.items };

    ghost invariant = { λ l. are_calls l.ops.items ≡ true };
}

// Where a write stands in a plan.
#[tactic(auto, unfolding(rk_base::specs::Text::join))]
fn write_group(path: &[u8]) -> u8
    ensures { result ≡ write_group path.now }
{
    if path == b"/.rkr/attrs".as_slice() {
        return 4;
    }
    if path == b"/.rkr/db".as_slice() {
        return 5;
    }
    2
}

// Where a removal of a file stands in a plan.
#[tactic(auto, unfolding(rk_base::specs::Text::join))]
fn remove_group(path: &[u8]) -> u8
    ensures { result ≡ remove_group path.now }
{
    if path == b"/.rkr/attrs".as_slice() {
        4
    } else {
        0
    }
}

// Where the making of a directory stands in a plan.
#[tactic(auto, unfolding(rk_base::specs::Text::join))]
fn make_group(path: &[u8]) -> u8
    ensures { result ≡ make_group path.now }
{
    if path == b"/.rkr".as_slice() { 3 } else { 1 }
}

// Where a call stands in a plan.
fn group(op: &Op) -> u8
    ensures { result ≡ group op.now }
{
    match op {
        Op::RemoveFile(path) => remove_group(path.text()),
        Op::RemoveDir(_) => 0,
        Op::MakeDir(path) => make_group(path.text()),
        Op::Write(path, _) => write_group(path.text()),
    }
}

// Whether a path is the hidden directory's or stands below it.
#[tactic(auto, unfolding(rk_base::specs::Text::is_within, rk_base::specs::Text::join))]
fn is_hidden(path: &[u8]) -> bool
    ensures { result ≡ is_within hidden_dir path.now }
{
    path == b"/.rkr".as_slice() || path.starts_with(b"/.rkr/")
}

// Whether a plan may have this call.
fn is_call(op: &Op) -> bool
    ensures { result ≡ is_call op.now }
{
    let text = op.path().text();
    !op.path().is_root() && (!is_hidden(text) || group(op) > 2)
}

fn all_calls(ops: &[Op]) -> bool
    ensures { result ≡ list_all is_call ops.now }
{
    ops.iter().all(|op| is_call(op))
}

fn is_below(a: &Path, b: &Path) -> bool
    ensures { result ≡ is_lt (text_cmp a.now b.now) }
{
    a < b
}

// Whether one call comes before another in a plan.
fn is_before(a: &Op, b: &Op) -> bool
    ensures { result ≡ is_before a.now b.now }
{
    let (first, second) = (group(a), group(b));
    if first != second {
        return first < second;
    }
    if first == 0 {
        return is_below(b.path(), a.path());
    }
    is_below(a.path(), b.path())
}

// Whether each call comes after the one before it.
fn follow(first: &Op, ops: &[Op]) -> bool
    ensures { result ≡ follow first.now ops.now }
{
    let mut last = first;
    'ops: for op in ops {
        if !is_before(last, op) {
            return false;
        }
        last = op;
    }
    true
}

#[tactic(auto, unfolding(crate::specs::Ops::are_calls))]
fn are_calls(ops: &[Op]) -> bool
    ensures { result ≡ are_calls ops.now }
{
    match ops {
        [] => false,
        [first, rest @ ..] => all_calls(ops) && follow(first, rest),
    }
}

impl Op {
    /// The path at which it changes what stands.
    pub fn path(&self) -> &Path
        ensures { result.now ≡ path_of self.now }
    {
        match self {
            Op::RemoveFile(path) => path,
            Op::RemoveDir(path) => path,
            Op::MakeDir(path) => path,
            Op::Write(path, _) => path,
        }
    }
}

impl InstallList {
    /// The list of these calls; `None` exactly where there are none, or they aren't a plan's in its order.
    pub fn from_vec(ops: Vec<Op>) -> Option<InstallList>
        ensures { result ≡ (if are_calls ops.items then Some ops.items else None) }
    {
        if are_calls(&ops) {
            Some(InstallList { ops })
        } else {
            None
        }
    }

    /// The calls, in their order.
    pub fn as_slice(&self) -> &[Op]
        ensures value { result.now ≡ self.now }
        ensures calls { are_calls self.now ≡ true }
    {
        self.ops.as_slice()
    }
}
