// What happens to the words within words.
ghost use Rattle.std.specs.Prelude.{◌≡◌, ◌++◌, [], ℕ, IfOk, OnOk, Some, None, Bool, false};
ghost use Rattle.rk_base.specs.Text.{Text};
ghost use Rattle.sh_vars.specs.Held.{assigned, is_readonly};
ghost use Rattle.sh_split.specs.Marked.{given, text_of, pattern_of};
ghost use Rattle.sh_expand.specs.Values.{all_removed};
ghost use Rattle.sh_expand.specs.Expands.{Ended, Failed, put_by, shown};
ghost use Rattle.sh_expand.specs.Acting.{LeavesAs, left_on};

use crate::arithmetic::compute;
use crate::parameters::separator;
use crate::removal::all_removed;
use rk_base::{Bytes, NoMemory, WordList};
use sh_ast::{Parts, Removal};
use sh_split::{Field, Mark, pattern_of, put_all, put_given, text_of};
use sh_vars::{Env, VarErr};
use std::alloc::Global;
use std::mem;
use std::rc::Rc;

/// What happens when a word within a word ends.
#[derive(Drop)]
pub enum Then {
    /// Its marks stand where they are.
    Keep,
    /// The variable is set to it, quoted or not, after these marks.
    Assign(bool, Bytes, Field),
    /// It is the message of a fault of this parameter.
    Message(Bytes),
    /// It is the pattern whose match is taken away from these values, which stay apart or not and are quoted or not, after
    /// these marks.
    Remove(Removal, bool, bool, WordList, Field),
    /// It is an expression of arithmetic, whose value stands, quoted or not, after these marks.
    Compute(bool, Field),
}

/// What a part did.
#[derive(Drop)]
pub enum Acted {
    Put,
    /// This word comes, split or not, and then this.
    Enter(Rc<Parts>, bool, Then),
    /// The substitution of this number comes, quoted or not.
    Subst(bool, u64),
    /// A parameter and a message.
    Fault(Bytes, Bytes),
}

/// Takes out the marks so far.
pub(crate) fn take(marks: &mut Vec<Mark>) -> Field
    ensures taken { result ≡ marks.old.items }
    ensures left { marks.new.items ≡ [] }
{
    let alloc = *marks.allocator();
    Field::new(mem::replace(marks, Vec::new(alloc)))
}

fn set(env: &mut Env, name: &[u8], text: &[u8]) -> Result<(), NoMemory>
    requires { is_readonly env.old.vars name.now ≡ false }
    ensures { OnOk result (env.new ≡ record env.old { vars = assigned name.now text.now env.old.vars }) }
{
    match env.vars.set(name, text) {
        Ok(()) => Ok(()),
        Err(VarErr::NoMemory) => Err(NoMemory),
        Err(VarErr::Readonly) => unreachable!(),
    }
}

// A variable takes a text, which stands after these marks then; a fault where it is readonly.
fn assign(
    alloc: Global,
    quoted: bool,
    name: Bytes,
    text: &[u8],
    marks: &mut Vec<Mark>,
    env: &mut Env,
) -> Result<Option<(Bytes, Bytes)>, NoMemory>
    ensures { IfOk result (λ r. (k : Ended) (fail : Failed) (p : ℕ) → put_by (is_readonly env.old.vars name) name text.now (marks.old.items ++ given quoted text.now) k fail env.old p ≡ left_on r marks.new.items k fail env.new p) }
{
    if env.vars.is_readonly(name.as_slice()) {
        let message = Bytes::from_slice(alloc, b"readonly")?;
        return Ok(Some((name, message)));
    }
    put_given(quoted, text, marks)?;
    set(env, name.as_slice(), text)?;
    Ok(None)
}

/// What an ended word within a word does; a fault, where it is the message of one.
pub(crate) fn leave(
    alloc: Global,
    then: Then,
    marks: &mut Vec<Mark>,
    env: &mut Env,
) -> Result<Option<(Bytes, Bytes)>, NoMemory>
    ensures { IfOk result (LeavesAs then marks.old.items env.old marks.new.items env.new) }
{
    match then {
        Then::Keep => Ok(None),
        Then::Assign(quoted, name, outer) => {
            let text = text_of(alloc, marks.as_slice())?;
            *marks = outer.into_vec();
            assign(alloc, quoted, name, text.as_slice(), marks, env)
        }
        Then::Message(parameter) => {
            let message = text_of(alloc, marks.as_slice())?;
            Ok(Some((parameter, message)))
        }
        Then::Remove(removal, apart, quoted, words, outer) => {
            let pattern = pattern_of(alloc, marks.as_slice())?;
            let words = all_removed(alloc, removal, pattern.as_slice(), words.as_slice())?;
            *marks = outer.into_vec();
            put_all(
                alloc,
                apart,
                quoted,
                separator(env),
                words.as_slice(),
                marks,
            )?;
            Ok(None)
        }
        Then::Compute(quoted, outer) => {
            let text = text_of(alloc, marks.as_slice())?;
            *marks = outer.into_vec();
            compute(alloc, quoted, text.as_slice(), marks, env)
        }
    }
}
