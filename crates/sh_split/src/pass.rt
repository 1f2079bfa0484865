// The cutting in one pass.
ghost use Rattle.std.specs.Prelude.{◌≡◌, ◌++◌, ◌∷◌, [], OnOk, IfOk};
ghost use Rattle.sh_split.specs.Pass.{step, last_of, Puts, Fitting};

use crate::mark::{Field, Mark, MarkKind};
use rk_base::NoMemory;
use std::mem;

/// Where a pass stands: no field is open, one is, or one has ended by white space, to which another byte of IFS
/// may still belong.
#[derive(Clone, Copy, Debug, Drop)]
pub(crate) enum State {
    Gap,
    In,
    After,
}

// Ends the open field.
pub(crate) fn end(fields: &mut Vec<Field>, open_field: &mut Vec<Mark>) -> Result<(), NoMemory>
    ensures fields { OnOk result (fields.new.items ≡ fields.old.items ++ open_field.old.items ∷ []) }
    ensures empty { OnOk result (open_field.new.items ≡ []) }
{
    let alloc = *open_field.allocator();
    let marks = mem::replace(open_field, Vec::new(alloc));
    fields.push(Field::new(marks))?;
    Ok(())
}

// What one mark does.
pub(crate) fn put(
    kind: MarkKind,
    state: State,
    mark: Mark,
    fields: &mut Vec<Field>,
    open_field: &mut Vec<Mark>,
) -> Result<State, NoMemory>
    requires { Fitting state open_field.old.items }
    ensures { IfOk result (λ s. Puts (step kind state open_field.old.items mark) fields.old.items fields.new.items s open_field.new.items) }
{
    match (kind, state) {
        (MarkKind::White, State::Gap) => Ok(State::Gap),
        (MarkKind::White, State::In) => {
            end(fields, open_field)?;
            Ok(State::After)
        }
        (MarkKind::White, State::After) => Ok(State::After),
        (MarkKind::Hard, State::Gap) => {
            end(fields, open_field)?;
            Ok(State::Gap)
        }
        (MarkKind::Hard, State::In) => {
            end(fields, open_field)?;
            Ok(State::Gap)
        }
        (MarkKind::Hard, State::After) => Ok(State::Gap),
        (MarkKind::Matter, _) => {
            open_field.push(mark)?;
            Ok(State::In)
        }
        (MarkKind::Break, State::Gap) => Ok(State::Gap),
        (MarkKind::Break, State::In) => {
            end(fields, open_field)?;
            Ok(State::Gap)
        }
        (MarkKind::Break, State::After) => Ok(State::Gap),
    }
}
