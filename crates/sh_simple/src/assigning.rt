// Assignments, one after another, and then what the command does.
ghost use Rattle.std.specs.Prelude.{IfOk};
ghost use Rattle.sh_means.specs.Stack.{Steps, context, assigning};
ghost use Rattle.sh_means.specs.Views.{shell_of};
ghost use Rattle.sh_means.specs.Weights.{Lowers, weigh_assignments};

use crate::launching::work;
use rk_base::NoMemory;
use rk_calls::Answer;
use sh_expand::Mode;
use sh_means::control::{Acted, Aim, PendingAssignments, PendingValue};
use sh_means::expanding::act_expand;
use sh_means::expansion::pending;
use sh_means::flow::Place;
use sh_means::interpreter::Interpreter;

/// The next of the assignments, or what the command does.
pub fn next_assign(
    place: Place,
    left: PendingAssignments,
    shell: &mut Interpreter,
) -> Result<Acted, NoMemory>
    ensures talk { IfOk result (Steps (assigning left place (context shell.old.stack.items) (shell_of shell.old.state)) (context shell.new.stack.items) (shell_of shell.new.state)) }
    ensures costly { IfOk result (Lowers (weigh_assignments left) shell.old.stack.items shell.new.stack.items) }
{
    let assignments = left.assignments.clone()?;
    match assignments.get(left.at) {
        Some(assignment) => {
            let name = assignment.name.copy()?;
            let value = assignment.value.clone()?;
            let mut left = left;
            left.at += 1;
            let aim = Aim::Value(PendingValue { left, name });
            let wording = pending(shell.alloc, value, Mode::Value, place, aim)?;
            act_expand(wording, Answer::Go, shell)
        }
        None => {
            let PendingAssignments {
                assignments: _,
                at: _,
                exported: _,
                resolved,
            } = left;
            let acted = work(resolved, place, shell)?;
            Ok(acted)
        }
    }
}
