// The control stack.
ghost use Rattle.std.specs.Prelude.{◌≡◌, ◌+◌, IfSome, OnOk};
ghost use Rattle.sh_means.specs.Stack.{context, continued, undone, Popped};
ghost use Rattle.sh_means.specs.Weights.{weigh_all, weigh_continuation, weigh_frame, weigh_undo};

use crate::control::{Continuation, Frame, Undo};
use rk_base::NoMemory;

/// Puts what is left to do after a command on the stack.
#[tactic(auto, using(crate::proofs::Stacks::context_push))]
pub fn put_continuation(stack: &mut Vec<Frame>, frame: Continuation) -> Result<(), NoMemory>
    ensures talk { OnOk result (context stack.new.items ≡ continued frame (context stack.old.items)) }
    ensures weight { OnOk result (weigh_all stack.new.items ≡ weigh_all stack.old.items + weigh_continuation frame) }
{
    stack.push(Frame::Continuation(frame))?;
    Ok(())
}

/// Puts what is undone after a command on the stack.
#[tactic(auto, using(crate::proofs::Stacks::context_push))]
pub fn put_undo(stack: &mut Vec<Frame>, frame: Undo) -> Result<(), NoMemory>
    ensures talk { OnOk result (context stack.new.items ≡ undone frame (context stack.old.items)) }
    ensures weight { OnOk result (weigh_all stack.new.items ≡ weigh_all stack.old.items + weigh_undo frame) }
{
    stack.push(Frame::Undo(frame))?;
    Ok(())
}

/// Takes the frame on top of the stack, where there is one.
#[tactic(auto, using(crate::proofs::Stacks::context_push))]
pub fn pop(stack: &mut Vec<Frame>) -> Option<Frame>
    ensures talk { Popped (context stack.old.items) (context stack.new.items) result }
    ensures weight { IfSome result (λ f. weigh_all stack.old.items ≡ weigh_all stack.new.items + weigh_frame f) }
{
    stack.pop()
}
