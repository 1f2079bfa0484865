// What the steps of the evaluator work on.
use crate::control::Frame;
use crate::state::State;
use std::alloc::Global;

/// A shell between two steps: the control stack, which has what is left to do, and the state of the shell (XCU 2.12). A step
/// that needs both is lent it whole, with the place in the script at which it stands beside it.
#[derive(Drop)]
pub struct Interpreter {
    pub alloc: Global,
    pub stack: Vec<Frame>,
    pub state: State,
}
