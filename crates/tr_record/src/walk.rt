// Walks through steps.
ghost use Rattle.std.specs.Prelude.{◌≡◌, ◌∷◌, ◌≤◌, [], IfSome, IfNone, length};
ghost use Rattle.tr_record.specs.Pool.{steps_under};

use crate::Step;
use crate::pool::StepPool;
use std::marker::Model;

// What is left of steps.
enum Left<'a> {
    Own(&'a [Step]),
    Shared(&'a StepPool, usize),
}

/// What is left of steps as they are gone through. Contracts see the list of them.
pub struct Walk<'a> {
    left: Left<'a>,
}

impl<'a> Model for Walk<'a> {
    ghost use Rattle.std.specs.Prelude.{List};
    ghost use Rattle.tr_record.specs.Walks.{steps_of, IsWithin};
    ghost use Rattle.tr_record.specs.declared.steps.Step.{Step};

    ghost Value = { List Step };

    ghost view = { λ w. steps_of w.left };

    ghost invariant = { λ w. IsWithin w.left };
}

impl Drop for Left<'_> {
    fn drop(self) {
        match self {
            Left::Own(_) => {}
            Left::Shared(_, _) => {}
        }
    }
}

impl Drop for Walk<'_> {
    fn drop(self) {
        let Walk { left: _ } = self;
    }
}

impl<'a> Walk<'a> {
    /// These steps.
    pub(crate) fn own(steps: &'a [Step]) -> Walk<'a>
        ensures { result ≡ steps.now }
    {
        Walk {
            left: Left::Own(steps),
        }
    }

    /// The steps of a number.
    pub(crate) fn shared(pool: &'a StepPool, head: usize) -> Walk<'a>
        requires { head ≤ length pool.now.nodes }
        ensures { result ≡ steps_under pool.now.nodes head }
    {
        Walk {
            left: Left::Shared(pool, head),
        }
    }

    /// The first step, and what is left after it; `None` exactly at the end.
    pub fn step(&self) -> Option<(&'a Step, Walk<'a>)>
        ensures some { IfSome result (λ x. self.now ≡ x.0.now ∷ x.1) }
        ensures none { IfNone result (self.now ≡ []) }
    {
        match &self.left {
            Left::Own(steps) => {
                let (first, rest) = steps.split_first()?;
                Some((first, Walk::own(rest)))
            }
            Left::Shared(pool, head) => {
                let step = pool.step(*head)?;
                Some((step, Walk::shared(pool, pool.next(*head))))
            }
        }
    }
}
