// Pipe.
ghost use Rattle.std.specs.Prelude.{◌≡◌, IfOk};
ghost use Rattle.rk_kernel.specs.Do as all;

use crate::pipe::Pipe;
use crate::{Description, World};
use rk_base::NoMemory;
use rk_calls::{Answer, Refs};

impl World {
    /// Makes an empty pipe, and a description for each of its ends.
    pub(super) fn pipe(&mut self, refs: &mut Refs) -> Result<Answer, NoMemory>
        ensures { IfOk result (λ a. record { answer = a; refs = refs.new; world = self.new } ≡ all.piped self.old refs.old) }
    {
        let p = self.pipes.len();
        let d = self.opens.len();
        let pipe = Pipe::new();
        self.pipes.push(pipe)?;
        self.opens.push(Description::read_end(p))?;
        self.opens.push(Description::write_end(p))?;
        refs.push(d)?;
        refs.push(d + 1)?;
        Ok(Answer::Piped)
    }
}
