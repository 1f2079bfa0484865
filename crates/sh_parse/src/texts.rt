// The texts of tokens.
ghost use Rattle.std.specs.Prelude.{◌≡◌, IfOk};
ghost use Rattle.sh_lex.specs.Takes.{read_of};

use rk_base::{Bytes, NoMemory};
use sh_lex::Taken;
use sh_nodes::{PLACES, place_of};
use std::alloc::Global;

// The bytes of a script of which no text is kept: it has few tokens.
const SHORT: usize = 1024;

/// Texts of tokens that were taken lately: one that is among them again, as an operator or a command's name, shares its bytes.
#[derive(Drop)]
pub struct Texts {
    // Each in the place that its bytes tell, which the last one that has it takes.
    kept: Vec<Bytes>,
}

impl Texts {
    /// None yet, of a script of so many bytes.
    pub fn new(alloc: Global, length: usize) -> Result<Texts, NoMemory> {
        let mut kept = Vec::new(alloc);
        if length > SHORT {
            let none = Bytes::new(alloc, Vec::new(alloc))?;
            kept.reserve_exact(PLACES)?;
            for _ in 0..PLACES {
                kept.push(none.copy()?)?;
            }
        }
        Ok(Texts { kept })
    }

    // These bytes, shared with the text that was kept of them.
    fn shared(&mut self, alloc: Global, text: &[u8]) -> Result<Bytes, NoMemory>
        ensures { IfOk result (λ b. b ≡ text.now) }
    {
        match self.kept.get_mut(place_of(text)) {
            None => Bytes::from_slice(alloc, text),
            Some(kept) => {
                if kept.as_slice() != text {
                    *kept = Bytes::from_slice(alloc, text)?;
                }
                kept.copy()
            }
        }
    }

    /// A token's bytes as they are read.
    pub fn read(&mut self, alloc: Global, taken: &Taken) -> Result<Bytes, NoMemory>
        ensures { IfOk result (λ b. b ≡ read_of taken.now) }
    {
        match taken.plain() {
            Some(text) => self.shared(alloc, text),
            None => taken.bytes(alloc),
        }
    }
}
