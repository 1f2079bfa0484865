// Texts of names and literals.
ghost use Rattle.std.specs.Prelude.{◌≡◌, IfOk};

use crate::places::{PLACES, place_of};
use rk_base::{Bytes, NoMemory};
use std::alloc::Global;

// As many empty texts as there are places.
fn all_empty(alloc: Global) -> Result<Vec<Bytes>, NoMemory> {
    let none = Bytes::new(alloc, Vec::new(alloc))?;
    let mut texts = Vec::new(alloc);
    texts.reserve_exact(PLACES)?;
    for _ in 0..PLACES {
        texts.push(none.copy()?)?;
    }
    Ok(texts)
}

// A text, shared with the one of a place, which is this text from now on.
fn shared_at(place: &mut Bytes, text: Bytes) -> Result<Bytes, NoMemory>
    ensures { IfOk result (λ b. b ≡ text) }
{
    if place.same(&text) {
        let kept = place.copy()?;
        return Ok(kept);
    }
    *place = text.copy()?;
    Ok(text)
}

/// Texts that came lately: one that is among them again shares its bytes. There is no room for any before the first comes.
#[derive(Drop)]
pub struct Texts {
    // Each in the place that its bytes tell, which the last one that has it takes.
    kept: Vec<Bytes>,
}

impl Texts {
    /// None yet.
    pub fn new(alloc: Global) -> Texts {
        Texts {
            kept: Vec::new(alloc),
        }
    }

    /// The text, shared with the one that is kept of it.
    pub fn shared(&mut self, alloc: Global, text: Bytes) -> Result<Bytes, NoMemory>
        ensures { IfOk result (λ b. b ≡ text) }
    {
        if self.kept.is_empty() {
            self.kept = all_empty(alloc)?;
        }
        match self.kept.get_mut(place_of(text.as_slice())) {
            None => Ok(text),
            Some(place) => shared_at(place, text),
        }
    }
}
