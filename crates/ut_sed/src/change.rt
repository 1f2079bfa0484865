// What `y` changes.
ghost use Rattle.std.specs.Prelude.{◌≡◌, ◌∷◌, ◌++◌, ◌<◌, [], length, MatchOption, IfSome, IfOk, OnOk};
ghost use Rattle.ut_sed.specs.Changing.{image, images_of, changed};

use rk_base::{Bytes, NoMemory};
use std::alloc::Global;
use std::marker::Model;

/// What `y` changes: each byte of the first string to the byte in the same place of the second one.
#[derive(Drop)]
pub struct Change {
    from: Bytes,
    to: Bytes,
    /// For each byte what stands for it.
    images: Vec<u8>,
}

impl Model for Change {
    ghost use Rattle.std.specs.Prelude.{◌≡◌};
    ghost use Rattle.ut_sed.specs.Changing.{ChangeValue, images_of};

    ghost Value = { ChangeValue };

    ghost view = { λ c. record { from = c.from; to = c.to } };

    ghost invariant = { λ c. c.images.items ≡ images_of c.from c.to };
}

fn first_byte(text: &[u8]) -> Option<(u8, &[u8])>
    ensures cut { MatchOption result (text.now ≡ []) (λ r. text.now ≡ r.0 ∷ r.1.now) }
    ensures length { IfSome result (λ r. length r.1.now < length text.now) }
{
    match text {
        [] => None,
        [b, rest @ ..] => Some((*b, rest)),
    }
}

fn image(b: u8, from: &[u8], to: &[u8]) -> u8
    ensures { result ≡ image b from.now to.now }
{
    let mut left = from;
    let mut right = to;
    'bytes: while let Some((a, after_a)) = first_byte(left) {
        match first_byte(right) {
            None => return b,
            Some((c, after_c)) => {
                if a == b {
                    return c;
                }
                right = after_c;
            }
        }
        left = after_a;
    }
    b
}

fn images(alloc: Global, from: &[u8], to: &[u8]) -> Result<Vec<u8>, NoMemory>
    ensures { IfOk result (λ v. v.items ≡ images_of from.now to.now) }
{
    let mut images = Vec::new(alloc);
    for i in 0..256u16 {
        images.push(image(i as u8, from, to))?;
    }
    Ok(images)
}

impl Change {
    pub(crate) fn new(alloc: Global, from: Bytes, to: Bytes) -> Result<Change, NoMemory>
        ensures { IfOk result (λ c. c ≡ record { from = from; to = to }) }
    {
        let images = images(alloc, from.as_slice(), to.as_slice())?;
        Ok(Change { from, to, images })
    }

    fn image(&self, b: u8) -> u8
        ensures { result ≡ image b self.now.from self.now.to }
    {
        self.images[b as usize]
    }

    /// Each byte of a text as what stands for it.
    pub(crate) fn change(&self, text: &[u8], made: &mut Vec<u8>) -> Result<(), NoMemory>
        ensures { OnOk result (made.new.items ≡ made.old.items ++ changed self.now text.now) }
    {
        'bytes: for b in text {
            made.push(self.image(*b))?;
        }
        Ok(())
    }
}
