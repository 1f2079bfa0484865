// How a pattern space grows.
ghost use Rattle.std.specs.Prelude.{◌≡◌, ◌++◌, ◌∷◌, [], OnOk};

use rk_base::NoMemory;

/// The most bytes that a pattern space may have: more are want of memory.
const MOST: usize = 1 << 32;

/// Puts bytes behind what is made of a pattern space.
pub(crate) fn extend(made: &mut Vec<u8>, bytes: &[u8]) -> Result<(), NoMemory>
    ensures { OnOk result (made.new.items ≡ made.old.items ++ bytes.now) }
{
    if bytes.len() > MOST.saturating_sub(made.len()) {
        return Err(NoMemory);
    }
    made.extend_from_slice(bytes)?;
    Ok(())
}

/// Puts one byte behind what is made of a pattern space.
pub(crate) fn push(made: &mut Vec<u8>, b: u8) -> Result<(), NoMemory>
    ensures { OnOk result (made.new.items ≡ made.old.items ++ b ∷ []) }
{
    if made.len() >= MOST {
        return Err(NoMemory);
    }
    made.push(b)?;
    Ok(())
}
