// Bytes written over others in place.
ghost use Rattle.std.specs.Prelude.{◌≡◌, ◌≤◌, ◌+◌, ◌-◌, ◌++◌, OnOk, take, drop, replicate, length};
ghost use Rattle.rk_base.specs.Text.{written};

use crate::NoMemory;

// Bytes that stand within a text, written over.
fn replace(text: &mut [u8], at: usize, bytes: &[u8])
    requires within { at + length bytes.now ≤ length text.old }
    ensures { text.new ≡ take at text.old ++ bytes.now ++ drop (at + length bytes.now) text.old }
{
    let (_, rest) = text.split_at_mut(at);
    let (old, _) = rest.split_at_mut(bytes.len());
    old.copy_from_slice(bytes);
}

/// Writes bytes over a text from a place on, and zero bytes into a gap before it.
#[tactic(auto, unfolding(crate::specs::Text::written))]
pub(crate) fn write_over(text: &mut Vec<u8>, at: usize, bytes: &[u8]) -> Result<(), NoMemory>
    ensures { OnOk result (text.new.items ≡ written text.old.items at bytes.now) }
{
    if text.len() < at {
        text.resize(at, 0)?;
    }
    if bytes.len() <= text.len() - at {
        replace(text, at, bytes);
        return Ok(());
    }
    text.truncate(at);
    text.extend_from_slice(bytes)?;
    Ok(())
}
