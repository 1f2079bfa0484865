// Parts of what is written: numbers and strings.
ghost use Rattle.std.specs.Prelude.{◌≡◌, ◌++◌, OnOk};
ghost use Rattle.tr_parts.specs.Piece.{num, string};

use rk_base::NoMemory;

/// Eight bytes, the greatest first.
#[tactic(auto, unfolding(crate::specs::Piece::num))]
pub fn push_number(out: &mut Vec<u8>, n: u64) -> Result<(), NoMemory>
    ensures { OnOk result (out.new.items ≡ out.old.items ++ num n) }
{
    out.extend_from_slice(&n.to_be_bytes())?;
    Ok(())
}

/// The length of a text in eight bytes, and the text.
pub fn push_string(out: &mut Vec<u8>, text: &[u8]) -> Result<(), NoMemory>
    ensures { OnOk result (out.new.items ≡ out.old.items ++ string text.now) }
{
    push_number(out, text.len() as u64)?;
    out.extend_from_slice(text)?;
    Ok(())
}
