// Sorting of texts.
ghost use Rattle.std.specs.Prelude.{◌≡◌, OnOk};
ghost use Rattle.rk_base.specs.Sorted.{sorted};

use crate::{Bytes, NoMemory};

/// Puts texts into the order of their bytes; each stands as often as before.
pub fn sort_texts(texts: &mut Vec<Bytes>) -> Result<(), NoMemory>
    ensures { OnOk result (texts.new.items ≡ sorted texts.old.items) }
{
    texts.sort()?;
    Ok(())
}
