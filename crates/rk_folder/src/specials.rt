// The first special of a folder.
ghost use Rattle.rk_folder.specs.Told.{Held};
ghost use Rattle.rk_folder.specs.Listing.{IsFirst};
ghost use Rattle.rk_folder.specs.Specials.{is_fault, first_special};

/// What is told of a folder as special is special, and no other such path is listed before it; where
/// none is told, there is none.
pub fn special_is_first()
    ensures first { (held : Held) → IsFirst (is_fault held) (first_special held) }
{}
