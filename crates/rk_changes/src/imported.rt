// A folder as it is imported.
ghost use Rattle.std.specs.Prelude.{◌≡◌, None, Bool, true, false};
ghost use Rattle.std.specs.List.{list_all};
ghost use Rattle.rk_base.specs.Text.{is_within};
ghost use Rattle.rk_folder.specs.Told.{Held};
ghost use Rattle.rk_folder.specs.Whole.{IsWhole};
ghost use Rattle.rk_folder.specs.Specials.{first_special};
ghost use Rattle.rk_changes.specs.Holdings.{HasPlaces, Holds, hidden_dir, IsBuilt, MayBecome};
ghost use Rattle.rk_changes.specs.Imported.{holding_of};
ghost use Rattle.rk_changes.specs.declared.holding.Holding.{Holding};

/// A folder in which nothing is special holds just what is imported of it, only `.rkr` and what is below it
/// hold odd names, and so it may become what a build leaves, also where its database is passed over; and in the places of a
/// list of calls stand files alone, or nothing. It does nothing.
pub fn imported_holds()
    ensures holds { (held : Held) → IsWhole held → first_special held ≡ None → Holds held (holding_of false held) }
    ensures odd { (held : Held) → IsWhole held → first_special held ≡ None → list_all (λ dir. is_within hidden_dir dir) held.odd ≡ true }
    ensures becomes { (fresh : Bool) (held : Held) (after : Holding) → IsWhole held → first_special held ≡ None → IsBuilt after → MayBecome held (holding_of fresh held) after }
    ensures places { (fresh : Bool) (held : Held) → IsWhole held → first_special held ≡ None → HasPlaces held (holding_of fresh held) }
{}
