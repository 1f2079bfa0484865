// Laws over the definitions alone.
ghost use Rattle.std.specs.Prelude.{◌≡◌};
ghost use Rattle.sh_rules.specs.declared.token_kind.Mode.{Mode};
ghost use Rattle.sh_token.specs.Places.{Place};
ghost use Rattle.sh_token.specs.Recognition.{token_at};
ghost use Rattle.sh_token.specs.Lexemes.{look};

/// The token that the table of recognizers has at a place is the one that the rules of token recognition have there (XCU 2.3).
pub fn tokens_are_recognized()
    ensures { (mode : Mode) (place : Place) → look mode place ≡ token_at mode place }
{}
