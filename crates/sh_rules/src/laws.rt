// Laws over the definitions alone.
ghost use Rattle.std.specs.Prelude.{◌≡◌, ◌↔◌, List, [], ◌∷◌, Option, Some, true};
ghost use Rattle.sh_rules.specs.declared.token_kind.TokenKind as kinds;
ghost use Rattle.sh_rules.specs.Grammar.{Do, Parse, Parses, leaves, leaves_all, IsParse, AreParses};
ghost use Rattle.sh_rules.specs.Parts.{Part};
ghost use Rattle.sh_rules.specs.Rules as rules;
ghost use Rattle.sh_rules.specs.Choosing.{begins, choose, may_be_empty};

/// What is computed of the rules is so of their parse trees: a part begins with a token of a kind where one of its trees does, it
/// may be empty where one of its trees has no tokens, and the token with which a rule's trees begin chooses that rule.
pub fn first_tokens()
    ensures begins { (it : Part) (kind : kinds.TokenKind) → (begins it kind ≡ true) ↔ ((tree : Parse rules.Rule rules.Token) × (token : rules.Token) × (more : List rules.Token) × IsParse rules.shell tree (Do it) × (leaves tree ≡ token ∷ more) × (token.kind ≡ kind)) }
    ensures empty { (it : Part) → (may_be_empty it ≡ true) ↔ ((tree : Parse rules.Rule rules.Token) × IsParse rules.shell tree (Do it) × (leaves tree ≡ [])) }
    ensures chosen { (rule : rules.Rule) (trees : Parses rules.Rule rules.Token) (token : rules.Token) (more : List rules.Token) → AreParses rules.shell trees (rules.spelling rule) → leaves_all trees ≡ token ∷ more → choose (rules.part_of rule) token.kind ≡ Some rule }
{}
