// The law of scripts and faults.
ghost use Rattle.std.specs.Prelude.{◌≡◌, ◌++◌, ◌⊎◌, List, ℕ, drop, length, take};
ghost use Rattle.sh_ast.specs.Commands as c;
ghost use Rattle.sh_token.specs.declared.fault.ScriptFault as faults;
ghost use Rattle.sh_token.specs.declared.fault.Why.TheVariants.{NotInProfile, Unclosed};
ghost use Rattle.sh_token.specs.Folded.{folded};
ghost use Rattle.sh_rules.specs.Rules as rules;
ghost use Rattle.sh_rules.specs.Grammar.{Halt};
ghost use Rattle.sh_token.specs.Places.{Place, begin};
ghost use Rattle.sh_script.specs.Trees.{Trees};
ghost use Rattle.sh_script.specs.Meanings.{script_of};
ghost use Rattle.sh_script.specs.InOrder.{tree_in_order, script_in_order};
ghost use Rattle.sh_script.specs.Openings.{AllFrom, IsOneOf, openings};
ghost use Rattle.sh_script.specs.Scripts.{IsScript, IsFaulty, Spells, StopsAt};
ghost use Rattle.sh_script.specs.Reads.{Script, Faulty, fault_words, reads};

/// A text is one script, or it has one fault; and it reads as that script, or as the words of that fault.
pub fn one_script_or_fault()
    ensures some { (text : List ℕ) → ((s : c.CommandsTree) × IsScript text s) ⊎ ((f : faults.ScriptFault) × IsFaulty text f) }
    ensures one_script { (text : List ℕ) (s t : c.CommandsTree) → IsScript text s → IsScript text t → s ≡ t }
    ensures one_fault { (text : List ℕ) (f g : faults.ScriptFault) → IsFaulty text f → IsFaulty text g → f ≡ g }
    ensures not_both { (text : List ℕ) (s : c.CommandsTree) (f : faults.ScriptFault) → IsScript text s → IsFaulty text f → ⊥ }
    ensures script_read { (text : List ℕ) (s : c.CommandsTree) → IsScript text s → Script s ≡ reads text }
    ensures fault_read { (text : List ℕ) (f : faults.ScriptFault) → IsFaulty text f → Faulty (fault_words text f) ≡ reads text }
{}

/// A parse tree that a text spells has as many here-document operators as bodies of here-documents, and the script that it is
/// is the one in which the n-th operator has the n-th body, in the text and in each body that is expanded (XCU 2.7.4).
pub fn documents_in_order()
    ensures as_many { (text : List ℕ) (tree : Trees rules.script) (q : Place) → Spells tree (begin text) q → (tree_in_order tree).operators ≡ length (tree_in_order tree).bodies }
    ensures in_order { (text : List ℕ) (tree : Trees rules.script) (q : Place) → Spells tree (begin text) q → script_of tree ≡ script_in_order tree }
{}

/// What a fault names as left out of the profile stands at the fault's place: from there the text goes on, to its end or to that
/// of a here-document's body, with bytes that, without their joined lines, begin with what is named.
pub fn named_stands_there()
    ensures { (text : List ℕ) (f : faults.ScriptFault) (name : List ℕ) → IsFaulty text f → f.why ≡ NotInProfile name → (left : List ℕ) × ((rest : List ℕ) × (left ++ rest ≡ drop f.at text)) × (name ≡ take (length name) (folded left)) }
{}

/// A fault of what isn't closed stands at the first of what is open where the text stops: quotes, substitutions and braces,
/// here-documents that are awaited, and what has begun last.
pub fn unclosed_is_outermost()
    ensures { (text : List ℕ) (f : faults.ScriptFault) → IsFaulty text f → f.why ≡ Unclosed → (p : Place) × (h : Halt rules.Token) × StopsAt (begin text) p h × IsOneOf f.at (openings p) × AllFrom f.at (openings p) }
{}
