//! Laws of the language, each the contract of a function with nothing to do.
ghost use Rattle.std.specs.Prelude.{◌≡◌, List, Some, None};
ghost use Rattle.tcq_grammar.specs.Grammar.{File, Empty, FileFits, file_spelled, BeginsFile};
ghost use Rattle.tcq_grammar.specs.Machine.{State, Between, run};
ghost use Rattle.tcq_grammar.specs.Symbols.{Symbol};
ghost use Rattle.tcq_grammar.specs.Laws.{FrontsGoOn, LeadsBetween, SpellsItsFront, StopsOnce};

/// Tokens spell one file at most.
pub fn one_file()
    ensures { (f g : File) → FileFits f → FileFits g → file_spelled f ≡ file_spelled g → f ≡ g }
{}

/// The machine has a state exactly while the tokens begin a file.
pub fn fronts_are_live()
    ensures live { (text : List Symbol) (state : State)
        → run (Some (Between Empty)) text ≡ Some state → BeginsFile text }
    ensures dead { (text : List Symbol)
        → run (Some (Between Empty)) text ≡ None → BeginsFile text → ⊥ }
{}

/// A text leads to the state between queries behind a file exactly where the file fits the grammar
/// and the text spells it.
pub fn leads_between()
    ensures { LeadsBetween }
{}

/// The state that a text leads to spells the text.
pub fn spells_its_front()
    ensures { SpellsItsFront }
{}

/// A text stops being the front of a file at one place at most.
pub fn stops_once()
    ensures { StopsOnce }
{}

/// A text that begins a file stops nowhere.
pub fn fronts_go_on()
    ensures { FrontsGoOn }
{}
