//! What holds of all lists of antichains.

ghost use Rattle.formula_store.specs.Laws.{Generation};

/// The list that antichains go into one after another has exactly these antichains, each once.
pub fn generation()
    ensures { Generation }
{}
