//! Laws of the definitions, each the contract of a function with nothing to do.
ghost use Rattle.consistency.specs.Asking.{ClashIsAsked};

/// A run of the facts meets a clash exactly where the clash's query is certain.
pub fn clash_is_asked()
    ensures { ClashIsAsked }
{}
