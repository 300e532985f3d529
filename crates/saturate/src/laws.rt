//! Laws of the definitions, each the contract of a function with nothing to do.
ghost use Rattle.saturate.specs.Derived.{DerivedIsReached};
ghost use Rattle.saturate.specs.Laws.{SaturationIsWhole};

/// What is derived of individuals without nulls is exactly what some run holds of them.
pub fn derived_is_reached()
    ensures { DerivedIsReached }
{}

/// Nothing more follows from a saturation.
pub fn saturation_is_whole()
    ensures { SaturationIsWhole }
{}
