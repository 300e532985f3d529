//! The variables of a leaf.

ghost use Rattle.std.specs.Prelude.{◌≡◌, ◌<◌, ◌≤◌, ◌↔◌, ◌⊎◌, ℕ, length, slice_index, IsTrue, IfOk};
ghost use Rattle.std.specs.Prelude.{OnOk};
ghost use Rattle.std.specs.List.{AllPairs, Contains};
ghost use Rattle.dl_syntax.specs.declared.queries.Term.TheVariants.{Var};
ghost use Rattle.dl_syntax.specs.Queries.{HasTerm};
ghost use Rattle.run_proofs.specs.Matching.{AreVariables};

use dl_syntax::{Atom, Memory, Term};
use std::alloc::Global;

/// The place of the first number that isn't below this one.
fn place_for(numbers: &[u16], number: u16) -> usize
    ensures within { result ≤ length numbers.now }
    ensures before { (k : ℕ) → k < result → slice_index numbers.now k < number }
    ensures here { result < length numbers.now → number ≤ slice_index numbers.now result }
{
    for (place, known) in numbers.iter().enumerate() {
        if *known >= number {
            return place;
        }
    }
    numbers.len()
}

/// Whether the number stands at the place.
fn stands_at(numbers: &[u16], place: usize, number: u16) -> bool
    ensures { IsTrue result ↔ (place < length numbers.now) × (slice_index numbers.now place
        ≡ number) }
{
    place < numbers.len() && numbers[place] == number
}

/// Adds the number, unless it is there.
fn add_number(numbers: &mut Vec<u16>, number: u16) -> Result<(), Memory>
    requires { AllPairs (λ v w. v < w) numbers.old.items }
    ensures rising { OnOk result (AllPairs (λ v w. v < w) numbers.new.items) }
    ensures member { OnOk result ((v : ℕ) → Contains numbers.new.items v
        ↔ Contains numbers.old.items v ⊎ (number ≡ v)) }
{
    let place = place_for(numbers.as_slice(), number);
    if stands_at(numbers.as_slice(), place, number) {
        return Ok(());
    }
    numbers.insert(place, number)?;
    Ok(())
}

/// Adds the term's variable, where it is one.
fn add_term(numbers: &mut Vec<u16>, term: Term) -> Result<(), Memory>
    requires { AllPairs (λ v w. v < w) numbers.old.items }
    ensures rising { OnOk result (AllPairs (λ v w. v < w) numbers.new.items) }
    ensures member { OnOk result ((v : ℕ) → Contains numbers.new.items v
        ↔ Contains numbers.old.items v ⊎ (term ≡ Var v)) }
{
    match term {
        Term::Var(number) => add_number(numbers, number),
        Term::Ind(_) => Ok(()),
    }
}

/// Adds the atom's variables.
fn add_atom(numbers: &mut Vec<u16>, atom: &Atom) -> Result<(), Memory>
    requires { AllPairs (λ v w. v < w) numbers.old.items }
    ensures rising { OnOk result (AllPairs (λ v w. v < w) numbers.new.items) }
    ensures member { OnOk result ((v : ℕ) → Contains numbers.new.items v
        ↔ Contains numbers.old.items v ⊎ HasTerm atom.now (Var v)) }
{
    match *atom {
        Atom::Concept(_, term) => add_term(numbers, term),
        Atom::Role(_, first, second) => {
            add_term(numbers, first)?;
            add_term(numbers, second)
        }
    }
}

/// The variables of the body in rising order.
pub fn variables_of(alloc: Global, body: &[Atom]) -> Result<Vec<u16>, Memory>
    ensures { IfOk result (λ numbers. AreVariables body.now numbers.items) }
{
    let mut numbers = Vec::new(alloc);
    for atom in body {
        add_atom(&mut numbers, atom)?;
    }
    Ok(numbers)
}
