//! The elements that variables are bound to.

ghost use Rattle.std.specs.Prelude.{◌≡◌, IfOk, None, Some, vec_len, take};
ghost use Rattle.std.specs.Bool.{OnTrue, OnFalse};

use dl_syntax::{Atom, Element, Fact, Memory, Term};

/// A variable and its element.
#[derive(Clone, Copy, Debug, PartialEq, Eq)]
pub struct Binding {
    pub variable: u16,
    pub element: Element,
}

ghost use Rattle.proof_search.specs.Bindings.{value_of, bind_term, bind_atom};

/// The element of a variable.
pub fn value_of(bindings: &[Binding], variable: u16) -> Option<Element>
    ensures { result ≡ value_of bindings.now variable }
{
    for binding in bindings {
        if binding.variable == variable {
            return Some(binding.element);
        }
    }
    None
}

/// Binds a term to an element, where that fits.
pub fn bind_term(bindings: &mut Vec<Binding>, term: Term, element: Element) -> Result<bool, Memory>
    ensures bound { IfOk result (λ fits.
        OnTrue fits (bind_term bindings.old.items term element ≡ Some bindings.new.items)
        × OnFalse fits (bind_term bindings.old.items term element ≡ None)) }
    ensures kept { take (vec_len bindings.old) bindings.new.items ≡ bindings.old.items }
{
    match term {
        Term::Ind(id) => Ok(element.cmp(&Element::Ind(id)).is_eq()),
        Term::Var(variable) => match value_of(bindings.as_slice(), variable) {
            Some(bound) => Ok(element.cmp(&bound).is_eq()),
            None => {
                bindings.push(Binding { variable, element })?;
                Ok(true)
            }
        },
    }
}

/// Binds an atom's terms so that it becomes the fact, where that fits.
pub fn bind_atom(bindings: &mut Vec<Binding>, atom: Atom, fact: Fact) -> Result<bool, Memory>
    ensures bound { IfOk result (λ fits.
        OnTrue fits (bind_atom bindings.old.items atom fact ≡ Some bindings.new.items)
        × OnFalse fits (bind_atom bindings.old.items atom fact ≡ None)) }
    ensures kept { take (vec_len bindings.old) bindings.new.items ≡ bindings.old.items }
{
    match (atom, fact) {
        (Atom::Concept(concept, term), Fact::Concept(other, element)) => {
            if concept.0 != other.0 {
                return Ok(false);
            }
            bind_term(bindings, term, element)
        }
        (Atom::Role(role, from, to), Fact::Role(other, first, second)) => {
            if role.0 != other.0 {
                return Ok(false);
            }
            if !bind_term(bindings, from, first)? {
                return Ok(false);
            }
            bind_term(bindings, to, second)
        }
        _ => Ok(false),
    }
}
