//! One step of the chase, by places.

ghost use Rattle.std.specs.Prelude.{◌≡◌, ◌≢◌, ◌≤◌, ◌<◌, ◌-◌, ◌^◌, ◌++◌, ◌↔◌, [], List, length};
ghost use Rattle.std.specs.Prelude.{IfOk, IfSome, OnErr, IsTrue};
ghost use Rattle.dl_syntax.specs.declared.facts.Fact.{Fact};
ghost use Rattle.dl_syntax.specs.Chase.{made_by as made_of_fact, Run};
ghost use Rattle.dl_syntax.specs.Growing.{facts_of, made_at};

use crate::Memory;
use crate::facts::{Element, Fact, basic_fact, element_in, pair_in, role_fact};
use crate::ontology::{Inclusion, Ontology};

/// What one step of the chase makes.
enum Made {
    Nothing,
    One(Fact),
    Two(Fact, Fact),
}

/// What the inclusion makes from the fact, a null having the number of the place.
fn made_by(inclusion: &Inclusion, from: &Fact, place: u32) -> Made
    ensures { facts_of result ≡ made_of_fact inclusion.now from.now place }
{
    match inclusion {
        Inclusion::Concepts(below, above) => match element_in(below, from) {
            Some(element) => Made::One(basic_fact(above, element, place)),
            None => Made::Nothing,
        },
        Inclusion::Roles(below, above) => match pair_in(below, from) {
            Some((first, second)) => Made::One(role_fact(above, first, second)),
            None => Made::Nothing,
        },
        Inclusion::Qualified(below, role, concept) => match element_in(below, from) {
            Some(element) => {
                let null = Element::Null(place);
                Made::Two(
                    role_fact(role, element, null),
                    Fact::Concept(*concept, null),
                )
            }
            None => Made::Nothing,
        },
    }
}

/// Puts the facts last.
fn append(run: &mut Vec<Fact>, made: Made) -> Result<bool, Memory>
    ensures ok { IfOk result (λ grows. run.new.items ≡ run.old.items ++ facts_of made) }
    ensures grows { IfOk result (λ grows. IsTrue grows ↔ (facts_of made ≢ [])) }
    ensures err { OnErr result (run.new.items ≡ run.old.items) }
{
    match made {
        Made::Nothing => Ok(false),
        Made::One(fact) => {
            run.extend_from_slice(&[fact])?;
            Ok(true)
        }
        Made::Two(first, second) => {
            run.extend_from_slice(&[first, second])?;
            Ok(true)
        }
    }
}

/// Continues the run by what the inclusion of this number, counted from 1, makes of the fact at the
/// place.
fn extend(
    inclusions: &[Inclusion],
    run: &mut Vec<Fact>,
    from: u32,
    inclusion: u32,
) -> Result<bool, Memory>
    requires place { from < length run.old.items }
    requires numbered { 1 ≤ inclusion }
    requires listed { inclusion ≤ length inclusions.now }
    requires room { length run.old.items < 2 ^ 32 - 2 }
    ensures ok { IfOk result (λ grows. run.new.items
        ≡ run.old.items ++ made_at inclusions.now run.old.items from inclusion) }
    ensures grows { IfOk result (λ grows. IsTrue grows
        ↔ (made_at inclusions.now run.old.items from inclusion ≢ [])) }
    ensures err { OnErr result (run.new.items ≡ run.old.items) }
{
    let place = run.len() as u32;
    let step = &inclusions[(inclusion - 1) as usize];
    let fact = run[from as usize];
    let made = made_by(step, &fact, place);
    append(run, made)
}

/// Continues the run by what the inclusion of this number, counted from 1, makes of the fact at the
/// place: one step of the chase of Calvanese et al. (2007). Answers whether that is anything. On
/// `false` and on `Memory` the run is as before, and a run of a snapshot stays one.
pub fn extend_run(
    ontology: &Ontology,
    run: &mut Vec<Fact>,
    from: u32,
    inclusion: u32,
) -> Result<bool, Memory>
    requires place { from < length run.old.items }
    requires numbered { 1 ≤ inclusion }
    requires listed { inclusion ≤ length ontology.now.inclusions }
    requires room { length run.old.items < 2 ^ 32 - 2 }
    ensures ok { IfOk result (λ grows. run.new.items
        ≡ run.old.items ++ made_at ontology.now.inclusions run.old.items from inclusion) }
    ensures grows { IfOk result (λ grows. IsTrue grows
        ↔ (made_at ontology.now.inclusions run.old.items from inclusion ≢ [])) }
    ensures err { OnErr result (run.new.items ≡ run.old.items) }
    ensures stays { (snapshot : List Fact) → Run ontology.now.inclusions snapshot run.old.items
        → Run ontology.now.inclusions snapshot run.new.items }
{
    extend(ontology.inclusions(), run, from, inclusion)
}

#[cfg(test)]
mod tests {
    use super::*;
    use crate::names::{ConceptId, IndId, Kind, RoleId};
    use crate::ontology::{Basic, Role};
    use std::alloc::Global;

    const SERVER: Basic = Basic::Concept(ConceptId(0));

    const RUNS: Role = Role {
        id: RoleId(0),
        inverse: false,
    };

    /// Servers run something, and what runs something is a server.
    fn servers(alloc: Global) -> Option<Ontology>
        ensures { IfSome result (λ o. length o.inclusions ≡ 2) }
    {
        let mut ontology = Ontology::new(alloc);
        ontology.add_name(Kind::Concept, b"Server").ok()?;
        ontology.add_name(Kind::Role, b"runs").ok()?;
        let some_runs = Basic::Some(RUNS);
        ontology
            .add_inclusion(Inclusion::Concepts(SERVER, some_runs))
            .ok()?;
        ontology
            .add_inclusion(Inclusion::Concepts(some_runs, SERVER))
            .ok()?;
        Some(ontology)
    }

    // From Server(s1) the first inclusion makes runs(s1, null 1), and the second one nothing.
    #[test]
    fn grows_where_it_applies(rt: HostRuntime) {
        let ontology = servers(rt.alloc()).expect(&rt, "memory");
        let individual = Element::Ind(IndId(0));
        let member = Fact::Concept(ConceptId(0), individual);
        let pair = Fact::Role(RoleId(0), individual, Element::Null(1));
        let mut run = Vec::new(rt.alloc());
        assert!(rt; run.push(member).is_ok());
        assert!(rt; run.len() == 1);
        assert!(rt; extend_run(&ontology, &mut run, 0, 2) == Ok(false));
        assert!(rt; run.len() == 1);
        assert!(rt; extend_run(&ontology, &mut run, 0, 1) == Ok(true));
        assert!(rt; run.as_slice() == [member, pair].as_slice());
    }
}
