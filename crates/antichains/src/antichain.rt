//! Antichains: the minimal sets of a monotone function.

ghost use Rattle.std.specs.Prelude.{◌≡◌, ℕ, ◌<◌, ◌^◌, ◌%◌, ◌||◌, ◌&&◌, false, nat_eq};
ghost use Rattle.std.specs.Prelude.{if◌then◌else◌, List, Contains, IfOk, [], ◌∷◌, length};
ghost use Rattle.std.specs.Prelude.{slice_index};
ghost use Rattle.antichains.specs.Sets.{is_inside, holds};
ghost use Rattle.antichains.specs.Family.{has, Has};
ghost use Rattle.std.specs.List.{AllZip};
ghost use Rattle.antichains.specs.Families.{FamilyOf, families_at};
ghost use Rattle.antichains.specs.Antichain.{IsAntichain, IsMinimal, IsMonotone, values_at};
ghost use Rattle.std.specs.Prelude.{refl};
ghost use Rattle.std.proofs.Common.{rules};
ghost use Rattle.std.specs.Cmp.{partial_equiv_from_equiv};
ghost use Rattle.std.specs.Cmp.Lexicographic.{nat_list_eq_equiv, pointwise};
ghost use Rattle.std.specs.Cmp.Rules.{hashing};
ghost use Rattle.std.specs.Hash as fed;

use crate::Memory;
use crate::family::{Family, above_some};
use std::alloc::Global;
use std::hash::{Hash, Hasher};
use std::marker::Model;

/// The minimal sets of a monotone function, rising strictly.
#[derive(Drop)]
pub struct Antichain {
    sets: Vec<u8>,
}

impl Model for Antichain {
    ghost use Rattle.std.specs.Prelude.{List, ℕ};
    ghost use Rattle.antichains.specs.Antichain.{IsAntichain};

    ghost Value = { List ℕ };

    ghost view = { λ c. c.sets.items };

    ghost invariant = { λ c. IsAntichain c.sets.items };
}

impl PartialEq for Antichain {
    ghost eq = { λ a b. pointwise nat_eq a b };

    ghost laws = { partial_equiv_from_equiv nat_list_eq_equiv };

    fn eq(&self, other: &Antichain) -> bool {
        self.sets == other.sets
    }
}

impl Eq for Antichain {
    ghost laws = { nat_list_eq_equiv };
}

impl Hash for Antichain {
    ghost hash_input = { λ c. fed.slice fed.u8 c };

    ghost respects_eq = { Prim.search (hashing, rules) };

    fn hash<H: Hasher>(&self, state: &mut H) {
        self.sets.hash(state);
    }
}

/// The minimal sets of a family that has each set above one of its own.
fn minimal_sets(alloc: Global, family: Family) -> Result<Vec<u8>, Memory>
    requires { IsMonotone (has family) }
    ensures { IfOk result (λ sets. IsMinimal (has family) sets.items) }
{
    let mut sets = Vec::new(alloc);
    let mut rest = family;
    while let Some(set) = rest.least() {
        sets.push(set)?;
        rest = rest.without(Family::above(set));
    }
    Ok(sets)
}

/// The antichain of a family that has each set above one of its own.
fn minimal(alloc: Global, family: Family) -> Result<Antichain, Memory>
    requires { IsMonotone (has family) }
    ensures { IfOk result (IsMinimal (has family)) }
{
    let sets = minimal_sets(alloc, family)?;
    Ok(Antichain { sets })
}

/// The antichain of one set.
fn single(alloc: Global, set: u8) -> Result<Antichain, Memory>
    ensures minimal { IfOk result (IsMinimal (is_inside set)) }
    ensures sets { IfOk result (λ c. c ≡ set ∷ []) }
{
    let mut sets = Vec::with_capacity(alloc, 1)?;
    sets.push(set)?;
    Ok(Antichain { sets })
}

/// The antichain that holds nowhere.
fn nowhere(alloc: Global) -> Antichain
    ensures minimal { IsMinimal (λ _. false) result }
    ensures sets { result ≡ [] }
{
    Antichain {
        sets: Vec::new(alloc),
    }
}

impl Antichain {
    /// The sets in their order: they rise, and none lies inside another.
    pub fn sets(&self) -> &[u8]
        ensures sets { result.now ≡ self.now }
        ensures antichain { IsAntichain result.now }
    {
        self.sets.as_slice()
    }

    /// The sets at which the antichain holds.
    fn family(&self) -> Family
        ensures { Has result (holds self.now) }
    {
        above_some(self.sets.as_slice())
    }

    /// The antichain of one value: true is the empty set alone, false is no set.
    pub fn fixed(alloc: Global, value: bool) -> Result<Antichain, Memory>
        ensures minimal { IfOk result (IsMinimal (λ _. value)) }
        ensures sets { IfOk result (λ c. c ≡ (if value then 0 ∷ [] else [])) }
    {
        if value {
            single(alloc, 0)
        } else {
            Ok(nowhere(alloc))
        }
    }

    /// The antichain of the set of one node.
    pub fn one(alloc: Global, number: u8) -> Result<Antichain, Memory>
        requires { number < 8 }
        ensures minimal { IfOk result (IsMinimal (is_inside (2 ^ number))) }
        ensures sets { IfOk result (λ c. c ≡ 2 ^ number ∷ []) }
    {
        single(alloc, 1 << number)
    }

    /// An equal antichain.
    pub fn copy(&self) -> Result<Antichain, Memory>
        ensures same { IfOk result (λ c. c ≡ self.now) }
        ensures antichain { IfOk result IsAntichain }
    {
        let sets = self.sets.clone()?;
        Ok(Antichain { sets })
    }
}

/// Whether a set of the antichain lies inside the set.
pub fn holds(antichain: &Antichain, set: u8) -> bool
    ensures { result ≡ holds antichain.now set }
{
    antichain
        .sets()
        .iter()
        .any(|member| member & set == *member)
}

/// The minimal ones among the sets.
pub fn from_sets(alloc: Global, sets: &[u8]) -> Result<Antichain, Memory>
    ensures { IfOk result (IsMinimal (holds sets.now)) }
{
    minimal(alloc, above_some(sets))
}

/// The antichain that holds where either does.
pub fn or(alloc: Global, a: &Antichain, b: &Antichain) -> Result<Antichain, Memory>
    ensures { IfOk result (IsMinimal (λ v. holds a.now v || holds b.now v)) }
{
    minimal(alloc, a.family().or(b.family()))
}

/// The antichain that holds where both do.
pub fn and(alloc: Global, a: &Antichain, b: &Antichain) -> Result<Antichain, Memory>
    ensures { IfOk result (IsMinimal (λ v. holds a.now v && holds b.now v)) }
{
    minimal(alloc, a.family().and(b.family()))
}

/// The family of each antichain.
fn families_of(alloc: Global, values: &[Antichain]) -> Result<Vec<Family>, Memory>
    ensures { IfOk result (λ families. AllZip FamilyOf values.now families.items) }
{
    let mut families = Vec::new(alloc);
    for value in values {
        families.push(value.family())?;
    }
    Ok(families)
}

/// The sets of the family that the value has, if the set's lowest node is in it.
fn narrowed(family: Family, set: u8, value: Family) -> Family
    ensures { Has result (λ v. has family v && (nat_eq (set % 2) 0 || has value v)) }
{
    if set % 2 == 0 {
        family
    } else {
        family.and(value)
    }
}

/// The family of the sets at which the values of all the nodes of a set hold.
fn all_named(set: u8, values: &[Family]) -> Family
    ensures { Has result (λ v. is_inside set (families_at values.now v)) }
{
    let mut family = Family::all();
    let mut rest = set;
    for value in values {
        family = narrowed(family, rest, *value);
        rest /= 2;
    }
    if rest == 0 { family } else { Family::none() }
}

/// The antichain with each node replaced by its value: it holds at a set where the given one holds
/// at the nodes whose values hold there. `values[b]` is the value of the node numbered `b`; a node
/// without one is false.
pub fn substitute(
    alloc: Global,
    antichain: &Antichain,
    values: &[Antichain],
) -> Result<Antichain, Memory>
    ensures { IfOk result (IsMinimal (λ v. holds antichain.now (values_at values.now v))) }
{
    let families = families_of(alloc, values)?;
    let family = substituted(antichain.sets(), families.as_slice());
    minimal(alloc, family)
}

/// The family of the sets at which some listed set's values all hold.
fn substituted(sets: &[u8], values: &[Family]) -> Family
    ensures { Has result (λ v. holds sets.now (families_at values.now v)) }
{
    let mut family = Family::none();
    for set in sets {
        family = family.or(all_named(*set, values));
    }
    family
}
