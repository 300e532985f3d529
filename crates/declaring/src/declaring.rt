//! Names that come with the stream.

ghost use Rattle.std.specs.Prelude.{◌≡◌, ◌≤◌, ◌+◌, ℕ, List, take, length, false, None};
ghost use Rattle.std.specs.Prelude.{OnOk, OnErr, IfErr};
ghost use Rattle.std.specs.List.{All};
ghost use Rattle.std.specs.Option.{option_map};
ghost use Rattle.dl_syntax.specs.declared.names.Kind.TheVariants.{Individual};
ghost use Rattle.dl_syntax.specs.Names.{IsDeclarable};
ghost use Rattle.dl_syntax.specs.Ontology.{with_name, with_individuals};
ghost use Rattle.tcq_syntax.specs.Sizes.{units};
ghost use Rattle.tcq_syntax.specs.Arrivals.{fault_of_name, AreAcceptable};
ghost use Rattle.declaring.specs.Declaring.{AreTables, told_at, IsNameRefusal, IsRefusal};

use crate::fault::DeclareFault;
use dl_syntax::{Kind, Name, Ontology};
use tcq_syntax::{Query, sizes};

/// The most individuals.
const INDIVIDUAL_LIMIT: u32 = 4096;
/// The most units of all queries.
const UNIT_LIMIT: u128 = 67_108_864;

/// The units of the queries over so many individuals.
fn total_units(queries: &[Query], individuals: u32) -> u128
    requires small { individuals ≤ 65536 }
    requires tables { AreTables queries.now }
    requires few { length queries.now ≤ 16 }
    ensures { result ≡ units individuals queries.now }
{
    let mut total = 0;
    for query in queries {
        total += sizes(query, individuals).units;
    }
    total
}

/// What is at fault with the name, which is at the place, where names may come.
fn fault_of(ontology: &Ontology, queries: &[Query], name: &[u8], place: u32) -> Option<DeclareFault>
    requires tables { AreTables queries.now }
    requires few { length queries.now ≤ 16 }
    ensures { result
        ≡ option_map (told_at place) (fault_of_name ontology.now queries.now false name.now) }
{
    if ontology.is_declared(name) {
        return Some(DeclareFault::NameTwice(place));
    }
    let count = ontology.count(Kind::Individual);
    if count >= INDIVIDUAL_LIMIT {
        return Some(DeclareFault::TooMany(place));
    }
    let total = total_units(queries, count + 1);
    if total > UNIT_LIMIT {
        return Some(DeclareFault::TooLarge { place, total });
    }
    None
}

/// Puts the name, which is at the place, last of the individuals, unless something is at fault with
/// it.
fn add_name(
    ontology: &mut Ontology,
    queries: &[Query],
    name: &Name,
    place: u32,
) -> Result<(), DeclareFault>
    requires tables { AreTables queries.now }
    requires few { length queries.now ≤ 16 }
    requires spelled { IsDeclarable name.now }
    ensures ok { OnOk result (ontology.new ≡ with_name Individual name.now ontology.old) }
    ensures none { OnOk result
        (fault_of_name ontology.old queries.now false name.now ≡ None) }
    ensures fault { IfErr result (IsNameRefusal ontology.old queries.now name.now place) }
    ensures err { OnErr result (ontology.new ≡ ontology.old) }
{
    if let Some(fault) = fault_of(ontology, queries, name.bytes(), place) {
        return Err(fault);
    }
    match ontology.add_name(Kind::Individual, name.bytes()) {
        Ok(_) => Ok(()),
        Err(_) => Err(DeclareFault::Memory),
    }
}

/// Puts the names last of the individuals, in order, up to the first that is at fault.
fn add_names(ontology: &mut Ontology, queries: &[Query], names: &[Name]) -> Result<(), DeclareFault>
    requires tables { AreTables queries.now }
    requires few { length queries.now ≤ 16 }
    requires spelled { All IsDeclarable names.now }
    ensures ok { OnOk result (ontology.new ≡ with_individuals names.now ontology.old) }
    ensures none { OnOk result (AreAcceptable ontology.old queries.now false names.now) }
    ensures fault { IfErr result (IsRefusal ontology.old queries.now false names.now) }
    ensures part { OnErr result ((count : ℕ)
        × (ontology.new ≡ with_individuals (take count names.now) ontology.old)) }
{
    for place in 0..names.len() {
        add_name(ontology, queries, &names[place], place as u32)?;
    }
    Ok(())
}

/// Puts the names last of the individuals, in order, or none of them where one is at fault. The
/// refusals are those of the first name at fault, each after those before it, and there in this
/// order: `NameTwice`, `TooMany`, `TooLarge` over the queries.
pub fn declare(
    ontology: &mut Ontology,
    queries: &[Query],
    names: &[Name],
) -> Result<(), DeclareFault>
    requires tables { AreTables queries.now }
    requires few { length queries.now ≤ 16 }
    requires spelled { All IsDeclarable names.now }
    ensures ok { OnOk result (ontology.new ≡ with_individuals names.now ontology.old) }
    ensures none { OnOk result (AreAcceptable ontology.old queries.now false names.now) }
    ensures fault { IfErr result (IsRefusal ontology.old queries.now false names.now) }
    ensures err { OnErr result (ontology.new ≡ ontology.old) }
{
    let count = ontology.count(Kind::Individual);
    match add_names(ontology, queries, names) {
        Ok(()) => Ok(()),
        Err(fault) => {
            ontology.keep_individuals(count);
            Err(fault)
        }
    }
}
