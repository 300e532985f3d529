//! What the first line of a proof and the one before its last tell.

ghost use Rattle.std.specs.Prelude.{◌≡◌, ◌<◌, ◌^◌, ◌++◌, ◌∷◌, ℕ, List, codes, length, slice_get};
ghost use Rattle.std.specs.Prelude.{MatchOption, IfOk, IsSome};
ghost use Rattle.run_proofs.specs.Shows.{leaf_at, clash_of};
ghost use Rattle.run_proofs.specs.Texts.{query_name, ending_text, goal_text, clash_text};
ghost use Rattle.run_proofs.specs.Asking.{IsAsked, IsNoGoal, IsToldEnding, IsNoEnding};
ghost use Rattle.run_proofs.specs.Asking.{NamesLeaf, NamesNoLeaf, IsNoAnswerOf, IsNoKnownClash};

use crate::checking::{clash_at, leaf_of};
use crate::listing::{first_word, read_elements, read_row};
use crate::proof::{Ending, Goal};
use crate::reading::{read_clash, read_number, read_places, rest_of};
use dl_syntax::{Items, Memory, Ontology};
use std::alloc::Global;
use tcq_syntax::Query;

/// The place, where it is that of a leaf of the query.
fn leaf_place(queries: &[Query], query: u16, number: u32) -> Option<u16>
    ensures { MatchOption result
        (number < 2 ^ 16 → IsSome (leaf_at queries.now query number) → ⊥)
        (λ leaf. (leaf ≡ number) × IsSome (leaf_at queries.now query leaf)) }
{
    let Ok(leaf) = u16::try_from(number) else {
        return None;
    };
    match leaf_of(queries, query, leaf) {
        Some(_) => Some(leaf),
        None => None,
    }
}

/// The name of the query.
fn name_of(queries: &[Query], query: u16) -> &[u8]
    requires { query < length queries.now }
    ensures { result.now ≡ query_name (slice_get queries.now query) }
{
    queries[query as usize].name().bytes()
}

/// What stands behind the query's name and a space.
fn behind_name<'a>(queries: &[Query], query: u16, text: &'a [u8]) -> Option<&'a [u8]>
    requires { query < length queries.now }
    ensures { MatchOption result
        ((rest : List ℕ) → text.entry.now ≡ query_name (slice_get queries.now query)
        ++ (32 ∷ rest) → ⊥)
        (λ rest. text.entry.now ≡ query_name (slice_get queries.now query) ++ (32 ∷ rest.now)) }
{
    let Some(behind) = rest_of(text, name_of(queries, query)) else {
        return None;
    };
    let Some(rest) = rest_of(behind, b" ") else {
        return None;
    };
    Some(rest)
}

/// The leaf of the query that the text names, and what stands behind it.
fn read_leaf<'a>(queries: &[Query], query: u16, text: &'a [u8]) -> Option<(u16, &'a [u8])>
    requires { query < length queries.now }
    ensures { MatchOption result (NamesNoLeaf queries.now query text.entry.now)
        (λ found. NamesLeaf queries.now query text.entry.now found.0 found.1.now) }
{
    let Some(behind) = behind_name(queries, query, text) else {
        return None;
    };
    let (word, rest) = first_word(behind);
    let Some(number) = read_number(word) else {
        return None;
    };
    let Some(leaf) = leaf_place(queries, query, number) else {
        return None;
    };
    Some((leaf, rest))
}

/// The answer of the query that is to be shown, of which the text stands behind the words.
fn read_answer_of(
    alloc: Global,
    ontology: &Ontology,
    queries: &[Query],
    query: u16,
    text: &[u8],
) -> Result<Option<Goal>, Memory>
    requires { query < length queries.now }
    ensures { IfOk result (λ read. MatchOption read
        (IsNoAnswerOf ontology.now queries.now query text.now)
        (λ goal. IsAsked ontology.now queries.now goal × (codes "proof answer " ++ text.now
        ≡ goal_text ontology.now.individuals queries.now goal))) }
{
    let Some((leaf, rest)) = read_leaf(queries, query, text) else {
        return Ok(None);
    };
    match read_row(alloc, ontology, rest)? {
        Some(row) => Ok(Some(Goal::Answer { query, leaf, row })),
        None => Ok(None),
    }
}

/// The answer that is to be shown, of which the text stands behind the words.
fn read_answer(
    alloc: Global,
    ontology: &Ontology,
    queries: &[Query],
    text: &[u8],
) -> Result<Option<Goal>, Memory>
    ensures { IfOk result (λ read. MatchOption read
        (IsNoGoal ontology.now queries.now (codes "proof answer " ++ text.now))
        (λ goal. IsAsked ontology.now queries.now goal × (codes "proof answer " ++ text.now
        ≡ goal_text ontology.now.individuals queries.now goal))) }
{
    for place in 0..queries.len() {
        let Ok(query) = u16::try_from(place) else {
            return Ok(None);
        };
        if let Some(goal) = read_answer_of(alloc, ontology, queries, query, text)? {
            return Ok(Some(goal));
        }
    }
    Ok(None)
}

/// The number of the clash that is to be shown, where there is one of that number.
fn read_known_clash(ontology: &Ontology, line: &[u8]) -> Option<u32>
    ensures { MatchOption result (IsNoKnownClash ontology.now line.now)
        (λ n. IsSome (clash_of ontology.now.clashes n) × (line.now ≡ clash_text n)) }
{
    let Some(number) = read_clash(line) else {
        return None;
    };
    match clash_at(ontology, number) {
        Some(_) => Some(number),
        None => None,
    }
}

/// What is to be shown by the first line of a proof, and `None` where it is no such line, or names
/// no leaf of the queries, no declared individual or no clash.
pub fn read_goal(
    alloc: Global,
    ontology: &Ontology,
    queries: &[Query],
    line: &[u8],
) -> Result<Option<Goal>, Memory>
    ensures { IfOk result (λ read. MatchOption read (IsNoGoal ontology.now queries.now line.now)
        (λ goal. IsAsked ontology.now queries.now goal
        × (line.now ≡ goal_text ontology.now.individuals queries.now goal))) }
{
    if let Some(text) = rest_of(line, b"proof answer ") {
        return read_answer(alloc, ontology, queries, text);
    }
    match read_known_clash(ontology, line) {
        Some(number) => Ok(Some(Goal::Clash(number))),
        None => Ok(None),
    }
}

/// How the run shows the goal by the line before a proof's last, and `None` where it is no such
/// line, or names no declared individual.
pub fn read_ending(
    alloc: Global,
    ontology: &Ontology,
    line: &[u8],
) -> Result<Option<Ending>, Memory>
    ensures { IfOk result (λ read. MatchOption read (IsNoEnding ontology.now.individuals line.now)
        (λ ending. IsToldEnding ontology.now.individuals ending
        × (line.now ≡ ending_text ontology.now.individuals ending))) }
{
    if let Some(words) = rest_of(line, b"match") {
        return match read_elements(alloc, ontology, words)? {
            Some(elements) => Ok(Some(Ending::Match(Items::from_vec(elements)))),
            None => Ok(None),
        };
    }
    match read_places(line) {
        Some((first, second)) => Ok(Some(Ending::Places(first, second))),
        None => Ok(None),
    }
}
