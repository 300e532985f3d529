//! The stretches of a node.

ghost use Rattle.std.specs.Prelude.{◌≡◌, ◌≤◌, ◌<◌, ◌↔◌, ◌++◌, ℕ, List, length, flat_map, IsTrue};
ghost use Rattle.std.specs.Prelude.{◌∷◌, ◌^◌, MatchOption, IfOk, slice_index_or, [], decimal};
ghost use Rattle.std.specs.List.{All, sum_by};
ghost use Rattle.tcq_syntax.specs.End.{Inside, future_set};
ghost use Rattle.tcq_syntax.specs.Formula.{formula_at};
ghost use Rattle.checkpoint_text.specs.declared.checkpoint.Stretch.{Stretch};
ghost use Rattle.checkpoint_text.specs.Suspended.{AreApart, AreInOrder, AreStretches, numbers_in};
ghost use Rattle.checkpoint_text.specs.Suspended.{seen_behind};
ghost use Rattle.checkpoint_text.specs.Text.{stretch_text};
ghost use Rattle.checkpoint_reader.specs.Lines.{AreSmall, EndsWord, HasNoStretch, IsNoStretches};

use crate::words::{rest_of, split_at, word_of};
use checkpoint_text::{Stretch, read_number};
use dl_syntax::Memory;
use formula_store::Link;
use std::alloc::Global;
use tcq_syntax::Query;

/// The two numbers, separated by a colon, that the word is.
fn stretch_of(word: &[u8]) -> Option<Stretch>
    ensures { MatchOption result ((s : Stretch) → s.count < 2 ^ 64 → s.list < 2 ^ 64
        → word.now ≡ decimal s.count ++ 58 ∷ decimal s.list → ⊥) (λ s.
        word.now ≡ decimal s.count ++ 58 ∷ decimal s.list) }
{
    let Some((first, second)) = split_at(word, b':') else {
        return None;
    };
    let Some(count) = read_number(first) else {
        return None;
    };
    let Some(list) = read_number(second) else {
        return None;
    };
    Some(Stretch { count, list })
}

/// The stretch with which the text begins, and what comes behind it.
fn first_stretch(text: &[u8]) -> Option<(Stretch, &[u8])>
    ensures { MatchOption result (HasNoStretch text.now) (λ r.
        (text.now ≡ stretch_text r.0 ++ r.1.now) × EndsWord r.1.now) }
{
    let Some(rest) = rest_of(text, b" ") else {
        return None;
    };
    let (word, behind) = word_of(rest);
    let Some(stretch) = stretch_of(word) else {
        return None;
    };
    Some((stretch, behind))
}

/// The stretches that the text is.
pub(crate) fn read_stretches(alloc: Global, text: &[u8]) -> Result<Option<Vec<Stretch>>, Memory>
    ensures { IfOk result (λ r. MatchOption r (IsNoStretches text.now) (λ stretches.
        (text.now ≡ flat_map stretch_text stretches.items) × AreSmall stretches.items)) }
{
    let mut stretches = Vec::new(alloc);
    let mut rest = text;
    while let Some((stretch, behind)) = first_stretch(rest) {
        stretches.push(stretch)?;
        rest = behind;
    }
    if rest.is_empty() {
        Ok(Some(stretches))
    } else {
        Ok(None)
    }
}

/// Whether the stretches have a tuple each, and so many in all.
fn add_up(stretches: &[Stretch], tuples: u64) -> bool
    ensures { IsTrue result ↔ All (λ s. 0 < s.count) stretches.now
        × (sum_by (λ s. s.count) stretches.now ≡ tuples) }
{
    let mut left = tuples;
    for stretch in stretches {
        if stretch.count == 0 || stretch.count > left {
            return false;
        }
        left -= stretch.count;
    }
    left == 0
}

/// Whether neighbours have different lists.
fn are_apart(stretches: &[Stretch]) -> bool
    ensures { IsTrue result ↔ AreApart stretches.now }
{
    for place in 1..stretches.len() {
        if stretches[place - 1].list == stretches[place].list {
            return false;
        }
    }
    true
}

/// Whether each set of the antichain lies inside.
fn is_within(link: &Link, own: u8) -> bool
    ensures { IsTrue result ↔ All (λ set. Inside set own) link.now }
{
    link.antichain().sets().iter().all(|set| set & own == *set)
}

/// Whether the list of the stretch is there, and its sets lie inside.
fn has_list_within(links: &[Link], own: u8, stretch: &Stretch) -> bool
    ensures { IsTrue result ↔ (stretch.now.list < length links.now)
        × All (λ set. Inside set own) (slice_index_or links.now stretch.now.list []) }
{
    stretch.list < links.len() as u64 && is_within(&links[stretch.list as usize], own)
}

/// Whether the lists of all stretches are there, and their sets lie inside.
fn have_lists_within(links: &[Link], own: u8, stretches: &[Stretch]) -> bool
    ensures { IsTrue result ↔ All (λ s. (s.list < length links.now)
        × All (λ set. Inside set own) (slice_index_or links.now s.list [])) stretches.now }
{
    stretches
        .iter()
        .all(|stretch| has_list_within(links, own, stretch))
}

/// How many lists have occurred behind the stretches, if so many had before, where each first
/// occurs behind all before it.
fn seen_after(seen: u64, stretches: &[Stretch]) -> Option<u64>
    requires { All (λ s. s.list < 2 ^ 63) stretches.now }
    ensures { MatchOption result (AreInOrder seen (numbers_in stretches.now) → ⊥) (λ later.
        AreInOrder seen (numbers_in stretches.now)
        × (later ≡ seen_behind seen (numbers_in stretches.now))) }
{
    let mut later = seen;
    for stretch in stretches {
        if stretch.list > later {
            return None;
        }
        if stretch.list == later {
            later = stretch.list + 1;
        }
    }
    Some(later)
}

/// How many lists have occurred behind the stretches, where they may stand on the line of the node
/// that is wanted.
pub(crate) fn fitting(
    links: &[Link],
    query: &Query,
    wanted: Wanted,
    stretches: &[Stretch],
) -> Option<u64>
    requires { wanted.own ≡ future_set (formula_at query.now.nodes wanted.at) }
    ensures { MatchOption result
        (AreStretches links.now query.now wanted.tuples wanted.at stretches.now →
        AreInOrder wanted.seen (numbers_in stretches.now) → ⊥) (λ later.
        AreStretches links.now query.now wanted.tuples wanted.at stretches.now
        × AreInOrder wanted.seen (numbers_in stretches.now)
        × (later ≡ seen_behind wanted.seen (numbers_in stretches.now))) }
{
    if !add_up(stretches, wanted.tuples) || !are_apart(stretches) {
        return None;
    }
    if !have_lists_within(links, wanted.own, stretches) {
        return None;
    }
    seen_after(wanted.seen, stretches)
}

/// What is wanted of the stretches of a node.
#[derive(Clone, Copy)]
pub(crate) struct Wanted {
    /// The place of the node.
    pub at: u16,
    /// The future nodes of its part of the formula.
    pub own: u8,
    /// How many tuples there are.
    pub tuples: u64,
    /// How many lists have occurred before.
    pub seen: u64,
}
