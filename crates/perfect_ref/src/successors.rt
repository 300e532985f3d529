//! The queries to which one step leads.

ghost use Rattle.std.specs.Prelude.{◌≡◌, ◌++◌, ◌<◌, ℕ, length, OnOk};
ghost use Rattle.std.specs.List.{All};
ghost use Rattle.dl_syntax.specs.Encode.{IsUnqualified};
ghost use Rattle.dl_syntax.specs.Queries.{IsQuery};
ghost use Rattle.query_unify.specs.Reach.{Replaces, Reduces, Step};
ghost use Rattle.perfect_ref.specs.Found.{Gains, Somewhere, IsReplacement, IsNullReplacement};
ghost use Rattle.perfect_ref.specs.Found.{IsReductAt, IsReduct};

use crate::rules::Rules;
use dl_syntax::{Cq, Inclusion, Memory};
use query_unify::{reduce, step};
use std::alloc::Global;
use worklist::Transition;

/// Adds what the inclusion makes of the query at the place.
fn push_replacement(
    alloc: Global,
    inclusion: &Inclusion,
    cq: &Cq,
    place: u16,
    out: &mut Vec<Cq>,
) -> Result<(), Memory>
    requires query { IsQuery cq.now }
    requires within { place < length cq.now.body }
    requires unqualified { IsUnqualified inclusion.now }
    ensures { OnOk result (Gains (Replaces inclusion.now place cq.now) out.old.items
        out.new.items) }
{
    match step(alloc, cq, inclusion, place)? {
        Some(next) => {
            out.push(next)?;
            Ok(())
        }
        None => Ok(()),
    }
}

/// Adds what the inclusions make of the query at the place.
fn push_replacements(
    alloc: Global,
    inclusions: &[Inclusion],
    cq: &Cq,
    place: u16,
    out: &mut Vec<Cq>,
) -> Result<(), Memory>
    requires query { IsQuery cq.now }
    requires within { place < length cq.now.body }
    requires unqualified { All IsUnqualified inclusions.now }
    ensures { OnOk result (Gains (IsReplacement inclusions.now cq.now place) out.old.items
        out.new.items) }
{
    for inclusion in inclusions {
        push_replacement(alloc, inclusion, cq, place, out)?;
    }
    Ok(())
}

/// Adds what the reduce of the two places makes of the query.
fn push_reduct(
    alloc: Global,
    cq: &Cq,
    first: u16,
    second: u16,
    out: &mut Vec<Cq>,
) -> Result<(), Memory>
    requires query { IsQuery cq.now }
    requires order { first < second }
    requires within { second < length cq.now.body }
    ensures { OnOk result (Gains (Reduces first second cq.now) out.old.items out.new.items) }
{
    match reduce(alloc, cq, first, second)? {
        Some(next) => {
            out.push(next)?;
            Ok(())
        }
        None => Ok(()),
    }
}

/// Adds what the reduces of a pair of places with this second one make of the query.
fn push_reducts_at(alloc: Global, cq: &Cq, second: u16, out: &mut Vec<Cq>) -> Result<(), Memory>
    requires query { IsQuery cq.now }
    requires within { second < length cq.now.body }
    ensures { OnOk result (Gains (IsReductAt cq.now second) out.old.items out.new.items) }
{
    for first in 0..second {
        push_reduct(alloc, cq, first, second, out)?;
    }
    Ok(())
}

/// Adds what the reduces make of the query.
fn push_reducts(alloc: Global, cq: &Cq, out: &mut Vec<Cq>) -> Result<(), Memory>
    requires { IsQuery cq.now }
    ensures { OnOk result (Gains (IsReduct cq.now) out.old.items out.new.items) }
{
    let count = cq.body.as_slice().len();
    for second in 0..count {
        push_reducts_at(alloc, cq, second as u16, out)?;
    }
    Ok(())
}

/// Adds what the inclusions make of the query at the place.
fn push_at(rules: &Rules, cq: &Cq, place: u16, out: &mut Vec<Cq>) -> Result<(), Memory>
    requires query { IsQuery cq.now }
    requires within { place < length cq.now.body }
    ensures { OnOk result (Gains (IsReplacement rules.now cq.now place) out.old.items
        out.new.items) }
{
    let atom = &cq.body.as_slice()[place as usize];
    push_replacements(rules.alloc(), rules.candidates(atom), cq, place, out)?;
    push_replacements(rules.alloc(), rules.null_makers(atom), cq, place, out)
}

/// Adds what the inclusions make of the query.
fn push_everywhere(rules: &Rules, cq: &Cq, out: &mut Vec<Cq>) -> Result<(), Memory>
    requires { IsQuery cq.now }
    ensures { OnOk result (Gains (Somewhere (IsReplacement rules.now cq.now) (length cq.now.body))
        out.old.items out.new.items) }
{
    let count = cq.body.as_slice().len();
    for place in 0..count {
        push_at(rules, cq, place as u16, out)?;
    }
    Ok(())
}

/// Adds what the inclusions that make nulls make of the query at the place.
fn push_with_null_at(rules: &Rules, cq: &Cq, place: u16, out: &mut Vec<Cq>) -> Result<(), Memory>
    requires query { IsQuery cq.now }
    requires within { place < length cq.now.body }
    ensures { OnOk result (Gains (IsNullReplacement rules.now cq.now place) out.old.items
        out.new.items) }
{
    let atom = &cq.body.as_slice()[place as usize];
    push_replacements(rules.alloc(), rules.null_makers(atom), cq, place, out)
}

/// Adds what the inclusions that make nulls make of the query.
pub(crate) fn push_with_nulls(rules: &Rules, cq: &Cq, out: &mut Vec<Cq>) -> Result<(), Memory>
    requires { IsQuery cq.now }
    ensures { OnOk result (Gains (Somewhere (IsNullReplacement rules.now cq.now)
        (length cq.now.body)) out.old.items out.new.items) }
{
    let count = cq.body.as_slice().len();
    for place in 0..count {
        push_with_null_at(rules, cq, place as u16, out)?;
    }
    Ok(())
}

impl Transition<Cq> for Rules {
    ghost use Rattle.dl_syntax.specs.Queries.{IsQuery};
    ghost use Rattle.query_unify.specs.Reach.{Step};

    ghost step = { λ inclusions q r. Step inclusions q r };

    ghost valid = { λ _ q. IsQuery q };

    fn push_next(&self, state: &Cq, out: &mut Vec<Cq>) -> Result<(), Memory> {
        push_everywhere(self, state, out)?;
        push_reducts(self.alloc(), state, out)
    }
}
