//! Whether tables, and what they are made of, are the same.

ghost use Rattle.std.specs.Prelude.{◌≡◌, true};

use crate::combine::Operation;
use crate::ranking::Ranking;
use crate::run::Run;
use crate::table::Table;
use dl_syntax::Tuples;
use formula_store::Link;

/// Whether the links have the same antichains in the same order.
pub fn are_same_links(a: &[Link], b: &[Link]) -> bool
    ensures { result ≡ true → a.now ≡ b.now }
{
    a == b
}

/// Whether two runs are equal.
fn is_same_run(a: Run, b: Run) -> bool
    ensures { result ≡ true → a ≡ b }
{
    a.end == b.end && a.link == b.link
}

/// Whether the runs are equal.
fn are_same_runs(a: &[Run], b: &[Run]) -> bool
    ensures { result ≡ true → a.now ≡ b.now }
{
    if a.len() != b.len() {
        return false;
    }
    for i in 0..a.len() {
        if !is_same_run(a[i], b[i]) {
            return false;
        }
    }
    true
}

/// Whether the numbers are equal.
pub fn are_same_bytes(a: &[u8], b: &[u8]) -> bool
    ensures { result ≡ true → a.now ≡ b.now }
{
    a == b
}

/// Whether the ranks are told in the same way.
fn are_same_ranks(a: &Ranking, b: &Ranking) -> bool
    ensures { result ≡ true → a.now ≡ b.now }
{
    are_same_runs(a.runs.as_slice(), b.runs.as_slice())
        && are_same_bytes(a.bytes.as_slice(), b.bytes.as_slice())
}

/// Whether the rows are equal.
pub fn are_same_rows(a: &Tuples, b: &Tuples) -> bool
    ensures { result ≡ true → a.now ≡ b.now }
{
    *a == *b
}

/// Whether the operations are the same.
pub fn is_same_operation(a: Operation, b: Operation) -> bool
    ensures { result ≡ true → a ≡ b }
{
    match (a, b) {
        (Operation::Or, Operation::Or) => true,
        (Operation::And, Operation::And) => true,
        _ => false,
    }
}

/// Whether each table is the same as the other at its place.
pub fn are_same(a: &[Table], b: &[Table]) -> bool
    ensures { result ≡ true → a.now ≡ b.now }
{
    if a.len() != b.len() {
        return false;
    }
    for i in 0..a.len() {
        if !a[i].is_same(&b[i]) {
            return false;
        }
    }
    true
}

impl Table {
    /// Whether the tables are told in the same way, and so equal.
    pub(crate) fn is_same(&self, other: &Table) -> bool
        ensures { result ≡ true → self.now ≡ other.now }
    {
        self.slots == other.slots
            && self.arity == other.arity
            && are_same_links(self.links.as_slice(), other.links.as_slice())
            && are_same_ranks(self.ranks.as_ref(), other.ranks.as_ref())
    }
}
