//! Where a query holds, position by position.

ghost use Rattle.std.specs.Prelude.{◌≡◌, ◌<◌, ◌≤◌, ◌↔◌, ℕ, EachIndex, IsTrue, SomeIndex, length};
ghost use Rattle.std.specs.Prelude.{take};
ghost use Rattle.std.specs.List.{All};
ghost use Rattle.tcq_syntax.specs.Formula.{Formula, formula_of, formula_at, HasChildrenBelow};
ghost use Rattle.tcq_syntax.specs.Formula.{IsTable};
ghost use Rattle.step_examples.specs.Plain.{Answers, AreRows, is_of_first, LeafAsksForMembers};
ghost use Rattle.step_examples.specs.Plain.{HoldsIn, HoldsLast, AsksForMembers, IsSet, IsSince};
ghost use Rattle.step_examples.specs.Plain.{IsUntil, Tells};

use dl_syntax::{Atom, Cq};
use tcq_syntax::Node;

/// Whether the individual is in A and in B at a position.
pub type Fact = (bool, bool);

// Whether the atom is of the concept A.
fn is_of_first(atom: &Atom) -> bool
    ensures { result ≡ is_of_first atom.now }
{
    match atom {
        Atom::Concept(concept, _) => concept.0 == 0,
        Atom::Role(..) => false,
    }
}

/// Whether the individual answers a query for the members of A or of B.
pub fn leaf_holds(q: &Cq, fact: Fact) -> bool
    ensures { AsksForMembers q.now → IsTrue result ↔ Answers fact q.now }
{
    match q.body.as_slice() {
        [atom] if is_of_first(atom) => fact.0,
        _ => fact.1,
    }
}

fn all(row: &[bool]) -> bool
    ensures { IsTrue result ↔ EachIndex row.now (λ k. IsSet row.now k) }
{
    row.iter().all(|held| *held)
}

fn any(row: &[bool]) -> bool
    ensures { IsTrue result ↔ SomeIndex row.now (λ k. IsSet row.now k) }
{
    row.iter().any(|held| *held)
}

// The second at some position, and the first at each before it.
fn until(f: &[bool], g: &[bool]) -> bool
    requires same { length f.now ≡ length g.now }
    ensures { IsTrue result ↔ IsUntil f.now g.now }
{
    for place in 0..g.len() {
        if g[place] && all(&f[..place]) {
            return true;
        }
    }
    false
}

// The second at some position, and the first at each after it.
fn since(f: &[bool], g: &[bool]) -> bool
    requires same { length f.now ≡ length g.now }
    ensures { IsTrue result ↔ IsSince f.now g.now }
{
    for place in 0..g.len() {
        if g[place] && all(&f[place + 1..]) {
            return true;
        }
    }
    false
}

// Whether the node holds at the position. A child's row tells where it holds.
fn holds_at(node: &Node, rows: &[[bool; 4]], facts: &[Fact], i: usize) -> bool
    requires children { HasChildrenBelow (length rows.now) node.now }
    requires few { length facts.now ≤ 4 }
    requires within { i < length facts.now }
    ensures { (child : ℕ → Formula) (number : ℕ) → AreRows facts.now child rows.now
        → LeafAsksForMembers node.now
        → IsTrue result ↔ HoldsIn facts.now (formula_of child number node.now) i }
{
    let n = facts.len();
    match node {
        Node::True => true,
        Node::False => false,
        Node::Leaf(q) => leaf_holds(q, facts[i]),
        Node::And(f, g) => rows[*f as usize][i] && rows[*g as usize][i],
        Node::Or(f, g) => rows[*f as usize][i] || rows[*g as usize][i],
        Node::Next(f) => i + 1 < n && rows[*f as usize][i + 1],
        Node::WeakNext(f) => i + 1 == n || rows[*f as usize][i + 1],
        Node::Prev(f) => i > 0 && rows[*f as usize][i - 1],
        Node::WeakPrev(f) => i == 0 || rows[*f as usize][i - 1],
        Node::Until(f, g) => until(&rows[*f as usize][i..n], &rows[*g as usize][i..n]),
        Node::Since(f, g) => since(&rows[*f as usize][..i + 1], &rows[*g as usize][..i + 1]),
        Node::Eventually(f) => any(&rows[*f as usize][i..n]),
        Node::Always(f) => all(&rows[*f as usize][i..n]),
        Node::Once(f) => any(&rows[*f as usize][..i + 1]),
        Node::Historically(f) => all(&rows[*f as usize][..i + 1]),
    }
}

// The node's row.
fn row_of(node: &Node, rows: &[[bool; 4]], facts: &[Fact]) -> [bool; 4]
    requires children { HasChildrenBelow (length rows.now) node.now }
    requires few { length facts.now ≤ 4 }
    ensures { (child : ℕ → Formula) (number : ℕ) → AreRows facts.now child rows.now
        → LeafAsksForMembers node.now → Tells facts.now (formula_of child number node.now) result }
{
    let mut row = [false; 4];
    for i in 0..facts.len() {
        row[i] = holds_at(node, rows, facts, i);
    }
    row
}

// The row of each node, by its place.
fn rows_of(nodes: &[Node], facts: &[Fact]) -> [[bool; 4]; 64]
    requires table { IsTable nodes.now }
    requires small { length nodes.now ≤ 64 }
    requires few { length facts.now ≤ 4 }
    ensures { All LeafAsksForMembers nodes.now
        → AreRows facts.now (formula_at nodes.now) (take (length nodes.now) result) }
{
    let mut rows = [[false; 4]; 64];
    for (place, node) in nodes.iter().enumerate() {
        rows[place] = row_of(node, &rows[..place], facts);
    }
    rows
}

/// Whether the query's root holds at the last position of a history of at most four. Where there is
/// no position, it does not.
pub fn holds_last(nodes: &[Node], facts: &[Fact]) -> bool
    requires table { IsTable nodes.now }
    requires small { length nodes.now ≤ 64 }
    requires few { length facts.now ≤ 4 }
    ensures { All LeafAsksForMembers nodes.now → IsTrue result ↔ HoldsLast nodes.now facts.now }
{
    if nodes.is_empty() || facts.is_empty() {
        return false;
    }
    let rows = rows_of(nodes, facts);
    rows[nodes.len() - 1][facts.len() - 1]
}
