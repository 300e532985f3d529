//! The future nodes of each node's part of the formula.

ghost use Rattle.std.specs.Prelude.{◌≡◌, ◌+◌, ◌<◌, ◌≤◌, true, cond, length, slice_index_or};
ghost use Rattle.std.specs.List.{count_by};
ghost use Rattle.tcq_syntax.specs.Formula.{is_future, HasChildrenBelow, IsTable};
ghost use Rattle.checkpoint_reader.specs.OwnSets.{joined_set, AreOwnSets};

use tcq_syntax::Node;

/// The number of the next future node.
fn next_number(number: u8, node: &Node) -> u8
    requires { number < 255 }
    ensures { result ≡ number + cond (is_future node.now) 1 0 }
{
    if node.is_future() { number + 1 } else { number }
}

/// The set of the future nodes of a node's part of the formula, from those of its children.
fn joined_set(node: &Node, number: u8, sets: &[u8]) -> u8
    requires children { HasChildrenBelow (length sets.now) node.now }
    requires number { is_future node.now ≡ true → number < 8 }
    ensures { result ≡ joined_set number (λ c. slice_index_or sets.now c 0) node.now }
{
    match node {
        Node::True | Node::False | Node::Leaf(_) => 0,
        Node::And(f, g) | Node::Or(f, g) | Node::Since(f, g) => {
            sets[*f as usize] | sets[*g as usize]
        }
        Node::Prev(f) | Node::WeakPrev(f) | Node::Once(f) | Node::Historically(f) => {
            sets[*f as usize]
        }
        Node::Next(f) | Node::WeakNext(f) | Node::Eventually(f) | Node::Always(f) => {
            1 << number | sets[*f as usize]
        }
        Node::Until(f, g) => 1 << number | (sets[*f as usize] | sets[*g as usize]),
    }
}

/// The set of the future nodes of each node's part of the formula.
pub(crate) fn own_sets(nodes: &[Node]) -> [u8; 64]
    requires table { IsTable nodes.now }
    requires small { length nodes.now ≤ 64 }
    requires futures { count_by is_future nodes.now ≤ 8 }
    ensures { AreOwnSets nodes.now (length nodes.now) result }
{
    let mut sets = [0; 64];
    let mut number = 0;
    for place in 0..nodes.len() {
        sets[place] = joined_set(&nodes[place], number, &sets);
        number = next_number(number, &nodes[place]);
    }
    sets
}
