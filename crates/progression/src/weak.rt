//! The set of the weak nodes.

ghost use Rattle.std.specs.Prelude.{◌≡◌, ◌+◌, ◌≤◌, ◌<◌, true, length, cond};
ghost use Rattle.std.specs.List.{count_by};
ghost use Rattle.tcq_syntax.specs.Formula.{is_future};
ghost use Rattle.tcq_syntax.specs.Laws.{IsWeakSet};
ghost use Rattle.progression.specs.Step.{is_weak, with_weak};

use tcq_syntax::Node;

/// Whether the node is a weak operator.
fn is_weak(node: &Node) -> bool
    ensures { result ≡ is_weak node.now }
{
    matches!(node, Node::WeakNext(_) | Node::Always(_))
}

/// The set with the number of the node, if it is a weak operator.
fn with_weak(set: u8, number: u8, node: &Node) -> u8
    requires { is_weak node.now ≡ true → number < 8 }
    ensures { result ≡ with_weak set number node.now }
{
    if is_weak(node) {
        set | 1 << number
    } else {
        set
    }
}

/// The number of the next future node.
pub fn next_number(number: u8, node: &Node) -> u8
    requires { number < 255 }
    ensures { result ≡ number + cond (is_future node.now) 1 0 }
{
    if node.is_future() { number + 1 } else { number }
}

/// The set of the weak nodes of a table.
pub fn weak_set(nodes: &[Node]) -> u8
    requires { count_by is_future nodes.now ≤ 8 }
    ensures { IsWeakSet nodes.now result }
{
    let mut set = 0;
    let mut number = 0;
    for node in nodes {
        set = with_weak(set, number, node);
        number = next_number(number, node);
    }
    set
}
