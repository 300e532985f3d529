//! What is written of a monitor that is suspended.

use dl_syntax::Name;
use formula_store::Link;
use std::marker::Model;

/// So many tuples in a row have the list with this number.
#[derive(Clone, Copy, PartialEq, Eq, Debug)]
pub struct Stretch {
    /// How many tuples.
    pub count: u64,
    /// The number of their list.
    pub list: u64,
}

/// What is kept of a node.
#[derive(Drop)]
pub struct Node {
    /// Its place in the query's node table.
    pub place: u16,
    /// The lists of the tuples, in rising order of the tuples.
    pub stretches: Vec<Stretch>,
}

impl Model for Node {
    ghost use Rattle.checkpoint_text.specs.Suspended.{NodeLists};

    ghost Value = { NodeLists };

    ghost view = { λ n. record { place = n.place; stretches = n.stretches.items } };
}

/// What is kept of a query's nodes, by rising place.
#[derive(Drop)]
pub struct Nodes {
    pub nodes: Vec<Node>,
}

impl Model for Nodes {
    ghost use Rattle.std.specs.Prelude.{List};
    ghost use Rattle.checkpoint_text.specs.Suspended.{NodeLists};

    ghost Value = { List NodeLists };

    ghost view = { λ n. n.nodes.items };
}

/// What is written of a monitor that is suspended.
#[derive(Drop)]
pub struct Checkpoint {
    /// The names that came with the stream, in order of declaration; `None` where no further name
    /// may come.
    pub names: Option<Vec<Name>>,
    /// How many snapshots were accepted, or the greatest number where there were more.
    pub accepted: u64,
    /// The antichains that are kept, each once, in order of first occurrence.
    pub lists: Vec<Link>,
    /// For each query what is kept of its nodes.
    pub queries: Vec<Nodes>,
}

impl Model for Checkpoint {
    ghost use Rattle.std.specs.Option.{option_map};
    ghost use Rattle.checkpoint_text.specs.Suspended.{Suspended};

    ghost Value = { Suspended };

    ghost view = { λ c. record {
      names = option_map (λ names. names.items) c.names;
      accepted = c.accepted;
      lists = c.lists.items;
      queries = c.queries.items;
    } };
}
