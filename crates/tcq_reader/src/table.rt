//! A table of nodes as it is built, operator by operator.

ghost use Rattle.std.specs.Prelude.{◌≡◌, ◌<◌, ◌≤◌, vec_len, Some, None, IfSome, OnOk, IfOk};
ghost use Rattle.tcq_reader.specs.Meaning as meaning;

use dl_syntax::Memory;
use std::alloc::Global;
use tcq_grammar::{TimedOp, UnaryOp};
use tcq_syntax::Node;

/// One more than the most nodes of a query.
const KEPT_NODES: usize = 65;

const NOTHING: Places = Places {
    either: None,
    both: None,
    timed: None,
};

/// The left sides that wait for their right sides, by their places in the table.
#[derive(Clone, Copy, Debug)]
pub(crate) struct Places {
    either: Option<u16>,
    both: Option<u16>,
    timed: Option<(TimedOp, u16)>,
}

/// What is open around a formula.
#[derive(Clone, Copy, Debug)]
pub(crate) enum Frame {
    Operand(UnaryOp),
    /// A parenthesis, with what waits outside.
    Inside(Places),
}

/// Builds the node table of a formula.
#[derive(Debug, Drop)]
pub(crate) struct TableBuilder {
    alloc: Global,
    places: Places,
    frames: Vec<Frame>,
    nodes: Vec<Node>,
    ghost few: { vec_len nodes ≤ 65 },
}

fn unary_node(op: UnaryOp, operand: u16) -> Node
    ensures { result ≡ meaning.unary_node op operand }
{
    match op {
        UnaryOp::Next => Node::Next(operand),
        UnaryOp::WeakNext => Node::WeakNext(operand),
        UnaryOp::Prev => Node::Prev(operand),
        UnaryOp::WeakPrev => Node::WeakPrev(operand),
        UnaryOp::Eventually => Node::Eventually(operand),
        UnaryOp::Always => Node::Always(operand),
        UnaryOp::Once => Node::Once(operand),
        UnaryOp::Historically => Node::Historically(operand),
    }
}

fn timed_node(op: TimedOp, left: u16, right: u16) -> Node
    ensures { result ≡ meaning.timed_node op left right }
{
    match op {
        TimedOp::Until => Node::Until(left, right),
        TimedOp::Since => Node::Since(left, right),
    }
}

impl TableBuilder {
    ghost use Rattle.tcq_reader.specs.Building as building;
    ghost use Rattle.tcq_reader.specs.Building.{table, with_nodes, conjunction_nodes};
    ghost use Rattle.tcq_reader.specs.Building.{disjunction_nodes, timed_joined, with_operand};
    ghost use Rattle.tcq_reader.specs.Building.{with_op, opened, timed_waits, both_waits};
    ghost use Rattle.tcq_reader.specs.Building.{either_waits, applied, no_table, closed};

    pub(crate) fn new(alloc: Global) -> TableBuilder
        ensures { table result ≡ no_table }
    {
        TableBuilder {
            alloc,
            places: NOTHING,
            frames: Vec::new(alloc),
            nodes: Vec::new(alloc),
        }
    }

    /// Puts the node last. Behind one node too many, none is kept.
    fn put(&mut self, node: Node) -> Result<(), Memory>
        ensures { OnOk result (table self.new
            ≡ with_nodes (table self.old) (building.put (table self.old).nodes node)) }
    {
        if self.nodes.len() < KEPT_NODES {
            self.nodes.push(node)?;
        }
        Ok(())
    }

    /// The place of the node that came last.
    fn last(&self) -> u16
        ensures { result ≡ meaning.last_place (table self.now).nodes }
    {
        self.nodes.len().saturating_sub(1) as u16
    }

    /// Applies the operators whose operand came last.
    fn apply(&mut self) -> Result<(), Memory>
        ensures { OnOk result (table self.new
            ≡ applied (table self.old).places (table self.old).frames (table self.old).nodes) }
    {
        while let Some(Frame::Operand(op)) = self.frames.last() {
            let op = *op;
            let operand = self.last();
            self.put(unary_node(op, operand))?;
            self.frames.pop();
        }
        Ok(())
    }

    /// A formula that is one node.
    pub(crate) fn operand(&mut self, node: Node) -> Result<(), Memory>
        ensures { OnOk result (table self.new ≡ with_operand (table self.old) node) }
    {
        self.put(node)?;
        self.apply()
    }

    /// An operator before its operand.
    pub(crate) fn begin_operand(&mut self, op: UnaryOp) -> Result<(), Memory>
        ensures { OnOk result (table self.new ≡ with_op (table self.old) op) }
    {
        self.frames.push(Frame::Operand(op))?;
        Ok(())
    }

    /// An opening parenthesis.
    pub(crate) fn open(&mut self) -> Result<(), Memory>
        ensures { OnOk result (table self.new ≡ opened (table self.old)) }
    {
        self.frames.push(Frame::Inside(self.places))?;
        self.places = NOTHING;
        Ok(())
    }

    /// Ends what an `until` or a `since` has on its right.
    fn end_timed(&mut self) -> Result<(), Memory>
        ensures { OnOk result (table self.new ≡ with_nodes (table self.old)
            (timed_joined (table self.old).places.timed (table self.old).nodes)) }
    {
        if let Some((op, left)) = self.places.timed {
            let right = self.last();
            self.put(timed_node(op, left, right))?;
        }
        Ok(())
    }

    /// Ends a conjunction.
    fn end_conjunction(&mut self) -> Result<(), Memory>
        ensures { OnOk result (table self.new ≡ with_nodes (table self.old)
            (conjunction_nodes (table self.old).places (table self.old).nodes)) }
    {
        self.end_timed()?;
        if let Some(left) = self.places.both {
            let right = self.last();
            self.put(Node::And(left, right))?;
        }
        Ok(())
    }

    /// Ends a disjunction.
    fn end_disjunction(&mut self) -> Result<(), Memory>
        ensures { OnOk result (table self.new ≡ with_nodes (table self.old)
            (disjunction_nodes (table self.old).places (table self.old).nodes)) }
    {
        self.end_conjunction()?;
        if let Some(left) = self.places.either {
            let right = self.last();
            self.put(Node::Or(left, right))?;
        }
        Ok(())
    }

    /// The left side of an `until` or a `since` has come.
    pub(crate) fn wait_timed(&mut self, op: TimedOp)
        ensures { table self.new ≡ timed_waits (table self.old) op }
    {
        let left = self.last();
        self.places.timed = Some((op, left));
    }

    /// The left side of a `&` has come.
    pub(crate) fn wait_both(&mut self) -> Result<(), Memory>
        ensures { OnOk result (table self.new ≡ both_waits (table self.old)) }
    {
        self.end_conjunction()?;
        let left = self.last();
        self.places.both = Some(left);
        self.places.timed = None;
        Ok(())
    }

    /// The left side of a `|` has come.
    pub(crate) fn wait_either(&mut self) -> Result<(), Memory>
        ensures { OnOk result (table self.new ≡ either_waits (table self.old)) }
    {
        self.end_disjunction()?;
        let left = self.last();
        self.places = NOTHING;
        self.places.either = Some(left);
        Ok(())
    }

    /// A closing parenthesis.
    pub(crate) fn close(&mut self) -> Result<(), Memory>
        ensures { OnOk result (IfSome (closed (table self.old)) (λ t. table self.new ≡ t)) }
    {
        self.end_disjunction()?;
        if let Some(Frame::Inside(outer)) = self.frames.pop() {
            self.places = outer;
            self.apply()?;
        }
        Ok(())
    }

    /// The table of the whole formula, which the builder gives up.
    pub(crate) fn finish(&mut self) -> Result<Vec<Node>, Memory>
        ensures nodes { IfOk result (λ nodes. nodes.items
            ≡ disjunction_nodes (table self.old).places (table self.old).nodes) }
        ensures empty { OnOk result (table self.new ≡ no_table) }
    {
        self.end_disjunction()?;
        let nodes = std::mem::replace(&mut self.nodes, Vec::new(self.alloc));
        self.places = NOTHING;
        self.frames.clear();
        Ok(nodes)
    }
}
