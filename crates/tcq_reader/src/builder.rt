//! Queries as they are built, token by token.

ghost use Rattle.std.specs.Prelude.{◌≡◌, ◌+◌, ◌<◌, ◌≤◌, length};
ghost use Rattle.std.specs.List.{list_any};
ghost use Rattle.std.specs.Str.{bytes_eq};
ghost use Rattle.tcq_grammar.specs.Symbols.{symbol};
ghost use Rattle.tcq_grammar.specs.Words as words;
ghost use Rattle.tcq_syntax.specs.Sizes as sizes;
ghost use Rattle.tcq_syntax.specs.Tcq.{IsTcq};
ghost use Rattle.tcq_reader.specs.Drafting.{marked, GivesTo, Answers};
ghost use Rattle.tcq_reader.specs.Acting.{build, begun, answered, wanted, word_wanted, had};
ghost use Rattle.tcq_reader.specs.Acting.{word_had, finished, query_added, word_added, atom_ended};
ghost use Rattle.tcq_reader.specs.Acting.{leaf_ended, acted, nothing_built, EndsAsQuery, IsSound};
ghost use Rattle.tcq_reader.specs.Acting.{EndsAt};

use crate::faults::{QueryKind, Stop};
use crate::leaf::LeafBuilder;
use crate::table::TableBuilder;
use dl_syntax::{Kind, Name, Ontology};
use std::alloc::Global;
use tcq_grammar::{Keyword, Mode, keyword_of};
use tcq_syntax::{Node, Query, sizes};
use text_scan::{Token, TokenKind};

/// The most queries of a file.
const QUERY_LIMIT: usize = 16;
/// The most nodes of a query.
const NODE_LIMIT: usize = 64;
/// The most future nodes of a query.
const FUTURE_LIMIT: usize = 8;
/// The most units of all queries.
const UNIT_LIMIT: u128 = 67_108_864;

/// Builds the queries of a file token by token.
#[derive(Debug, Drop)]
pub(crate) struct Builder<'a> {
    alloc: Global,
    queries: Vec<Query>,
    /// The units of the queries.
    total: u128,
    name: &'a [u8],
    leaf: LeafBuilder<'a>,
    table: TableBuilder,
    /// The predicate and the terms of an atom that is not yet complete.
    words: Vec<Token<'a>>,
}

fn count_futures(nodes: &[Node]) -> usize
    ensures { result ≡ sizes.futures nodes.now }
{
    nodes.iter().filter(|node| node.is_future()).count()
}

impl<'a> Builder<'a> {
    pub(crate) fn new(alloc: Global) -> Builder<'a>
        ensures { build result ≡ nothing_built }
    {
        Builder {
            alloc,
            queries: Vec::new(alloc),
            total: 0,
            name: b"".as_slice(),
            leaf: LeafBuilder::new(alloc),
            table: TableBuilder::new(alloc),
            words: Vec::new(alloc),
        }
    }

    /// The queries of the file.
    pub(crate) fn into_queries(self) -> Vec<Query>
        ensures { result.items ≡ (build self.entry).queries }
    {
        self.queries
    }

    /// Whether one of the queries has the name.
    fn has_query(&self, text: &[u8]) -> bool
        ensures { result ≡ list_any (λ q. bytes_eq q.name text.now) (build self.now).queries }
    {
        self.queries
            .iter()
            .any(|query| query.name().bytes() == text)
    }

    /// A query's name.
    fn begin(&mut self, token: &Token<'a>) -> Result<(), Stop>
        ensures { Answers (begun (build self.old) (marked token.now)) result (build self.new) }
    {
        if self.queries.len() >= QUERY_LIMIT {
            return Err(Stop::At(token.start, QueryKind::TooMany));
        }
        if self.has_query(token.text) {
            return Err(Stop::At(token.start, QueryKind::NameTwice));
        }
        self.name = token.text;
        Ok(())
    }

    /// A token in an answer list.
    fn answer(&mut self, token: &Token<'a>) -> Result<(), Stop>
        requires { (build self.old).leaf.vars ≤ 4 }
        ensures { Answers (answered (build self.old) (marked token.now) (symbol token.now)) result
            (build self.new) }
    {
        if token.kind != TokenKind::Var {
            return Ok(());
        }
        self.leaf.add_answer(token.text, token.start)
    }

    /// A name where a formula is to come.
    fn want_word(&mut self, text: &[u8]) -> Result<(), Stop>
        ensures { Answers (word_wanted (build self.old) (words.keyword_of text.now)) result
            (build self.new) }
    {
        let outcome = match keyword_of(text) {
            Keyword::True => self.table.operand(Node::True),
            Keyword::False => self.table.operand(Node::False),
            Keyword::Unary(op) => self.table.begin_operand(op),
            _ => Ok(()),
        };
        match outcome {
            Ok(()) => Ok(()),
            Err(_) => Err(Stop::Memory),
        }
    }

    /// A token where a formula is to come.
    fn want(&mut self, token: &Token<'a>) -> Result<(), Stop>
        ensures { Answers (wanted (build self.old) (symbol token.now)) result (build self.new) }
    {
        match token.kind {
            TokenKind::Name => self.want_word(token.text),
            TokenKind::Open => match self.table.open() {
                Ok(()) => Ok(()),
                Err(_) => Err(Stop::Memory),
            },
            _ => Ok(()),
        }
    }

    /// Puts the query last, whose end is at the place, unless the units grow too large.
    fn add_query(&mut self, query: Query, individuals: u32, start: usize) -> Result<(), Stop>
        requires few { individuals ≤ 65536 }
        requires sound { IsSound individuals (build self.old) }
        requires valid { IsTcq query.vars query.nodes }
        ensures { Answers (query_added individuals (build self.old) query start) result
            (build self.new) }
    {
        let total = self.total + sizes(&query, individuals).units;
        if total > UNIT_LIMIT {
            return Err(Stop::At(start, QueryKind::TooLarge(total)));
        }
        match self.queries.push(query) {
            Ok(()) => {
                self.total = total;
                self.name = b"".as_slice();
                self.leaf.clear();
                Ok(())
            }
            Err(_) => Err(Stop::Memory),
        }
    }

    /// The semicolon of a query, at the place.
    fn finish(&mut self, individuals: u32, start: usize) -> Result<(), Stop>
        requires few { individuals ≤ 65536 }
        requires sound { IsSound individuals (build self.old) }
        requires query { EndsAsQuery (build self.old) }
        ensures { Answers (finished individuals (build self.old) start) result (build self.new) }
    {
        let nodes = self.table.finish()?;
        if nodes.len() > NODE_LIMIT || count_futures(nodes.as_slice()) > FUTURE_LIMIT {
            return Err(Stop::At(start, QueryKind::TooMany));
        }
        let name = Name::new(self.alloc, self.name)?;
        let query = Query::new(name, self.leaf.vars(), nodes);
        self.add_query(query, individuals, start)
    }

    /// A name where a formula has come.
    fn have_word(&mut self, text: &[u8])
        ensures { GivesTo (word_had (build self.old) (words.keyword_of text.now)) (build self.new) }
    {
        if let Keyword::Timed(op) = keyword_of(text) {
            self.table.wait_timed(op);
        }
    }

    /// A token where a formula has come.
    fn have(&mut self, ontology: &Ontology, token: &Token<'a>) -> Result<(), Stop>
        requires sound { IsSound (length ontology.now.individuals) (build self.old) }
        requires end { EndsAt Mode.Have (symbol token.now) (build self.old) }
        ensures { Answers (had (length ontology.now.individuals) (build self.old)
            (marked token.now) (symbol token.now)) result (build self.new) }
    {
        match token.kind {
            TokenKind::Name => self.have_word(token.text),
            TokenKind::Amp => self.table.wait_both()?,
            TokenKind::Bar => self.table.wait_either()?,
            TokenKind::Close => self.table.close()?,
            TokenKind::Semi => {
                let individuals = ontology.count(Kind::Individual);
                return self.finish(individuals, token.start);
            }
            _ => {}
        }
        Ok(())
    }

    /// The predicate or a term of an atom.
    fn add_word(&mut self, token: &Token<'a>) -> Result<(), Stop>
        ensures { Answers (word_added (build self.old) (marked token.now)) result (build self.new) }
    {
        match self.words.push(*token) {
            Ok(()) => Ok(()),
            Err(_) => Err(Stop::Memory),
        }
    }

    /// A token behind a term.
    fn end_atom(&mut self, ontology: &Ontology, token: &Token<'a>) -> Result<(), Stop>
        requires { length (build self.old).leaf.seen < 50000 }
        ensures { Answers (atom_ended ontology.now (build self.old) (symbol token.now)) result
            (build self.new) }
    {
        if token.kind == TokenKind::Close {
            self.leaf.add_atom(ontology, self.words.as_slice())?;
            self.words.clear();
        }
        Ok(())
    }

    /// A token behind an atom.
    fn end_leaf(&mut self, token: &Token<'a>) -> Result<(), Stop>
        ensures { Answers (leaf_ended (build self.old) (symbol token.now)) result (build self.new) }
    {
        if token.kind == TokenKind::Unsquare {
            let query = self.leaf.finish()?;
            self.table.operand(Node::Leaf(query))?;
        }
        Ok(())
    }

    /// Takes one more token, where the reader of the grammar is in this mode.
    pub(crate) fn act(
        &mut self,
        ontology: &Ontology,
        mode: Mode,
        token: &Token<'a>,
    ) -> Result<(), Stop>
        requires sound { IsSound (length ontology.now.individuals) (build self.old) }
        requires end { EndsAt mode (symbol token.now) (build self.old) }
        ensures { Answers (acted ontology.now mode (build self.old) (marked token.now)) result
            (build self.new) }
    {
        match mode {
            Mode::AfterQuery => self.begin(token),
            Mode::InVariables => self.answer(token),
            Mode::Want => self.want(token),
            Mode::Have => self.have(ontology, token),
            Mode::WantAtom | Mode::WantFirst | Mode::WantSecond => self.add_word(token),
            Mode::AfterFirst | Mode::AfterSecond => self.end_atom(ontology, token),
            Mode::AfterAtom => self.end_leaf(token),
            _ => Ok(()),
        }
    }
}
