//! A leaf as it is built, atom by atom.

ghost use Rattle.std.specs.Prelude.{◌≡◌, ◌+◌, ◌<◌, ◌≤◌, [], ◌∷◌, ◌++◌, map, length, IfOk, OnOk};
ghost use Rattle.tcq_reader.specs.Leaves as leaves;
ghost use Rattle.tcq_reader.specs.Leaves.{blank, query_of, known_as, variable_number, seen_after};
ghost use Rattle.tcq_reader.specs.Drafting.{draft, marked, with_seen, TellsPredicate, TellsTerm};
ghost use Rattle.tcq_reader.specs.Drafting.{OnName, OnTerm, Answers, one_added, two_added};
ghost use Rattle.tcq_reader.specs.Drafting.{atom_added, answer_added, emptied};
ghost use Rattle.tcq_grammar.specs.Symbols.{symbol};

use crate::faults::{QueryKind, Stop};
use dl_syntax::{Atom, ConceptId, Cq, IndId, Items, Kind, Memory, Ontology, RoleId, Term};
use std::alloc::Global;
use text_scan::{Token, TokenKind};

/// The most atoms of a leaf.
const ATOM_LIMIT: usize = 8;
/// The most answer variables of a query.
const ANSWER_LIMIT: usize = 4;

/// The variables of a query, and the atoms of the leaf that is being read.
#[derive(Debug, Drop)]
pub(crate) struct LeafBuilder<'a> {
    alloc: Global,
    /// By their numbers: the answer variables, and then the others of the leaf.
    variables: Vec<&'a [u8]>,
    /// How many answer variables there are.
    vars: u8,
    body: Vec<Atom>,
}

fn term_has(term: Term, variable: u16) -> bool
    ensures { result ≡ leaves.term_has variable term }
{
    match term {
        Term::Var(number) => number == variable,
        Term::Ind(_) => false,
    }
}

fn atom_has(atom: Atom, variable: u16) -> bool
    ensures { result ≡ leaves.atom_has variable atom }
{
    match atom {
        Atom::Concept(_, term) => term_has(term, variable),
        Atom::Role(_, first, second) => term_has(first, variable) || term_has(second, variable),
    }
}

fn occurs(variable: u16, body: &[Atom]) -> bool
    ensures { result ≡ leaves.occurs variable body.now }
{
    body.iter().any(|atom| atom_has(*atom, variable))
}

/// Those of so many answer variables that occur in the body.
fn answer_head(alloc: Global, vars: u8, body: &[Atom]) -> Result<Vec<Term>, Memory>
    ensures { IfOk result (λ head. head.items ≡ leaves.answer_head vars body.now) }
{
    let mut head = Vec::new(alloc);
    for variable in 0..vars {
        let variable = variable as u16;
        if occurs(variable, body) {
            head.push(Term::Var(variable))?;
        }
    }
    Ok(head)
}

/// The number of a predicate that is to be of this kind, behind so many atoms of its leaf.
fn predicate(ontology: &Ontology, kind: Kind, before: usize, word: &Token<'_>) -> Result<u32, Stop>
    ensures { OnName (symbol word.now)
        (λ text. TellsPredicate ontology.now before kind text word.now.start result) }
{
    if before >= ATOM_LIMIT {
        return Err(Stop::At(word.start, QueryKind::TooMany));
    }
    if let Some(number) = ontology.find(kind, word.text) {
        return Ok(number);
    }
    if ontology.is_declared(word.text) {
        return Err(Stop::At(word.start, QueryKind::WrongKind));
    }
    Err(Stop::At(word.start, QueryKind::Unknown))
}

impl<'a> LeafBuilder<'a> {
    pub(crate) fn new(alloc: Global) -> LeafBuilder<'a>
        ensures { draft result ≡ blank [] }
    {
        LeafBuilder {
            alloc,
            variables: Vec::new(alloc),
            vars: 0,
            body: Vec::new(alloc),
        }
    }

    /// How many answer variables there are.
    pub(crate) fn vars(&self) -> u8
        ensures { result ≡ (draft self.now).vars }
    {
        self.vars
    }

    /// No variables and no atoms.
    pub(crate) fn clear(&mut self)
        ensures { draft self.new ≡ blank [] }
    {
        self.variables.clear();
        self.vars = 0;
        self.body.clear();
    }

    /// The place of the variable among those seen.
    fn known(&self, text: &[u8]) -> Option<usize>
        ensures { result ≡ known_as (draft self.now).seen text.now }
    {
        for (place, known) in self.variables.iter().enumerate() {
            if *known == text {
                return Some(place);
            }
        }
        None
    }

    /// Puts a variable last.
    fn push(&mut self, text: &'a [u8]) -> Result<(), Memory>
        ensures { OnOk result (draft self.new
            ≡ with_seen (draft self.old) ((draft self.old).seen ++ text.entry.now ∷ [])) }
    {
        self.variables.push(text)?;
        Ok(())
    }

    /// One more answer variable, which stands at the place.
    pub(crate) fn add_answer(&mut self, text: &'a [u8], start: usize) -> Result<(), Stop>
        requires { (draft self.old).vars ≤ 4 }
        ensures { Answers (answer_added (draft self.old) text.entry.now start) result
            (draft self.new) }
    {
        if self.variables.len() >= ANSWER_LIMIT {
            return Err(Stop::At(start, QueryKind::TooMany));
        }
        if self.known(text).is_some() {
            return Err(Stop::At(start, QueryKind::NameTwice));
        }
        match self.push(text) {
            Ok(()) => {
                self.vars += 1;
                Ok(())
            }
            Err(_) => Err(Stop::Memory),
        }
    }

    /// The number of the variable.
    fn variable(&mut self, text: &'a [u8]) -> Result<u16, Memory>
        requires { length (draft self.old).seen < 60000 }
        ensures number { IfOk result
            (λ number. number ≡ variable_number (draft self.old).seen text.entry.now) }
        ensures seen { OnOk result (draft self.new ≡ with_seen (draft self.old)
            (seen_after (draft self.old).seen text.entry.now
            (known_as (draft self.old).seen text.entry.now))) }
        ensures grows { OnOk result
            (length (draft self.new).seen ≤ length (draft self.old).seen + 1) }
    {
        if let Some(place) = self.known(text) {
            return Ok(place as u16);
        }
        let place = self.variables.len() as u16;
        self.push(text)?;
        Ok(place)
    }

    /// The term that the word is.
    fn term(&mut self, ontology: &Ontology, word: &Token<'a>) -> Result<Term, Stop>
        requires { length (draft self.old).seen < 60000 }
        ensures tells { OnTerm (symbol word.now) (λ written. TellsTerm ontology.now
            (draft self.old) written word.now.start result (draft self.new)) }
        ensures grows { OnOk result
            (length (draft self.new).seen ≤ length (draft self.old).seen + 1) }
    {
        if word.kind == TokenKind::Var {
            return match self.variable(word.text) {
                Ok(number) => Ok(Term::Var(number)),
                Err(_) => Err(Stop::Memory),
            };
        }
        match ontology.find(Kind::Individual, word.text) {
            Some(number) => Ok(Term::Ind(IndId(number))),
            None => Err(Stop::At(word.start, QueryKind::Undeclared)),
        }
    }

    /// An atom of a concept.
    fn add_one(
        &mut self,
        ontology: &Ontology,
        name: &Token<'a>,
        term: &Token<'a>,
    ) -> Result<(), Stop>
        requires { length (draft self.old).seen < 50000 }
        ensures { Answers (one_added ontology.now (draft self.old) (marked name.now)
            (marked term.now)) result (draft self.new) }
    {
        let concept = predicate(ontology, Kind::Concept, self.body.len(), name)?;
        let term = self.term(ontology, term)?;
        match self.body.push(Atom::Concept(ConceptId(concept), term)) {
            Ok(()) => Ok(()),
            Err(_) => Err(Stop::Memory),
        }
    }

    /// An atom of a role.
    fn add_two(
        &mut self,
        ontology: &Ontology,
        name: &Token<'a>,
        first: &Token<'a>,
        second: &Token<'a>,
    ) -> Result<(), Stop>
        requires { length (draft self.old).seen < 50000 }
        ensures { Answers (two_added ontology.now (draft self.old) (marked name.now)
            (marked first.now) (marked second.now)) result (draft self.new) }
    {
        let role = predicate(ontology, Kind::Role, self.body.len(), name)?;
        let first = self.term(ontology, first)?;
        let second = self.term(ontology, second)?;
        match self.body.push(Atom::Role(RoleId(role), first, second)) {
            Ok(()) => Ok(()),
            Err(_) => Err(Stop::Memory),
        }
    }

    /// The atom of these words: its predicate, and its term or its two.
    pub(crate) fn add_atom(&mut self, ontology: &Ontology, words: &[Token<'a>]) -> Result<(), Stop>
        requires { length (draft self.old).seen < 50000 }
        ensures { Answers (atom_added ontology.now (draft self.old) (map marked words.now)) result
            (draft self.new) }
    {
        match words {
            [name, term] => self.add_one(ontology, name, term),
            [name, first, second] => self.add_two(ontology, name, first, second),
            _ => Ok(()),
        }
    }

    /// The query of the atoms, which the builder gives up, with the variables that are no answer
    /// variables.
    pub(crate) fn finish(&mut self) -> Result<Cq, Memory>
        ensures query { IfOk result (λ query. query ≡ query_of (draft self.old)) }
        ensures empty { OnOk result (draft self.new ≡ emptied (draft self.old)) }
    {
        let head = answer_head(self.alloc, self.vars, self.body.as_slice())?;
        let body = std::mem::replace(&mut self.body, Vec::new(self.alloc));
        self.variables.truncate(self.vars as usize);
        Ok(Cq {
            head: Items::from_vec(head),
            body: Items::from_vec(body),
        })
    }
}
