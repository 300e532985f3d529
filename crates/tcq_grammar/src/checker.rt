//! The state of a reader of query files.

ghost use Rattle.std.specs.Prelude.{◌≡◌, if◌then◌else◌, IfOk};
ghost use Rattle.tcq_grammar.specs.Control.{view, control_step, begin_control, begin_word_control};
ghost use Rattle.tcq_grammar.specs.Control.{go_on_control, go_on_word_control, Moved, idle};
ghost use Rattle.tcq_grammar.specs.Control.{in_mode, left_waits, completed, after_first_control};
ghost use Rattle.tcq_grammar.specs.Control.{after_atom_control};
ghost use Rattle.tcq_grammar.specs.Symbols.{symbol};
ghost use Rattle.tcq_grammar.specs.Symbols as s;
ghost use Rattle.tcq_grammar.specs.Words as words;

use crate::words::{Keyword, keyword_of};
use std::alloc::{AllocError, Global};
use text_scan::{Token, TokenKind};

/// The least nesting that no operator and no formula's parenthesis may have.
const NESTING_LIMIT: u16 = 256;

const WHOLE: Scope = Scope {
    timed: false,
    base: 0,
};

/// Where a reader is in a file, by what came last or is to come.
#[derive(Clone, Copy, Debug, PartialEq, Eq)]
pub enum Mode {
    /// Outside of the queries.
    Between,
    AfterQuery,
    AfterName,
    InVariables,
    AfterVariables,
    /// A formula is to come.
    Want,
    /// A formula has come.
    Have,
    WantAtom,
    AfterPredicate,
    WantFirst,
    AfterFirst,
    WantSecond,
    AfterSecond,
    AfterAtom,
}

/// What is open inside one pair of parentheses.
#[derive(Clone, Copy, Debug)]
struct Scope {
    /// Whether an `until` or a `since` has its left side.
    timed: bool,
    /// The nesting of a token that stands in no operand here.
    base: u16,
}

/// Reads a file token by token.
#[derive(Debug, Drop)]
pub struct Checker {
    mode: Mode,
    nesting: u16,
    scope: Scope,
    outer: Vec<Scope>,
}

impl Checker {
    /// Before the first token. Takes no memory.
    pub fn new(alloc: Global) -> Checker
        ensures { view result ≡ idle Mode.Between }
    {
        Checker {
            mode: Mode::Between,
            nesting: 0,
            scope: WHOLE,
            outer: Vec::new(alloc),
        }
    }

    /// Where the reader is.
    pub fn mode(&self) -> Mode
        ensures { result ≡ (view self.now).mode }
    {
        self.mode
    }

    /// Goes to the mode where the token is the one that is wanted.
    fn goes(&mut self, wanted: bool, mode: Mode) -> bool
        ensures went { result ≡ wanted }
        ensures after { view self.new
            ≡ (if wanted then in_mode (view self.old) mode else view self.old) }
    {
        if wanted {
            self.mode = mode;
        }
        wanted
    }

    /// An operand has come.
    fn complete(&mut self)
        ensures { view self.new ≡ completed (view self.old) }
    {
        self.mode = Mode::Have;
        self.nesting = self.scope.base;
    }

    /// A name where a formula is to come.
    fn begin_word(&mut self, name: &[u8]) -> bool
        ensures { Moved (begin_word_control (view self.old) (words.keyword_of name.now)) result
            (view self.new) }
    {
        match keyword_of(name) {
            Keyword::True | Keyword::False => {
                self.complete();
                true
            }
            Keyword::Unary(_) => {
                if self.nesting >= NESTING_LIMIT {
                    return false;
                }
                self.mode = Mode::Want;
                self.nesting += 1;
                true
            }
            _ => false,
        }
    }

    /// A parenthesis where a formula is to come.
    fn open(&mut self) -> Result<bool, AllocError>
        ensures { IfOk result (λ went. Moved (begin_control (view self.old) s.Open) went
            (view self.new)) }
    {
        if self.nesting >= NESTING_LIMIT {
            return Ok(false);
        }
        self.outer.push(self.scope)?;
        self.mode = Mode::Want;
        self.nesting += 1;
        self.scope = Scope {
            timed: false,
            base: self.nesting,
        };
        Ok(true)
    }

    /// The token where a formula is to come.
    fn begin(&mut self, token: &Token<'_>) -> Result<bool, AllocError>
        ensures { IfOk result (λ went. Moved
            (begin_control (view self.old) (symbol token.now)) went (view self.new)) }
    {
        match token.kind {
            TokenKind::Name => Ok(self.begin_word(token.text)),
            TokenKind::Square => Ok(self.goes(true, Mode::WantAtom)),
            TokenKind::Open => self.open(),
            _ => Ok(false),
        }
    }

    /// A left side has come, and its right side is to come.
    fn wait(&mut self, timed: bool)
        ensures { view self.new ≡ left_waits (view self.old) timed }
    {
        self.mode = Mode::Want;
        self.scope.timed = timed;
    }

    /// A name where a formula has come.
    fn go_on_word(&mut self, name: &[u8]) -> bool
        ensures { Moved (go_on_word_control (view self.old) (words.keyword_of name.now)) result
            (view self.new) }
    {
        match keyword_of(name) {
            Keyword::Timed(_) => {
                if self.scope.timed {
                    return false;
                }
                self.wait(true);
                true
            }
            _ => false,
        }
    }

    /// A closing parenthesis where a formula has come.
    fn close(&mut self) -> bool
        ensures { Moved (go_on_control (view self.old) s.Close) result (view self.new) }
    {
        match self.outer.pop() {
            None => false,
            Some(scope) => {
                self.mode = Mode::Have;
                self.nesting = scope.base;
                self.scope = scope;
                true
            }
        }
    }

    /// The end of a query where a formula has come.
    fn finish(&mut self) -> bool
        ensures { Moved (go_on_control (view self.old) s.Semi) result (view self.new) }
    {
        if !self.outer.is_empty() {
            return false;
        }
        self.mode = Mode::Between;
        self.nesting = 0;
        self.scope = WHOLE;
        true
    }

    /// The token where a formula has come.
    fn go_on(&mut self, token: &Token<'_>) -> bool
        ensures { Moved (go_on_control (view self.old) (symbol token.now)) result (view self.new) }
    {
        match token.kind {
            TokenKind::Name => self.go_on_word(token.text),
            TokenKind::Amp | TokenKind::Bar => {
                self.wait(false);
                true
            }
            TokenKind::Close => self.close(),
            TokenKind::Semi => self.finish(),
            _ => false,
        }
    }

    /// The token behind an atom's first term.
    fn after_first(&mut self, token: &Token<'_>) -> bool
        ensures { Moved (after_first_control (view self.old) (symbol token.now)) result
            (view self.new) }
    {
        match token.kind {
            TokenKind::Comma => self.goes(true, Mode::WantSecond),
            TokenKind::Close => self.goes(true, Mode::AfterAtom),
            _ => false,
        }
    }

    /// The token behind an atom.
    fn after_atom(&mut self, token: &Token<'_>) -> bool
        ensures { Moved (after_atom_control (view self.old) (symbol token.now)) result
            (view self.new) }
    {
        match token.kind {
            TokenKind::Comma => self.goes(true, Mode::WantAtom),
            TokenKind::Unsquare => {
                self.complete();
                true
            }
            _ => false,
        }
    }

    /// Reads one more token, and says whether a file may go on so. Where it may not, the reader is
    /// of no more use.
    pub fn step(&mut self, token: &Token<'_>) -> Result<bool, AllocError>
        ensures { IfOk result (λ went. Moved
            (control_step (view self.old) (symbol token.now)) went (view self.new)) }
    {
        let kind = token.kind;
        let is_name = kind == TokenKind::Name;
        let is_term = is_name || kind == TokenKind::Var;
        Ok(match self.mode {
            Mode::Between => {
                let is_query = is_name && keyword_of(token.text) == Keyword::Query;
                self.goes(is_query, Mode::AfterQuery)
            }
            Mode::AfterQuery => self.goes(is_name, Mode::AfterName),
            Mode::AfterName => self.goes(kind == TokenKind::Open, Mode::InVariables),
            Mode::InVariables => {
                kind == TokenKind::Var || self.goes(kind == TokenKind::Close, Mode::AfterVariables)
            }
            Mode::AfterVariables => self.goes(kind == TokenKind::Equal, Mode::Want),
            Mode::Want => return self.begin(token),
            Mode::Have => self.go_on(token),
            Mode::WantAtom => self.goes(is_name, Mode::AfterPredicate),
            Mode::AfterPredicate => self.goes(kind == TokenKind::Open, Mode::WantFirst),
            Mode::WantFirst => self.goes(is_term, Mode::AfterFirst),
            Mode::AfterFirst => self.after_first(token),
            Mode::WantSecond => self.goes(is_term, Mode::AfterSecond),
            Mode::AfterSecond => self.goes(kind == TokenKind::Close, Mode::AfterAtom),
            Mode::AfterAtom => self.after_atom(token),
        })
    }
}
