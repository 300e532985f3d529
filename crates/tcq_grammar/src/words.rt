//! The operators and words of the query language.

ghost use Rattle.std.specs.Prelude.{◌≡◌};
ghost use Rattle.tcq_grammar.specs.Words as words;

/// An operator before its operand.
#[derive(Clone, Copy, Debug, PartialEq, Eq)]
pub enum UnaryOp {
    Next,
    WeakNext,
    Prev,
    WeakPrev,
    Eventually,
    Always,
    Once,
    Historically,
}

/// An operator between two operands that binds tighter than `&`.
#[derive(Clone, Copy, Debug, PartialEq, Eq)]
pub enum TimedOp {
    Until,
    Since,
}

/// What a name means where the grammar gives it a meaning.
#[derive(Clone, Copy, Debug, PartialEq, Eq)]
pub enum Keyword {
    Query,
    True,
    False,
    Unary(UnaryOp),
    Timed(TimedOp),
    /// No meaning of its own.
    Plain,
}

/// The keyword that a name is.
#[tactic(auto, unfolding(crate::specs::Words::keyword_of, crate::specs::Words::word))]
pub fn keyword_of(name: &[u8]) -> Keyword
    ensures { result ≡ words.keyword_of name.now }
{
    if name == b"query".as_slice() {
        Keyword::Query
    } else if name == b"true".as_slice() {
        Keyword::True
    } else if name == b"false".as_slice() {
        Keyword::False
    } else if name == b"next".as_slice() {
        Keyword::Unary(UnaryOp::Next)
    } else if name == b"wnext".as_slice() {
        Keyword::Unary(UnaryOp::WeakNext)
    } else if name == b"prev".as_slice() {
        Keyword::Unary(UnaryOp::Prev)
    } else if name == b"wprev".as_slice() {
        Keyword::Unary(UnaryOp::WeakPrev)
    } else if name == b"eventually".as_slice() {
        Keyword::Unary(UnaryOp::Eventually)
    } else if name == b"always".as_slice() {
        Keyword::Unary(UnaryOp::Always)
    } else if name == b"once".as_slice() {
        Keyword::Unary(UnaryOp::Once)
    } else if name == b"historically".as_slice() {
        Keyword::Unary(UnaryOp::Historically)
    } else if name == b"until".as_slice() {
        Keyword::Timed(TimedOp::Until)
    } else if name == b"since".as_slice() {
        Keyword::Timed(TimedOp::Since)
    } else {
        Keyword::Plain
    }
}
