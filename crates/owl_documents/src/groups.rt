//! Groups in balanced parentheses.

ghost use Rattle.std.specs.Prelude.{List, ℕ, ◌≡◌, ◌<◌, ◌+◌, ◌≤◌, ◌^◌, IfOk, IfSome, length, map};
ghost use Rattle.std.specs.Option.{option_map};
ghost use Rattle.owl_tokens.specs.Tokens.{lexeme};
ghost use Rattle.owl_documents.specs.Terms.{stops_at, is_open, is_close, is_equal, is_word};
ghost use Rattle.owl_documents.specs.Terms.{group_of};
ghost use Rattle.owl_documents.specs.Terms.{open_first, close_first, group_step, group_end};
ghost use Rattle.owl_documents.specs.Views.{Gives};

use owl_tokens::{Token, TokenKind};
use std::alloc::{AllocError, AllocFailed};

/// Where a document stops being one.
#[derive(Clone, Copy, Debug, PartialEq, Eq)]
pub enum Stop {
    /// At the token that starts there.
    At(usize),
    /// At the end of the text.
    End,
    /// There is no memory.
    Memory,
}

impl From<AllocError> for Stop {
    ghost use Rattle.owl_documents.specs.declared.groups.Stop.TheVariants.{Memory};

    ghost from_gives = { λ _ e. e ≡ Memory };

    fn from(_refused: AllocError) -> Stop {
        Stop::Memory
    }
}

impl<T: Drop> From<AllocFailed<T>> for Stop {
    ghost use Rattle.owl_documents.specs.declared.groups.Stop.TheVariants.{Memory};

    ghost from_gives = { λ _ e. e ≡ Memory };

    fn from(_refused: AllocFailed<T>) -> Stop {
        Stop::Memory
    }
}

/// What a token in a group does.
#[derive(Clone, Copy, Debug)]
pub enum GroupStep {
    /// The group goes on, so many groups deep in it.
    Inside(usize),
    /// The group ends.
    Behind,
    /// The token is no token.
    Fault,
}

pub(crate) fn is_open(kind: TokenKind) -> bool
    ensures { result ≡ is_open kind }
{
    matches!(kind, TokenKind::Open)
}

pub(crate) fn is_close(kind: TokenKind) -> bool
    ensures { result ≡ is_close kind }
{
    matches!(kind, TokenKind::Close)
}

pub(crate) fn is_equal(kind: TokenKind) -> bool
    ensures { result ≡ is_equal kind }
{
    matches!(kind, TokenKind::Equal)
}

pub(crate) fn is_word(kind: TokenKind) -> bool
    ensures { result ≡ is_word kind }
{
    matches!(kind, TokenKind::Word)
}

/// The tokens behind an opening parenthesis.
pub(crate) fn open_first<'b>(tokens: &'b [Token]) -> Result<&'b [Token], Stop>
    ensures given { (bytes : List ℕ)
        → Gives result (open_first (map (lexeme bytes) tokens.now)) (λ rest.
        map (lexeme bytes) rest.now) }
    ensures shorter { IfOk result (λ rest. length rest.now < length tokens.now) }
{
    match tokens {
        [] => Err(Stop::End),
        [token, rest @ ..] => {
            if is_open(token.kind) {
                Ok(rest)
            } else {
                Err(Stop::At(token.start))
            }
        }
    }
}

/// The tokens behind the opening parenthesis of a group, where a word before them heads one.
pub(crate) fn group_of<'b>(tokens: &'b [Token]) -> Option<&'b [Token]>
    ensures given { (bytes : List ℕ)
        → option_map (λ inside. map (lexeme bytes) inside.now) result
        ≡ group_of (map (lexeme bytes) tokens.now) }
    ensures shorter { IfSome result (λ inside. length inside.now < length tokens.now) }
{
    match tokens {
        [token, inside @ ..] if is_open(token.kind) => Some(inside),
        _ => None,
    }
}

/// The place of a closing parenthesis, and the tokens behind it.
pub(crate) fn close_first<'b>(tokens: &'b [Token]) -> Result<(usize, &'b [Token]), Stop>
    ensures given { (bytes : List ℕ)
        → Gives result (close_first (map (lexeme bytes) tokens.now)) (λ end.
        (end.0, map (lexeme bytes) end.1.now)) }
    ensures shorter { IfOk result (λ end. length end.1.now < length tokens.now) }
{
    match tokens {
        [] => Err(Stop::End),
        [token, rest @ ..] => {
            if is_close(token.kind) {
                Ok((token.start, rest))
            } else {
                Err(Stop::At(token.start))
            }
        }
    }
}

/// What a token in a group does, so many groups deep in it.
fn group_step(depth: usize, kind: TokenKind) -> GroupStep
    requires { depth < 2 ^ 63 }
    ensures { result ≡ group_step depth kind }
{
    match kind {
        TokenKind::Open => GroupStep::Inside(depth + 1),
        TokenKind::Close => {
            if depth == 0 {
                GroupStep::Behind
            } else {
                GroupStep::Inside(depth - 1)
            }
        }
        TokenKind::Fault => GroupStep::Fault,
        _ => GroupStep::Inside(depth),
    }
}

/// The tokens behind a group, from behind its opening parenthesis on.
pub(crate) fn group_end<'b>(tokens: &'b [Token]) -> Result<&'b [Token], Stop>
    ensures given { (bytes : List ℕ)
        → Gives result (group_end 0 (map (lexeme bytes) tokens.now)) (λ rest.
        map (lexeme bytes) rest.now) }
    ensures shorter { IfOk result (λ rest. length rest.now < length tokens.now) }
{
    let mut depth = 0;
    let mut place = 0;
    while place < tokens.len() {
        let token = tokens[place];
        match group_step(depth, token.kind) {
            GroupStep::Inside(next) => depth = next,
            GroupStep::Behind => return Ok(&tokens[place + 1..]),
            GroupStep::Fault => return Err(Stop::At(token.start)),
        }
        place += 1;
    }
    Err(Stop::End)
}
