//! The first token at which a text stops being the front of a query file.

ghost use Rattle.std.specs.Prelude.{◌≡◌};
ghost use Rattle.tcq_grammar.specs.Fault.{Checks};

use crate::checker::{Checker, Mode};
use std::alloc::{AllocError, AllocFailed, Global};
use text_scan::{Next, next_token};

/// Why a text is no query file.
#[derive(Clone, Copy, Debug, PartialEq, Eq)]
pub enum SyntaxFault {
    /// The place of the first token, or byte in no token, with which no file goes on.
    At(usize),
    /// The text ends inside a query.
    End,
    Memory,
}

impl From<AllocError> for SyntaxFault {
    ghost use Rattle.tcq_grammar.specs.declared.checking.SyntaxFault.TheVariants.{Memory};

    ghost from_gives = { λ _ e. e ≡ Memory };

    fn from(_refused: AllocError) -> SyntaxFault {
        SyntaxFault::Memory
    }
}

/// Whether the text is a query file, and if not, where it stops being the front of one. Takes
/// memory for the nesting of its parentheses alone.
pub fn check(alloc: Global, text: &[u8]) -> Result<(), SyntaxFault>
    ensures { Checks result text.now }
{
    let mut checker = Checker::new(alloc);
    let mut place = 0;
    loop {
        match next_token(text, place) {
            Next::Token(token) => {
                if !checker.step(&token)? {
                    return Err(SyntaxFault::At(token.start));
                }
                place = token.start + token.text.len();
            }
            Next::Fault(fault) => return Err(SyntaxFault::At(fault)),
            Next::End => break,
        }
    }
    match checker.mode() {
        Mode::Between => Ok(()),
        _ => Err(SyntaxFault::End),
    }
}
