//! The language of query files.
//!
//! ```text
//! file    = { "query" NAME "(" { VAR } ")" "=" formula ";" } formula = conj { "|" conj } conj    =
//! timed { "&" timed } timed   = unary [ ( "until" | "since" ) unary ] unary   = OP unary | "("
//! formula ")" | "true" | "false" | "[" atom { "," atom } "]" OP      = "next" | "wnext" | "prev" |
//! "wprev" | "eventually" | "always" | "once"
//!         | "historically"
//! atom    = NAME "(" term [ "," term ] ")" term    = VAR | NAME
//! ```
//!
//! `|` and `&` group to the left. The words in quotes have their meaning only where the grammar
//! has them. The nesting of a token is the number of formula parentheses that are open around it
//! plus the number of OPs in whose operand it stands; that of an OP or of a formula's parenthesis
//! is below 256.
#![tactic(auto)]

mod checker;
mod checking;
pub mod laws;
mod words;

pub use checker::{Checker, Mode};
pub use checking::{SyntaxFault, check};
pub use words::{Keyword, TimedOp, UnaryOp, keyword_of};
