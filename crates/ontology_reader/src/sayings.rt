//! What a line says.

ghost use Rattle.std.specs.Prelude.{◌≡◌, map};
ghost use Rattle.std.specs.Option.{option_map, option_map_or};
ghost use Rattle.ontology_reader.specs.Sayings.{RoleTerm as RoleTermSeen, Saying as SayingSeen};
ghost use Rattle.ontology_reader.specs.Sayings.{role_first, basic_first, declaration, right_of};
ghost use Rattle.ontology_reader.specs.Sayings.{inclusion, pair_of, line_form, words_say};
ghost use Rattle.ontology_reader.specs.Sayings.{includes_roles, disjoint, disjoint_roles};
ghost use Rattle.ontology_reader.specs.Sayings.{has_no_form};
ghost use Rattle.ontology_reader.specs.Views.{word_seen, role_seen, basic_seen, saying_seen};

use crate::words::Word;
use dl_syntax::Kind;

/// A role or its inverse, by the role's name.
#[derive(Clone, Copy, Debug)]
pub struct RoleTerm<'a> {
    pub role: &'a [u8],
    pub inverse: bool,
}

/// A concept, or what stands first in some pair of a role.
#[derive(Clone, Copy, Debug)]
pub enum BasicTerm<'a> {
    Concept(&'a [u8]),
    Existing(RoleTerm<'a>),
}

/// What a line says.
#[derive(Clone, Copy, Debug)]
pub enum Saying<'a> {
    Nothing,
    Declares(Kind, &'a [u8]),
    Includes(BasicTerm<'a>, BasicTerm<'a>),
    IncludesQualified(BasicTerm<'a>, RoleTerm<'a>, &'a [u8]),
    IncludesRoles(RoleTerm<'a>, RoleTerm<'a>),
    Disjoint(BasicTerm<'a>, BasicTerm<'a>),
    DisjointRoles(RoleTerm<'a>, RoleTerm<'a>),
    HasNoForm,
}

/// The role that the words begin with, and the words behind it.
fn role_first<'a, 'b>(words: &'b [Word<'a>]) -> Option<(RoleTerm<'a>, &'b [Word<'a>])>
    ensures { option_map (λ found. (role_seen found.0, map word_seen found.1.now)) result
        ≡ role_first (map word_seen words.now) }
{
    match words {
        [Word::Name(role), rest @ ..] => Some((
            RoleTerm {
                role,
                inverse: false,
            },
            rest,
        )),
        [Word::Inv, Word::Name(role), rest @ ..] => Some((
            RoleTerm {
                role,
                inverse: true,
            },
            rest,
        )),
        _ => None,
    }
}

/// The basic concept that the words begin with, and the words behind it.
fn basic_first<'a, 'b>(words: &'b [Word<'a>]) -> Option<(BasicTerm<'a>, &'b [Word<'a>])>
    ensures { option_map (λ found. (basic_seen found.0, map word_seen found.1.now)) result
        ≡ basic_first (map word_seen words.now) }
{
    match words {
        [Word::Name(concept), rest @ ..] => Some((BasicTerm::Concept(concept), rest)),
        [Word::Some, rest @ ..] => {
            let (role, rest) = role_first(rest)?;
            Some((BasicTerm::Existing(role), rest))
        }
        _ => None,
    }
}

/// A declaration behind its first word.
fn declaration<'a>(kind: Kind, words: &[Word<'a>]) -> Saying<'a>
    ensures { saying_seen result ≡ declaration kind (map word_seen words.now) }
{
    match words {
        [Word::Name(name)] => Saying::Declares(kind, name),
        _ => Saying::HasNoForm,
    }
}

/// An inclusion by its left side and what its right side begins with.
fn right_of<'a>(left: BasicTerm<'a>, right: BasicTerm<'a>, rest: &[Word<'a>]) -> Saying<'a>
    ensures { saying_seen result
        ≡ right_of (basic_seen left.entry) (basic_seen right.entry, map word_seen rest.now) }
{
    match (right, rest) {
        (right, []) => Saying::Includes(left, right),
        (BasicTerm::Existing(role), [Word::Name(concept)]) => {
            Saying::IncludesQualified(left, role, concept)
        }
        _ => Saying::HasNoForm,
    }
}

/// An inclusion of concepts behind its first word.
fn inclusion<'a>(words: &[Word<'a>]) -> Saying<'a>
    ensures { saying_seen result ≡ inclusion (map word_seen words.now) }
{
    let Some((left, rest)) = basic_first(words) else {
        return Saying::HasNoForm;
    };
    match basic_first(rest) {
        Some((right, rest)) => right_of(left, right, rest),
        None => Saying::HasNoForm,
    }
}

/// Two basic concepts with nothing behind them.
fn two_basics<'a>(words: &[Word<'a>]) -> Option<(BasicTerm<'a>, BasicTerm<'a>)>
    ensures { option_map_or (λ found. disjoint (basic_seen found.0) (basic_seen found.1)) result
        has_no_form ≡ pair_of basic_first disjoint (map word_seen words.now) }
{
    let (left, rest) = basic_first(words)?;
    match basic_first(rest)? {
        (right, []) => Some((left, right)),
        _ => None,
    }
}

/// Two roles with nothing behind them.
fn two_roles<'a>(words: &[Word<'a>]) -> Option<(RoleTerm<'a>, RoleTerm<'a>)>
    ensures { (says : RoleTermSeen → RoleTermSeen → SayingSeen)
        → option_map_or (λ found. says (role_seen found.0) (role_seen found.1)) result has_no_form
        ≡ pair_of role_first says (map word_seen words.now) }
{
    let (left, rest) = role_first(words)?;
    match role_first(rest)? {
        (right, []) => Some((left, right)),
        _ => None,
    }
}

/// What a line says by its first word and the words behind it.
fn line_form<'a>(word: &'a [u8], rest: &[Word<'a>]) -> Saying<'a>
    ensures { saying_seen result ≡ line_form word.now (map word_seen rest.now) }
{
    if word == b"concept".as_slice() {
        declaration(Kind::Concept, rest)
    } else if word == b"role".as_slice() {
        declaration(Kind::Role, rest)
    } else if word == b"individual".as_slice() {
        declaration(Kind::Individual, rest)
    } else if word == b"sub".as_slice() {
        inclusion(rest)
    } else if word == b"subrole".as_slice() {
        two_roles(rest).map_or(
            Saying::HasNoForm,
            |(left, right)| Saying::IncludesRoles(left, right),
        )
    } else if word == b"disjoint".as_slice() {
        two_basics(rest).map_or(
            Saying::HasNoForm,
            |(left, right)| Saying::Disjoint(left, right),
        )
    } else if word == b"disjointrole".as_slice() {
        two_roles(rest).map_or(
            Saying::HasNoForm,
            |(left, right)| Saying::DisjointRoles(left, right),
        )
    } else {
        Saying::HasNoForm
    }
}

/// What a line says by its words.
#[tactic(auto, unfolding(crate::specs::Sayings::words_say))]
pub(crate) fn words_say<'a>(words: &[Word<'a>]) -> Saying<'a>
    ensures { saying_seen result ≡ words_say (map word_seen words.now) }
{
    match words {
        [] => Saying::Nothing,
        [Word::Name(word), rest @ ..] => line_form(word, rest),
        _ => Saying::HasNoForm,
    }
}
