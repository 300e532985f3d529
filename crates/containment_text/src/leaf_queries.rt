//! Which queries are leaves that name all their answer variables.

ghost use Rattle.std.specs.Prelude.{◌≡◌, option_map};
ghost use Rattle.report_text.specs.Names.{AreSpelled};
ghost use Rattle.tcq_syntax.specs.Tcq.{IsTcq};
ghost use Rattle.short_names.specs.Names.{name_in};
ghost use Rattle.dl_syntax.specs.Names.{IsName};
ghost use Rattle.containment_text.specs.Containments.{leaf_query as leaf_in};
ghost use Rattle.containment_text.specs.Containments.{first_no_leaf as first_in};

use dl_syntax::Cq;
use short_names::ShortName;
use tcq_syntax::{Node, Query};

/// The conjunctive query that the query is, if its root is a leaf that names all its answer
/// variables.
pub fn leaf_query(query: &Query) -> Option<&Cq>
    ensures leaf { option_map (λ q. q.now) result ≡ leaf_in query.now }
    ensures valid { IsTcq query.now.vars query.now.nodes }
{
    match query.nodes() {
        [Node::Leaf(cq)] => {
            if cq.head.as_slice().len() == query.vars() as usize {
                Some(cq)
            } else {
                None
            }
        }
        _ => None,
    }
}

/// The name of a query, in place.
#[tactic(auto, using(crate::proofs::ShortNames::whole_name))]
fn name_of(query: &Query) -> ShortName
    requires { IsName query.now.name }
    ensures { name_in result ≡ query.now.name }
{
    ShortName::new(query.name().bytes())
}

/// The name of the first query that is none, if there is one.
pub fn first_no_leaf(queries: &[Query]) -> Option<ShortName>
    requires { AreSpelled queries.now }
    ensures { option_map name_in result ≡ first_in queries.now }
{
    match queries {
        [] => None,
        [query, rest @ ..] => match leaf_query(query) {
            Some(_) => first_no_leaf(rest),
            None => Some(name_of(query)),
        },
    }
}
