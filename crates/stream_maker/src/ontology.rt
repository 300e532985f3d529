//! The lines of the ontology.

ghost use Rattle.std.specs.Prelude.{◌≡◌, ◌++◌, ◌+◌, ◌<◌, OnOk, take, vec_len};
ghost use Rattle.stream_maker.specs.Ontology.{one_text, two_text, shape_text, shape_lines};
ghost use Rattle.stream_maker.specs.Ontology.{names_text, trees_text, links_text, roles_text};
ghost use Rattle.stream_maker.specs.Ontology.{clashes_text, ontology_text};

use crate::Memory;
use crate::numbers::append_numbered;

/// The shapes of the lines, in their order.
#[derive(Clone, Copy, PartialEq, Eq, Debug)]
pub enum Shape {
    Concept,
    Role,
    Individual,
    LowerTree,
    UpperTree,
    Domain,
    Range,
    Starts,
    Ends,
    RoleTree,
    Typed,
    Across,
    LowerPair,
    UpperPair,
}

fn append_one(out: &mut Vec<u8>, before: &[u8], number: u32) -> Result<(), Memory>
    ensures ok { OnOk result (out.new.items ≡ out.old.items ++ one_text before.now number) }
    ensures kept { take (vec_len out.old) out.new.items ≡ out.old.items }
{
    append_numbered(out, before, number)?;
    out.extend_from_slice(b"\n")
}

fn append_two(
    out: &mut Vec<u8>,
    before: &[u8],
    first: u32,
    between: &[u8],
    second: u32,
) -> Result<(), Memory>
    ensures ok { OnOk result (out.new.items
        ≡ out.old.items ++ two_text before.now first between.now second) }
    ensures kept { take (vec_len out.old) out.new.items ≡ out.old.items }
{
    append_numbered(out, before, first)?;
    append_numbered(out, between, second)?;
    out.extend_from_slice(b"\n")
}

/// Appends the line of a shape with this number.
fn append_shape(out: &mut Vec<u8>, shape: Shape, n: u32) -> Result<(), Memory>
    requires { n < 1000 }
    ensures ok { OnOk result (out.new.items ≡ out.old.items ++ shape_text shape n) }
    ensures kept { take (vec_len out.old) out.new.items ≡ out.old.items }
{
    match shape {
        Shape::Concept => append_one(out, b"concept C", n),
        Shape::Role => append_one(out, b"role r", n),
        Shape::Individual => append_one(out, b"individual i", n),
        Shape::LowerTree => append_two(out, b"sub C", n, b" C", n / 2),
        Shape::UpperTree => append_two(out, b"sub C", 20 + n, b" C", 20 + n / 2),
        Shape::Domain => append_two(out, b"sub some r", n, b" C", 0),
        Shape::Range => append_two(out, b"sub some inv r", n, b" C", 20),
        Shape::Starts => append_two(out, b"sub C", n, b" some r", n),
        Shape::Ends => append_two(out, b"sub C", 20 + n, b" some inv r", n),
        Shape::RoleTree => append_two(out, b"subrole r", n, b" r", n / 2),
        Shape::Typed => append_two(out, b"sub some r", n, b" C", n),
        Shape::Across => append_two(out, b"disjoint C", n, b" C", 20 + n),
        Shape::LowerPair => append_two(out, b"disjoint C", 2 * n, b" C", 2 * n + 1),
        Shape::UpperPair => append_two(out, b"disjoint C", 20 + 2 * n, b" C", 20 + 2 * n + 1),
    }
}

/// Appends so many lines of a shape, from this number up.
fn append_shapes(out: &mut Vec<u8>, shape: Shape, first: u32, count: u32) -> Result<(), Memory>
    requires { first + count < 1000 }
    ensures ok { OnOk result (out.new.items ≡ out.old.items ++ shape_lines shape first count) }
    ensures kept { take (vec_len out.old) out.new.items ≡ out.old.items }
{
    for place in 0..count {
        append_shape(out, shape, first + place)?;
    }
    Ok(())
}

fn append_names(out: &mut Vec<u8>) -> Result<(), Memory>
    ensures ok { OnOk result (out.new.items ≡ out.old.items ++ names_text) }
{
    append_shapes(out, Shape::Concept, 0, 40)?;
    append_shapes(out, Shape::Role, 0, 15)?;
    append_shapes(out, Shape::Individual, 0, 60)
}

fn append_trees(out: &mut Vec<u8>) -> Result<(), Memory>
    ensures ok { OnOk result (out.new.items ≡ out.old.items ++ trees_text) }
{
    append_shapes(out, Shape::LowerTree, 1, 19)?;
    append_shapes(out, Shape::UpperTree, 1, 19)
}

fn append_links(out: &mut Vec<u8>) -> Result<(), Memory>
    ensures ok { OnOk result (out.new.items ≡ out.old.items ++ links_text) }
{
    append_shapes(out, Shape::Domain, 0, 15)?;
    append_shapes(out, Shape::Range, 0, 15)?;
    append_shapes(out, Shape::Starts, 0, 15)?;
    append_shapes(out, Shape::Ends, 0, 15)
}

fn append_roles(out: &mut Vec<u8>) -> Result<(), Memory>
    ensures ok { OnOk result (out.new.items ≡ out.old.items ++ roles_text) }
{
    append_shapes(out, Shape::RoleTree, 1, 14)?;
    append_shapes(out, Shape::Typed, 1, 8)
}

fn append_clashes(out: &mut Vec<u8>) -> Result<(), Memory>
    ensures ok { OnOk result (out.new.items ≡ out.old.items ++ clashes_text) }
{
    append_shapes(out, Shape::Across, 0, 20)?;
    append_shapes(out, Shape::LowerPair, 5, 5)?;
    append_shapes(out, Shape::UpperPair, 5, 5)
}

/// Appends the whole ontology.
pub fn append_ontology(out: &mut Vec<u8>) -> Result<(), Memory>
    ensures ok { OnOk result (out.new.items ≡ out.old.items ++ ontology_text) }
{
    append_names(out)?;
    append_trees(out)?;
    append_links(out)?;
    append_roles(out)?;
    append_clashes(out)
}
