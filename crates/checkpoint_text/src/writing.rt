//! A checkpoint, written.

ghost use Rattle.std.specs.Prelude.{◌≡◌, ◌∷◌, ◌++◌, decimal, flat_map, map, IfOk, OnOk};
ghost use Rattle.std.specs.Option.{option_map};
ghost use Rattle.checkpoint_text.specs.Text.{accepted_line, digest_line, ended, lines_of_names};
ghost use Rattle.checkpoint_text.specs.Text.{lines_of_query, list_line, name_line, node_line};
ghost use Rattle.checkpoint_text.specs.Text.{stretch_text, text_of, version_line};

use crate::checkpoint::{Checkpoint, Node, Nodes, Stretch};
use crate::digests::digest_text;
use crate::numbers::append_number;
use dl_syntax::Name;
use formula_store::{Link, Memory};
use std::alloc::Global;

/// Appends a line of a word and a number.
fn append_counted(out: &mut Vec<u8>, word: &[u8], count: u64) -> Result<(), Memory>
    ensures { OnOk result (out.new.items ≡ out.old.items ++ ended (word.now ++ decimal count)) }
{
    out.extend_from_slice(word)?;
    append_number(out, count)?;
    out.extend_from_slice(b"\n")
}

/// Appends the first line.
fn append_version(out: &mut Vec<u8>, names: &Option<Vec<Name>>) -> Result<(), Memory>
    ensures { OnOk result (out.new.items ≡ out.old.items
        ++ ended (version_line (option_map (λ names. names.items) names.now))) }
{
    match names {
        None => out.extend_from_slice(b"tom-checkpoint 1\n"),
        Some(_) => out.extend_from_slice(b"tom-checkpoint 2\n"),
    }
}

/// Appends the digest's line.
fn append_digest(out: &mut Vec<u8>, digest: &[u8; 32]) -> Result<(), Memory>
    ensures { OnOk result (out.new.items ≡ out.old.items ++ ended (digest_line digest.now)) }
{
    out.extend_from_slice(b"digest ")?;
    out.extend_from_slice(digest_text(digest).as_slice())?;
    out.extend_from_slice(b"\n")
}

/// Appends a name's line.
fn append_name(out: &mut Vec<u8>, name: &Name) -> Result<(), Memory>
    ensures { OnOk result (out.new.items ≡ out.old.items ++ ended (name_line name.now)) }
{
    out.extend_from_slice(b"name ")?;
    out.extend_from_slice(name.bytes())?;
    out.extend_from_slice(b"\n")
}

/// Appends a line for each name.
fn append_each_name(out: &mut Vec<u8>, names: &[Name]) -> Result<(), Memory>
    ensures { OnOk result (out.new.items
        ≡ out.old.items ++ flat_map (λ name. ended (name_line name)) names.now) }
{
    for name in names {
        append_name(out, name)?;
    }
    Ok(())
}

/// Appends the lines of the names, where further ones may come.
fn append_names(out: &mut Vec<u8>, names: &Option<Vec<Name>>) -> Result<(), Memory>
    ensures { OnOk result (out.new.items ≡ out.old.items
        ++ flat_map ended (lines_of_names (option_map (λ names. names.items) names.now))) }
{
    let Some(names) = names else {
        return Ok(());
    };
    append_counted(out, b"names ", names.len() as u64)?;
    append_each_name(out, names.as_slice())
}

/// Appends sets, each after a space.
fn append_sets(out: &mut Vec<u8>, sets: &[u8]) -> Result<(), Memory>
    ensures { OnOk result (out.new.items
        ≡ out.old.items ++ flat_map (λ set. 32 ∷ decimal set) sets.now) }
{
    for set in sets {
        out.push(b' ')?;
        append_number(out, *set as u64)?;
    }
    Ok(())
}

/// Appends a list's line.
fn append_list(out: &mut Vec<u8>, list: &Link) -> Result<(), Memory>
    ensures { OnOk result (out.new.items ≡ out.old.items ++ ended (list_line list.now)) }
{
    out.extend_from_slice(b"list")?;
    append_sets(out, list.antichain().sets())?;
    out.extend_from_slice(b"\n")
}

/// Appends a line for each list.
fn append_lists(out: &mut Vec<u8>, lists: &[Link]) -> Result<(), Memory>
    ensures { OnOk result (out.new.items
        ≡ out.old.items ++ flat_map (λ list. ended (list_line list)) lists.now) }
{
    for list in lists {
        append_list(out, list)?;
    }
    Ok(())
}

/// Appends how many tuples in a row have the list with the number.
fn append_stretch(out: &mut Vec<u8>, stretch: &Stretch) -> Result<(), Memory>
    ensures { OnOk result (out.new.items ≡ out.old.items ++ stretch_text stretch.now) }
{
    out.push(b' ')?;
    append_number(out, stretch.count)?;
    out.push(b':')?;
    append_number(out, stretch.list)
}

/// Appends stretches one after another.
fn append_stretches(out: &mut Vec<u8>, stretches: &[Stretch]) -> Result<(), Memory>
    ensures { OnOk result (out.new.items
        ≡ out.old.items ++ flat_map stretch_text stretches.now) }
{
    for stretch in stretches {
        append_stretch(out, stretch)?;
    }
    Ok(())
}

/// Appends a node's line.
fn append_node(out: &mut Vec<u8>, node: &Node) -> Result<(), Memory>
    ensures { OnOk result (out.new.items ≡ out.old.items ++ ended (node_line node.now)) }
{
    out.extend_from_slice(b"node ")?;
    append_number(out, node.place as u64)?;
    append_stretches(out, node.stretches.as_slice())?;
    out.extend_from_slice(b"\n")
}

/// Appends a line for each node.
fn append_nodes(out: &mut Vec<u8>, nodes: &[Node]) -> Result<(), Memory>
    ensures { OnOk result (out.new.items
        ≡ out.old.items ++ flat_map (λ node. ended (node_line node)) nodes.now) }
{
    for node in nodes {
        append_node(out, node)?;
    }
    Ok(())
}

/// Appends the lines of a query.
fn append_query(out: &mut Vec<u8>, query: &Nodes) -> Result<(), Memory>
    ensures { OnOk result (out.new.items
        ≡ out.old.items ++ flat_map ended (lines_of_query query.now)) }
{
    append_counted(out, b"query ", query.nodes.len() as u64)?;
    append_nodes(out, query.nodes.as_slice())
}

/// Appends the lines of queries.
fn append_queries(out: &mut Vec<u8>, queries: &[Nodes]) -> Result<(), Memory>
    ensures { OnOk result (out.new.items ≡ out.old.items
        ++ flat_map (λ query. flat_map ended (lines_of_query query)) queries.now) }
{
    for query in queries {
        append_query(out, query)?;
    }
    Ok(())
}

/// The text of the checkpoint for the digest.
pub fn write(alloc: Global, checkpoint: &Checkpoint, digest: &[u8; 32]) -> Result<Vec<u8>, Memory>
    ensures { IfOk result (λ bytes. bytes.items ≡ text_of digest.now checkpoint.now) }
{
    let mut out = Vec::new(alloc);
    append_version(&mut out, &checkpoint.names)?;
    append_digest(&mut out, digest)?;
    append_counted(&mut out, b"accepted ", checkpoint.accepted)?;
    append_names(&mut out, &checkpoint.names)?;
    append_counted(&mut out, b"lists ", checkpoint.lists.len() as u64)?;
    append_lists(&mut out, checkpoint.lists.as_slice())?;
    append_queries(&mut out, checkpoint.queries.as_slice())?;
    out.extend_from_slice(b"end\n")?;
    Ok(out)
}
