//! The ontology of a whole text.

ghost use Rattle.std.specs.Prelude.{◌≡◌, IfOk};
ghost use Rattle.text_scan.specs.Lines.{lines_of};
ghost use Rattle.dl_syntax.specs.Ontology.{nothing_declared};
ghost use Rattle.ontology_reader.specs.Sayings.{line_says};
ghost use Rattle.ontology_reader.specs.Views.{saying_seen};
ghost use Rattle.ontology_reader.specs.Adding.{line_added};
ghost use Rattle.ontology_reader.specs.Answers.{Changes};
ghost use Rattle.ontology_reader.specs.Texts.{lines_added, Tells, Reads};

use crate::adding::{LineFault, add};
use crate::sayings::{Saying, words_say};
use crate::words::words_in;
use crate::{OntologyFault, OntologyKind};
use dl_syntax::{Memory, Ontology};
use std::alloc::Global;
use text_scan::line_at;

/// The most bytes of a text.
const BYTE_LIMIT: usize = 4_194_304;

/// What a line says.
#[tactic(auto, unfolding(crate::specs::Sayings::line_says))]
fn line_says<'a>(alloc: Global, line: &'a [u8]) -> Result<Saying<'a>, Memory>
    ensures { IfOk result (λ saying. saying_seen saying ≡ line_says line.now) }
{
    match words_in(alloc, line)? {
        Some(words) => Ok(words_say(words.as_slice())),
        None => Ok(Saying::HasNoForm),
    }
}

/// Adds what a line says.
#[tactic(auto, unfolding(crate::specs::Adding::line_added))]
fn add_line(alloc: Global, ontology: &mut Ontology, line: &[u8]) -> Result<(), LineFault>
    ensures { Changes result (line_added ontology.old line.now) ontology.new }
{
    match line_says(alloc, line) {
        Ok(saying) => add(ontology, &saying),
        Err(_) => Err(LineFault::Memory),
    }
}

/// The ontology of the lines, or the first fault.
fn read_lines(alloc: Global, bytes: &[u8]) -> Result<Ontology, OntologyFault>
    ensures { Tells result (lines_added 0 nothing_declared (lines_of bytes.now)) }
{
    let mut ontology = Ontology::new(alloc);
    let mut place = 0;
    let mut before: u64 = 0;
    while place < bytes.len() {
        let line = line_at(bytes, place);
        match add_line(alloc, &mut ontology, line) {
            Ok(()) => {}
            Err(LineFault::Kind(kind)) => return Err(OntologyFault::Bad {
                line: before + 1,
                kind,
            }),
            Err(LineFault::Memory) => return Err(OntologyFault::Memory),
        }
        before += 1;
        place += line.len() + 1;
    }
    Ok(ontology)
}

/// The ontology of a text, or the first fault.
#[tactic(auto, unfolding(crate::specs::Texts::text_says))]
pub fn read_ontology(alloc: Global, bytes: &[u8]) -> Result<Ontology, OntologyFault>
    ensures { Reads result bytes.now }
{
    if bytes.len() > BYTE_LIMIT {
        return Err(OntologyFault::Bad {
            line: 0,
            kind: OntologyKind::TooLong,
        });
    }
    read_lines(alloc, bytes)
}
