//! Lines of a stream.

ghost use Rattle.std.specs.Prelude.{◌≤◌, length};
ghost use Rattle.std.specs.Option.{option_map_or};
ghost use Rattle.text_scan.specs.declared.TokenKind.TheVariants.{Name};
ghost use Rattle.dl_syntax.specs.Ontology.{Declared};
ghost use Rattle.snapshot_reader.specs.Written.{writes, malformed, symbols_write};
ghost use Rattle.snapshot_reader.specs.Said.{line_says, said};
ghost use Rattle.snapshot_reader.specs.Answers.{Tells};
ghost use Rattle.snapshot_reader.specs.Cursor.{symbols_from, facts_from, IsTokenOf};

use crate::facts::{NextFact, name_of, next_fact};
use crate::gathering::Gathered;
use crate::individuals::read_individual;
use crate::json_lines::read_json;
use crate::{Reading, SnapFault};
use dl_syntax::Ontology;
use forms::StreamForm;
use std::alloc::Global;
use text_scan::{Next, next_token};

/// What the facts from a place on say.
fn read_facts(
    alloc: Global,
    line: &[u8],
    from: usize,
    ontology: &Ontology,
) -> Result<Reading, SnapFault>
    requires { from ≤ length line.now }
    ensures { Tells result (line_says ontology.now
        (option_map_or writes (facts_from line.now from) malformed)) }
{
    let mut gathered = Gathered::new(alloc);
    let mut place = from;
    loop {
        match next_fact(line, place) {
            NextFact::Fact(written, end) => {
                gathered.gather(ontology, &written)?;
                place = end;
            }
            NextFact::End => return gathered.reading(alloc),
            NextFact::Malformed => return Err(SnapFault::Malformed),
        }
    }
}

/// What a line says that doesn't begin with a name.
fn read_no_name(line: &[u8]) -> Result<Reading, SnapFault>
    requires { IsTokenOf Name line.now 0 None }
    ensures { (o : Declared)
        → Tells result (line_says o (symbols_write (symbols_from line.now 0))) }
{
    match next_token(line, 0) {
        Next::Token(_) => Err(SnapFault::Malformed),
        Next::Fault(_) => Err(SnapFault::Malformed),
        Next::End => Ok(Reading::Skip),
    }
}

/// What a line in text form says.
fn read_text(alloc: Global, line: &[u8], ontology: &Ontology) -> Result<Reading, SnapFault>
    ensures { Tells result (line_says ontology.now (symbols_write (symbols_from line.now 0))) }
{
    let Some((word, end)) = name_of(line, 0) else {
        return read_no_name(line);
    };
    if word == b"snap".as_slice() {
        return read_facts(alloc, line, end, ontology);
    }
    if word == b"individual".as_slice() {
        return read_individual(alloc, line, end);
    }
    Err(SnapFault::Malformed)
}

/// What a line says by the names of the ontology.
#[tactic(auto, unfolding(crate::specs::Said::said, crate::specs::Written::line_writes))]
pub fn read_snapshot(
    alloc: Global,
    line: &[u8],
    form: StreamForm,
    ontology: &Ontology,
) -> Result<Reading, SnapFault>
    ensures { Tells result (said ontology.now form line.now) }
{
    match form {
        StreamForm::Text => read_text(alloc, line, ontology),
        StreamForm::Json => read_json(alloc, line, ontology),
    }
}
