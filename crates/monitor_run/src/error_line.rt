//! The line on the error sink, made in an array, so that it takes no memory.

ghost use Rattle.std.specs.Prelude.{◌≡◌, ◌++◌, ◌+◌, ◌≤◌, length};
ghost use Rattle.arrayvec.specs.ArrayVec.{array_vec_len};
ghost use Rattle.monitor_run.specs.Ends.{document_kind_text, kind_text, query_kind_text, line_of};

use arrayvec::ArrayVec;
use itoa::Buffer;
use job_sources::Refusal;
use ontology_reader::OntologyKind;
use owl_reader::OwlKind;
use short_names::ShortName;
use stream_report::Ending;
use tcq_reader::QueryKind;

/// Appends bytes that fit.
fn put(line: &mut ArrayVec<u8, 256>, bytes: &[u8])
    requires { array_vec_len line.old + length bytes.now ≤ 256 }
    ensures items { line.new.items ≡ line.old.items ++ bytes.now }
    ensures len { array_vec_len line.new ≡ array_vec_len line.old + length bytes.now }
{
    line.try_extend_from_slice(bytes).unwrap();
}

fn kind_word(kind: OntologyKind) -> &'static [u8]
    ensures text { result.now ≡ kind_text kind }
    ensures short { length result.now ≤ 16 }
{
    match kind {
        OntologyKind::BadLine => b"bad-line",
        OntologyKind::NameTwice => b"name-twice",
        OntologyKind::Unknown => b"unknown",
        OntologyKind::WrongKind => b"wrong-kind",
        OntologyKind::TooMany => b"too-many",
        OntologyKind::TooLong => b"too-long",
    }
}

/// The line of an ontology's fault.
fn put_fault(out: &mut ArrayVec<u8, 256>, line: u64, kind: OntologyKind)
    requires { array_vec_len out.old ≡ 0 }
    ensures { out.new.items ≡ out.old.items
        ++ line_of (Ending.Refused (Refusal.BadOntology line kind)) }
{
    let mut buffer = Buffer::new();
    put(out, b"tom: ontology line ");
    put(out, buffer.format(line).as_bytes());
    put(out, b": ");
    put(out, kind_word(kind));
    put(out, b"\n");
}

/// Appends a word that isn't taken.
fn put_unsupported(out: &mut ArrayVec<u8, 256>, word: ShortName)
    requires { array_vec_len out.old ≤ 128 }
    ensures items { out.new.items
        ≡ out.old.items ++ document_kind_text (OwlKind.Unsupported word) }
    ensures len { array_vec_len out.new ≤ array_vec_len out.old + 80 }
{
    put(out, b"unsupported ");
    put(out, word.text());
}

/// Appends what is wrong with a document.
fn put_document_kind(out: &mut ArrayVec<u8, 256>, kind: OwlKind)
    requires { array_vec_len out.old ≤ 128 }
    ensures items { out.new.items ≡ out.old.items ++ document_kind_text kind }
    ensures len { array_vec_len out.new ≤ array_vec_len out.old + 80 }
{
    match kind {
        OwlKind::TooLong => put(out, b"too-long"),
        OwlKind::BadOwl => put(out, b"bad-owl"),
        OwlKind::Unsupported(word) => put_unsupported(out, word),
        OwlKind::Unknown => put(out, b"unknown"),
        OwlKind::BadName => put(out, b"bad-name"),
        OwlKind::NameTwice => put(out, b"name-twice"),
        OwlKind::WrongKind => put(out, b"wrong-kind"),
        OwlKind::TooMany => put(out, b"too-many"),
    }
}

/// The line of a document's fault.
fn put_document_fault(out: &mut ArrayVec<u8, 256>, line: u64, kind: OwlKind)
    requires { array_vec_len out.old ≡ 0 }
    ensures { out.new.items ≡ out.old.items
        ++ line_of (Ending.Refused (Refusal.BadDocument line kind)) }
{
    let mut buffer = Buffer::new();
    put(out, b"tom: ontology line ");
    put(out, buffer.format(line).as_bytes());
    put(out, b": ");
    put_document_kind(out, kind);
    put(out, b"\n");
}

/// Appends the size of queries that are too large.
fn put_total(out: &mut ArrayVec<u8, 256>, total: u128)
    requires { array_vec_len out.old ≤ 128 }
    ensures items { out.new.items ≡ out.old.items ++ query_kind_text (QueryKind.TooLarge total) }
    ensures len { array_vec_len out.new ≤ array_vec_len out.old + 64 }
{
    let mut buffer = Buffer::new();
    put(out, b"too-large ");
    put(out, buffer.format(total).as_bytes());
}

/// Appends what is wrong with the queries.
fn put_query_kind(out: &mut ArrayVec<u8, 256>, kind: QueryKind)
    requires { array_vec_len out.old ≤ 128 }
    ensures items { out.new.items ≡ out.old.items ++ query_kind_text kind }
    ensures len { array_vec_len out.new ≤ array_vec_len out.old + 64 }
{
    match kind {
        QueryKind::BadQuery => put(out, b"bad-query"),
        QueryKind::NameTwice => put(out, b"name-twice"),
        QueryKind::Unknown => put(out, b"unknown"),
        QueryKind::WrongKind => put(out, b"wrong-kind"),
        QueryKind::Undeclared => put(out, b"undeclared"),
        QueryKind::TooMany => put(out, b"too-many"),
        QueryKind::TooLarge(total) => put_total(out, total),
        QueryKind::TooLong => put(out, b"too-long"),
    }
}

/// The line of a fault of the queries.
fn put_query_fault(out: &mut ArrayVec<u8, 256>, line: u64, kind: QueryKind)
    requires { array_vec_len out.old ≡ 0 }
    ensures { out.new.items ≡ out.old.items
        ++ line_of (Ending.Refused (Refusal.BadQueries line kind)) }
{
    let mut buffer = Buffer::new();
    put(out, b"tom: queries line ");
    put(out, buffer.format(line).as_bytes());
    put(out, b": ");
    put_query_kind(out, kind);
    put(out, b"\n");
}

/// The line of a query that is no leaf.
fn put_no_leaf(out: &mut ArrayVec<u8, 256>, name: ShortName)
    requires { array_vec_len out.old ≡ 0 }
    ensures { out.new.items ≡ out.old.items ++ line_of (Ending.Refused (Refusal.NotALeaf name)) }
{
    put(out, b"tom: queries: not-a-leaf ");
    put(out, name.text());
    put(out, b"\n");
}

/// The line of queries that are too large for the job.
fn put_too_large(out: &mut ArrayVec<u8, 256>, total: u128)
    requires { array_vec_len out.old ≡ 0 }
    ensures { out.new.items ≡ out.old.items ++ line_of (Ending.Refused (Refusal.TooLarge total)) }
{
    put(out, b"tom: queries: ");
    put_total(out, total);
    put(out, b"\n");
}

/// The line of a refusal.
fn put_refusal(out: &mut ArrayVec<u8, 256>, refusal: Refusal)
    requires { array_vec_len out.old ≡ 0 }
    ensures { out.new.items ≡ out.old.items ++ line_of (Ending.Refused refusal) }
{
    match refusal {
        Refusal::BadOntology(line, kind) => put_fault(out, line, kind),
        Refusal::BadDocument(line, kind) => put_document_fault(out, line, kind),
        Refusal::TooManyRewritings => put(out, b"tom: ontology: too-many-rewritings\n"),
        Refusal::BadQueries(line, kind) => put_query_fault(out, line, kind),
        Refusal::NotALeaf(name) => put_no_leaf(out, name),
        Refusal::TooLarge(total) => put_too_large(out, total),
    }
}

/// The line that says how a run ended, if there is one.
pub fn error_line(ending: Ending<Refusal>) -> ArrayVec<u8, 256>
    ensures { result.items ≡ line_of ending }
{
    let mut line = ArrayVec::new();
    match ending {
        Ending::Done => {}
        Ending::Usage => put(&mut line, b"tom: usage\n"),
        Ending::Refused(refusal) => put_refusal(&mut line, refusal),
        Ending::ReadFault => put(&mut line, b"tom: read fault\n"),
        Ending::WriteFault => put(&mut line, b"tom: write fault\n"),
        Ending::Memory => put(&mut line, b"tom: out of memory\n"),
        Ending::StreamLimit => put(&mut line, b"tom: stream limit\n"),
    }
    line
}
