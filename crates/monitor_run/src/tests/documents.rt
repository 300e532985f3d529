//! Ontologies that are OWL 2 documents.
use super::{ran, whole};
use crate::Status;
use std::test::Fail;

const DOCUMENT: &[u8] =
    b"Prefix(:=<http://x/#>) Ontology(Declaration(Class(:Server)) Declaration(ObjectProperty(:runs))
Declaration(NamedIndividual(:s1)) SubClassOf(:Server ObjectSomeValuesFrom(:runs owl:Thing)))";

const QUERIES: &[u8] = b"query t (?x) = [runs(?x,?y)] ;";

#[test]
fn a_document_is_watched(rt: HostRuntime) -> Result<(), Fail> {
    let words = "watch O Q --owl";
    let stream = whole(b"snap Server(s1)\n");
    let outcome = ran(rt.alloc(), words, DOCUMENT, QUERIES, stream)?;
    assert_eq!(rt; outcome.status, Status::Done);
    assert_eq!(rt;
        outcome.report.as_slice(),
        b"line 1 accepted 1\nanswer t s1\nend accepted 1 refused 0\n".as_slice()
    );
    Ok(())
}

#[test]
fn a_word_that_is_not_taken_is_told(rt: HostRuntime) -> Result<(), Fail> {
    let words = "rewrite --owl O Q";
    let document = b"Ontology(\nTransitiveObjectProperty(<r>))";
    let outcome = ran(rt.alloc(), words, document, QUERIES, whole(b""))?;
    assert_eq!(rt; outcome.status, Status::BadOntology);
    assert_eq!(rt;
        outcome.said.as_slice(),
        b"tom: ontology line 2: unsupported TransitiveObjectProperty\n".as_slice()
    );
    Ok(())
}
