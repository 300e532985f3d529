//! Words of the command line, accepted and refused.
use crate::{FilesCommand, OnFiles, Request, Watch, WordsFault, read_words};
use forms::{LineForm, ReportForm, StreamForm};
use std::alloc::Global;
use std::test::Fail;

/// The words between the spaces of a line.
fn words_of(alloc: Global, line: &str) -> Result<Vec<String>, Fail> {
    let mut words = Vec::new(alloc);
    for word in line.split(' ') {
        words.push(String::from_str(alloc, word)?)?;
    }
    Ok(words)
}

/// A watch of O and Q.
fn watch_of(form: StreamForm, report: ReportForm, sizes: bool) -> Request<'static> {
    Request::Watch(Watch {
        ontology: "O",
        queries: "Q",
        owl: false,
        form,
        report,
        sizes,
    })
}

/// A command on O and Q.
fn on_files(command: FilesCommand, owl: bool) -> Request<'static> {
    Request::OnFiles(OnFiles {
        command,
        ontology: "O",
        queries: "Q",
        owl,
    })
}

#[test]
fn accepts_watches(rt: HostRuntime) -> Result<(), Fail> {
    let plain = watch_of(StreamForm::Text, ReportForm::Lines(LineForm::Text), false);
    let with_sizes = watch_of(StreamForm::Text, ReportForm::Lines(LineForm::Text), true);
    let in_json = watch_of(StreamForm::Json, ReportForm::Lines(LineForm::Text), false);
    let as_csv = watch_of(StreamForm::Json, ReportForm::Lines(LineForm::Csv), true);
    for (line, request) in [
        ("watch O Q", plain),
        ("watch O Q --form text --report text", plain),
        ("watch O Q --sizes", with_sizes),
        ("watch --sizes O Q", with_sizes),
        ("watch O Q --form json", in_json),
        ("watch O --form=json Q", in_json),
        ("watch O Q --sizes --report csv --form json", as_csv),
        ("watch O Q --form json --sizes --report csv", as_csv),
    ] {
        let words = words_of(rt.alloc(), line)?;
        assert_eq!(rt; read_words(rt.alloc(), &words), Ok(request), "{line}");
    }
    Ok(())
}

#[test]
fn accepts_rewritings_and_drills(rt: HostRuntime) -> Result<(), Fail> {
    for (line, request) in [
        ("rewrite O Q", on_files(FilesCommand::Rewrite, false)),
        ("contain O Q", on_files(FilesCommand::Contain, false)),
        ("audit O Q", on_files(FilesCommand::Audit, false)),
        ("explain O Q", on_files(FilesCommand::Explain, false)),
        ("verify O Q", on_files(FilesCommand::Verify, false)),
        ("streams O Q", on_files(FilesCommand::Streams, false)),
        ("drill 0 0", Request::Drill { seed: 0, count: 0 }),
        ("drill 7 3", Request::Drill { seed: 7, count: 3 }),
        (
            "drill 2147483647 100000",
            Request::Drill {
                seed: 2_147_483_647,
                count: 100_000,
            },
        ),
    ] {
        let words = words_of(rt.alloc(), line)?;
        assert_eq!(rt; read_words(rt.alloc(), &words), Ok(request), "{line}");
    }
    Ok(())
}

#[test]
fn accepts_documents(rt: HostRuntime) -> Result<(), Fail> {
    let watch = Request::Watch(Watch {
        ontology: "O",
        queries: "Q",
        owl: true,
        form: StreamForm::Text,
        report: ReportForm::Lines(LineForm::Text),
        sizes: true,
    });
    for (line, request) in [
        ("watch O Q --sizes --owl", watch),
        ("watch --owl O Q --sizes", watch),
        ("rewrite O Q --owl", on_files(FilesCommand::Rewrite, true)),
        ("contain --owl O Q", on_files(FilesCommand::Contain, true)),
        ("streams O Q --owl", on_files(FilesCommand::Streams, true)),
        ("verify O Q --owl", on_files(FilesCommand::Verify, true)),
        ("explain O Q --owl", on_files(FilesCommand::Explain, true)),
    ] {
        let words = words_of(rt.alloc(), line)?;
        assert_eq!(rt; read_words(rt.alloc(), &words), Ok(request), "{line}");
    }
    Ok(())
}

#[test]
fn refuses_other_words(rt: HostRuntime) -> Result<(), Fail> {
    let none = Vec::new(rt.alloc());
    assert_eq!(rt; read_words(rt.alloc(), &none), Err(WordsFault::Usage));
    for line in [
        "",
        "look O Q",
        "Watch O Q",
        "watch",
        "watch O",
        "watch O Q R",
        "watch O Q ",
        "watch  Q",
        "watch - Q",
        "watch O Q -",
        "watch O Q --",
        "watch -- O Q",
        "watch O Q --sizes --sizes",
        "watch O Q --form json --form json",
        "watch O Q --siz",
        "watch O Q --sizes=1",
        "watch O Q --form csv",
        "watch O Q --form",
        "watch O Q --form=",
        "watch O Q --form=-json",
        "watch O Q --report xml",
        "watch O Q --from c1",
        "watch O Q --to c1",
        "watch O Q -h",
        "watch O Q --help",
        "watch O Q --version",
        "watch O -Q",
        "rewrite O",
        "rewrite O Q R",
        "rewrite O Q --sizes",
        "rewrite O Q --form json",
        "rewrite O Q --owl --owl",
        "rewrite O Q --owl=1",
        "watch O Q --ow",
        "contain O",
        "contain O Q --sizes",
        "audit O",
        "streams O",
        "verify O",
        "explain O",
        "drill 1",
        "drill 1 1 1",
        "drill 1 1 --sizes",
        "drill 1 1 --owl",
        "drill 07 3",
        "drill +7 3",
        "drill -7 3",
        "drill 7 x",
        "drill 2147483648 1",
        "drill 4294967296 1",
        "drill 1 100001",
    ] {
        let words = words_of(rt.alloc(), line)?;
        assert_eq!(rt;
            read_words(rt.alloc(), &words),
            Err(WordsFault::Usage),
            "{line}"
        );
    }
    Ok(())
}
