//! Runs the command that the arguments name.
#![tactic(auto)]

use edge_io::{StdFiles, StdSink, StdSource};
use monitor_run::run;
use std::env;
use std::io::ErrorKind;
use std::process::ExitCode;

/// The exit status where the arguments themselves find no memory.
const NO_MEMORY: u8 = 7;

fn main(rt: HostRuntime) -> ExitCode {
    match words(&rt) {
        Some(words) => {
            let mut input = StdSource::new(rt.stdin());
            let mut out = StdSink::new(rt.stdout());
            let mut err = StdSink::new(rt.stderr());
            let alloc = rt.alloc();
            let mut files = StdFiles::new(rt);
            let status = run(alloc, &words, &mut files, &mut input, &mut out, &mut err);
            ExitCode::from(status as u8)
        }
        None => ExitCode::from(NO_MEMORY),
    }
}

/// The words after the program's name, or no word where one isn't UTF-8, since it names no command.
fn words(rt: &HostRuntime) -> Option<Vec<String>> {
    let mut words = Vec::new(rt.alloc());
    let args = match env::args(rt) {
        Ok(args) => args,
        Err(error) if error.kind() == ErrorKind::InvalidData => return Some(words),
        Err(_) => return None,
    };
    for word in args.skip(1) {
        words.push(word).ok()?;
    }
    Some(words)
}
