//! `vsd run` reads declarations and a script from standard input and writes what the script's calls
//! answer. It exits with 0 where all was answered, 2 where the words are no command, 3 where the text is
//! refused, 4 at a read fault, 5 at a write fault and 6 for want of memory.
#![tactic(auto)]

use std::process::ExitCode;
use std::rt::Env;
use std::{env, io};
use vsd_runner::{Status, StdSink, StdSource, number, run};

fn main(rt: HostRuntime) -> ExitCode {
    let alloc = rt.alloc();
    let words = match words(&rt) {
        Ok(words) => words,
        Err(error) if error.kind() == io::ErrorKind::OutOfMemory => {
            return ExitCode::from(number(&Status::Memory));
        }
        // A word that is no text is in no command, and neither are no words.
        Err(_) => Vec::new(alloc),
    };
    let mut source = StdSource::new(rt.stdin());
    let mut sink = StdSink::new(rt.stdout());
    let ended = run(alloc, &words, &mut source, &mut sink);
    ExitCode::from(number(&ended.status))
}

/// The words after the program's name.
fn words<R: Env + AllocGlobal>(rt: &R) -> io::Result<Vec<String>> {
    Ok(env::args(rt)?.skip(1).collect(rt.alloc())?)
}
