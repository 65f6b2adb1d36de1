//! The program: the words after its name, standard input and standard output, given to the one call that
//! carries the promises, `flight_top::flight_alone`.
#![tactic(auto)]

use flight_base::{StdSink, StdSource};
use flight_top::flight_alone;
use std::process::ExitCode;
use std::{env, io};

/// The exit code where the system does not give the words as text.
const NO_WORDS: u8 = 9;

/// The words after the program's name.
fn words(rt: &HostRuntime) -> io::Result<Vec<String>> {
    let mut words = Vec::new(rt.alloc());
    for word in env::args(rt)?.skip(1) {
        words.push(word)?;
    }
    Ok(words)
}

fn main(rt: HostRuntime) -> ExitCode {
    let Ok(words) = words(&rt) else {
        return ExitCode::from(NO_WORDS);
    };
    let mut source = StdSource::new(rt.reader());
    let mut sink = StdSink::new(io::writer(&rt));
    let told = flight_alone(rt.alloc(), words.as_slice(), &mut source, &mut sink);
    ExitCode::from(told.status.code())
}
