// The program `formulary`: reads the counts of one trace from a file, or from standard input, and prints its summary.
#![tactic(auto)]

ghost use Rattle.std.specs.Prelude.{◌≡◌};
ghost use Rattle.formulary.specs.Sources.{source_of, name_of};

use std::process::ExitCode;
use std::{env, fs, io};
use thiserror::Error;
use traces::{Summary, TraceError, read_trace};

/// Why there is no summary.
#[derive(Debug, Drop, Error)]
enum Failure {
    /// The text could not be read, or the summary not be written.
    #[error(transparent)]
    System(#[from] io::Error),
    /// The text is no trace.
    #[error(transparent)]
    NoTrace(#[from] TraceError),
}

/// What a trace is read from.
// No Option: both methods would say anew that none means standard input, and would stand on no type.
#[derive(Drop)]
enum Source {
    File(String),
    StandardInput,
}

impl Source {
    /// The file that the argument names, or standard input if there is none.
    fn named(argument: Option<String>) -> Source
        ensures { result ≡ source_of argument }
    {
        match argument {
            Some(name) => Source::File(name),
            None => Source::StandardInput,
        }
    }

    /// The name by which a message calls the source.
    fn name(&self) -> &str
        ensures { result.now ≡ name_of self.now }
    {
        match self {
            Source::File(name) => name.as_str(),
            Source::StandardInput => "standard input",
        }
    }

    /// The whole text of the source.
    fn text(&self, rt: &HostRuntime) -> io::Result<String> {
        match self {
            Source::File(name) => fs::read_to_string(rt, name.as_str()),
            Source::StandardInput => io::read_to_string(rt.alloc(), rt.stdin()),
        }
    }
}

/// Prints the summary of the trace that the source holds.
fn run(rt: &HostRuntime, source: &Source) -> Result<(), Failure> {
    let text = source.text(rt)?;
    let codes = read_trace(rt.alloc(), text.as_str())?;
    let summary = Summary::of(codes.as_slice());
    println!(rt; "{summary}")?;
    Ok(())
}

/// Prints the summary of the trace that the first argument names; a failure is told in one line on standard error.
fn main(rt: HostRuntime) -> io::Result<ExitCode> {
    let source = Source::named(env::args(&rt)?.nth(1));
    match run(&rt, &source) {
        Ok(()) => Ok(ExitCode::SUCCESS),
        Err(failure) => {
            let name = source.name();
            eprintln!(rt; "formulary: {name}: {failure}")?;
            Ok(ExitCode::FAILURE)
        }
    }
}
