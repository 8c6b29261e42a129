// The program `formulary`: reads session scripts, makes the calls that they name, and prints the answers.
#![tactic(auto)]

ghost use Rattle.std.specs.Prelude.{◌≡◌, true, MatchResult};
ghost use Rattle.formulary_session.specs.Sources.{Gives, in_file};

use lines::Line;
use scripts::{AlgebraName, Codes, Command, LineFields, read_command, read_numbers};
use sessions::{Session, Told, Trouble};
use std::process::ExitCode;
use std::{env, fs, io};
use thiserror::Error;

/// What stopped a script, with the number of the line, from 1.
#[derive(Debug, Drop, Error)]
#[error("line {line}: {trouble}")]
struct Stopped {
    line: usize,
    trouble: Trouble,
}

/// Why the program fails.
#[derive(Debug, Drop, Error)]
enum Failure {
    /// A script was stopped.
    #[error(transparent)]
    Script(#[from] Stopped),
    /// The file of a script cannot be read.
    #[error("formulary: {name}: {error}")]
    Unread { name: String, error: io::Error },
    /// The names or the script cannot be read, or an answer not be written.
    #[error(transparent)]
    System(#[from] io::Error),
}

/// The codes that a command gives, out of the script or out of the file that it names.
// The runtime goes to each function that reads or prints, as the library has it.
fn codes_of(rt: &HostRuntime, codes: Codes) -> Result<Vec<u64>, Trouble>
    ensures { MatchResult result (λ v. Gives codes v.items) (λ e. in_file codes ≡ true) }
{
    match codes {
        Codes::Given(codes) => Ok(codes),
        Codes::File(path) => {
            let text = fs::read_to_string(rt, path.as_str())?;
            Ok(read_numbers(rt.alloc(), text.as_str())?)
        }
    }
}

/// The session that a script is played on, and whether a command was read: the algebra is named before all others.
// The session is lent: it holds the tables of a collection, and is not copied for a script.
#[derive(Drop)]
struct Player<'a> {
    session: &'a mut Session,
    begun: bool,
}

impl Player<'_> {
    /// Adds the line that a command gives.
    fn add_line(&mut self, rt: &HostRuntime, fields: LineFields) -> Result<Told, Trouble> {
        let codes = codes_of(rt, fields.codes)?;
        let line = Line {
            kind: fields.kind,
            base: fields.base,
            shape: fields.shape.as_slice(),
            function: fields.function,
            operands: fields.operands.as_slice(),
            codes: codes.as_slice(),
        };
        self.session.line(fields.slip, &line)
    }

    /// Makes the call that a command names; a comment and the naming of the algebra make none.
    // A match, since each command holds values of its own, which a table of closures could not take out of it.
    fn perform(&mut self, rt: &HostRuntime, command: Command) -> Result<Option<Told>, Trouble> {
        let told = match command {
            Command::Nothing => return Ok(None),
            Command::Algebra(_) if self.begun => return Err(Trouble::LateAlgebra),
            Command::Algebra(AlgebraName::Counts) => None,
            Command::Open(types) => Some(self.session.open(rt.alloc(), types.as_slice())?),
            Command::Line(fields) => Some(self.add_line(rt, fields)?),
            Command::Enter(serial) => Some(self.session.enter(serial)?),
            Command::Scrap(serial) => Some(self.session.scrap(serial)?),
            Command::Withdraw(number) => Some(self.session.withdraw(number)),
            Command::Entry(number) => Some(self.session.entry(number)),
            _ => return Err(Trouble::NotYet),
        };
        self.begun = true;
        Ok(told)
    }

    /// Reads one line of a script, makes its call and prints the answer.
    fn step(&mut self, rt: &HostRuntime, line: &str) -> Result<(), Trouble> {
        let command = read_command(rt.alloc(), AlgebraName::Counts, line)?;
        if let Some(told) = self.perform(rt, command)? {
            println!(rt; "{told}")?;
        }
        Ok(())
    }

    /// Goes through a script line by line, up to the first that stops it.
    fn play(&mut self, rt: &HostRuntime, script: &str) -> Result<(), Stopped> {
        for (i, line) in script.lines().enumerate() {
            self.step(rt, line).map_err(|trouble| Stopped {
                line: i.saturating_add(1),
                trouble,
            })?;
        }
        Ok(())
    }
}

/// One session: its answers, its summary, and what stopped it.
fn run(rt: &HostRuntime, script: &str) -> Result<(), Failure> {
    let mut session = Session::new(rt.alloc());
    let mut player = Player {
        session: &mut session,
        begun: false,
    };
    let played = player.play(rt, script);
    let summary = &session;
    let printed = println!(rt; "{summary}");
    session.end();
    printed?;
    Ok(played?)
}

/// The session that the script in a file gives.
fn run_file(rt: &HostRuntime, name: String) -> Result<(), Failure> {
    match fs::read_to_string(rt, name.as_str()) {
        Ok(script) => run(rt, script.as_str()),
        Err(error) => Err(Failure::Unread { name, error }),
    }
}

/// Runs the scripts that the arguments name up to the first that fails, each as a session of its own, or the one on standard input.
fn run_all(rt: &HostRuntime) -> Result<(), Failure> {
    let mut names = env::args(rt)?.skip(1);
    let Some(first) = names.next() else {
        let script = io::read_to_string(rt.alloc(), rt.stdin())?;
        return run(rt, script.as_str());
    };
    run_file(rt, first)?;
    for name in names {
        run_file(rt, name)?;
    }
    Ok(())
}

/// Runs the scripts that are named; the status is 1 where one fails, and what failed is told.
fn main(rt: HostRuntime) -> io::Result<ExitCode> {
    match run_all(&rt) {
        Ok(()) => Ok(ExitCode::SUCCESS),
        Err(Failure::System(error)) => Err(error),
        Err(failure) => {
            eprintln!(rt; "{failure}")?;
            Ok(ExitCode::FAILURE)
        }
    }
}
