// The answers of a session's calls, and their words.
ghost use Rattle.std.specs.Prelude.{Some};
ghost use Rattle.sessions.specs.Words.{word_of};

use lines::Refusal;
use shapes::ArrayType;
use std::fmt;
use typing::Entry;

/// The calls.
#[derive(Clone, Copy)]
pub enum Call {
    Open,
    Line,
    Enter,
    Scrap,
    Withdraw,
    Entry,
}

/// What a call that is not refused answers.
#[derive(Clone, Copy)]
pub enum Answer {
    /// A slip, by its serial.
    Slip(u32),
    /// The number of a line.
    Line(u32),
    /// The number of a formula.
    Formula(u32),
    /// That it is done.
    Done,
    /// What is known of a formula.
    Stated(Entry),
}

/// An answer or a refusal beside the call that it answers.
#[derive(Clone, Copy)]
pub struct Told {
    pub call: Call,
    pub answer: Result<Answer, Refusal>,
}

/// A type of counts, printed as a script writes it.
#[derive(Clone, Copy)]
struct TypeText<'a>(&'a ArrayType);

/// What is known of a formula, printed as a session tells it.
#[derive(Clone, Copy)]
pub(crate) struct EntryText<'a>(pub &'a Entry);

/// A refusal, printed with its number, its line if it names one, and its reason.
#[derive(Clone, Copy)]
struct RefusalText(Refusal);

/// A call is printed as the word by which a script names it.
// Written by hand, since clauses name the text.
impl fmt::Display for Call {
    ghost output = { λ c. Some (word_of c) };

    fn fmt<W: fmt::Write>(&self, f: &mut fmt::Formatter<W>) -> fmt::Result {
        match self {
            Call::Open => write!(f, "open"),
            Call::Line => write!(f, "line"),
            Call::Enter => write!(f, "enter"),
            Call::Scrap => write!(f, "scrap"),
            Call::Withdraw => write!(f, "withdraw"),
            Call::Entry => write!(f, "entry"),
        }
    }
}

impl fmt::Display for TypeText<'_> {
    fn fmt<W: fmt::Write>(&self, f: &mut fmt::Formatter<W>) -> fmt::Result {
        let base = if self.0.base == 0 { "count" } else { "flag" };
        write!(f, "{base}[")?;
        for (i, axis) in self.0.shape.axes().iter().enumerate() {
            let comma = if i > 0 { "," } else { "" };
            write!(f, "{comma}{axis}")?;
        }
        write!(f, "]")
    }
}

impl fmt::Display for EntryText<'_> {
    fn fmt<W: fmt::Write>(&self, f: &mut fmt::Formatter<W>) -> fmt::Result {
        write!(f, "parameters")?;
        for of in self.0.parameters() {
            write!(f, " {}", TypeText(of))?;
        }
        let mark = if self.0.withdrawn {
            "withdrawn"
        } else {
            "in use"
        };
        write!(
            f,
            "; result {}; steps {}, room {}, depth {}; {mark}",
            TypeText(&self.0.result),
            self.0.steps,
            self.0.room,
            self.0.depth
        )
    }
}

impl fmt::Display for RefusalText {
    fn fmt<W: fmt::Write>(&self, f: &mut fmt::Formatter<W>) -> fmt::Result {
        let refusal = self.0;
        let number = refusal.number();
        match refusal.line() {
            Some(line) => write!(f, "refused {number} at line {line} ({refusal})"),
            None => write!(f, "refused {number} ({refusal})"),
        }
    }
}

impl fmt::Display for Answer {
    fn fmt<W: fmt::Write>(&self, f: &mut fmt::Formatter<W>) -> fmt::Result {
        match self {
            Answer::Slip(serial) => write!(f, "slip {serial}"),
            Answer::Line(number) => write!(f, "{number}"),
            Answer::Formula(number) => write!(f, "formula {number}"),
            Answer::Done => write!(f, "done"),
            Answer::Stated(entry) => write!(f, "{}", EntryText(entry)),
        }
    }
}

impl fmt::Display for Told {
    fn fmt<W: fmt::Write>(&self, f: &mut fmt::Formatter<W>) -> fmt::Result {
        let call = self.call;
        match self.answer {
            Ok(answer) => write!(f, "{call}: {answer}"),
            Err(refusal) => write!(f, "{call}: {}", RefusalText(refusal)),
        }
    }
}
