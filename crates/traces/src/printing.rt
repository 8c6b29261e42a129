// Printing: a summary one figure to a line, and an error in one line. Each `Display` is written by hand, since a clause names its text.
ghost use Rattle.std.specs.Prelude.{Some};
ghost use Rattle.traces.specs.Prints.{count_text, extreme_text, cause_text, mean_text, summary_text, error_text};

use crate::folding::Summary;
use crate::reading::TraceError;
use std::error::Error;
use std::fmt;

/// A count, by its code.
#[derive(Clone, Copy)]
struct Count(u32);

/// A count is printed as its signed number.
impl fmt::Display for Count {
    ghost output = { λ c. Some (count_text c.0) };

    fn fmt<W: fmt::Write>(&self, f: &mut fmt::Formatter<W>) -> fmt::Result {
        write!(f, "{}", self.0.cast_signed())
    }
}

/// The smallest or the largest count, which an empty trace has not.
#[derive(Clone, Copy)]
struct Extreme(Option<u32>);

/// What is wanting is printed as `none`.
impl fmt::Display for Extreme {
    ghost output = { λ e. Some (extreme_text e.0) };

    fn fmt<W: fmt::Write>(&self, f: &mut fmt::Formatter<W>) -> fmt::Result {
        match self.0 {
            Some(code) => write!(f, "{}", Count(code)),
            None => write!(f, "none"),
        }
    }
}

/// Why there is no quotient.
// A number, as in `Summary`.
#[derive(Clone, Copy)]
struct Cause(u8);

/// Cause 1 is printed in words, any other by its number.
impl fmt::Display for Cause {
    ghost output = { λ c. Some (cause_text c.0) };

    fn fmt<W: fmt::Write>(&self, f: &mut fmt::Formatter<W>) -> fmt::Result {
        if self.0 == 1 {
            write!(f, "division by zero")
        } else {
            write!(f, "cause {}", self.0)
        }
    }
}

/// The mean, or the cause for which there is none.
#[derive(Clone, Copy)]
struct Mean(Result<u32, u8>);

/// A mean is printed as its signed number, or with its cause.
impl fmt::Display for Mean {
    ghost output = { λ m. Some (mean_text m.0) };

    fn fmt<W: fmt::Write>(&self, f: &mut fmt::Formatter<W>) -> fmt::Result {
        match self.0 {
            Ok(code) => write!(f, "{}", Count(code)),
            Err(cause) => write!(f, "none ({})", Cause(cause)),
        }
    }
}

/// A summary is printed one figure to a line.
impl fmt::Display for Summary {
    ghost output = { λ s. Some (summary_text s) };

    fn fmt<W: fmt::Write>(&self, f: &mut fmt::Formatter<W>) -> fmt::Result {
        let samples = self.samples;
        let sum = Count(self.sum);
        let squares = Count(self.squares);
        let smallest = Extreme(self.smallest);
        let largest = Extreme(self.largest);
        let mean = Mean(self.mean);
        write!(
            f,
            "samples: {samples}\nsum: {sum}\nsum of squares: {squares}\nsmallest: {smallest}\nlargest: {largest}\nmean: {mean}"
        )
    }
}

/// An error is printed in one line.
// Written by hand, since a clause names the text.
impl fmt::Display for TraceError {
    ghost output = { λ e. Some (error_text e) };

    fn fmt<W: fmt::Write>(&self, f: &mut fmt::Formatter<W>) -> fmt::Result {
        match self {
            TraceError::NoCount { line, word } => write!(
                f,
                "line {line}: '{word}' is no count (expected a whole number from -2147483648 to 2147483647)"
            ),
            TraceError::NoMemory => write!(f, "out of memory"),
        }
    }
}

impl Error for TraceError {}
