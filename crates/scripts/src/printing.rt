// Printing why a line of a script cannot be read.
ghost use Rattle.std.specs.Prelude.{Some};
ghost use Rattle.scripts.specs.Prints.{error_text};

use crate::errors::ReadError;
use std::fmt;

/// An error is printed in one line: what is wrong, and what was expected.
// By hand, since a clause states the text, which a derive would not.
impl fmt::Display for ReadError {
    ghost output = { λ e. Some (error_text e) };

    fn fmt<W: fmt::Write>(&self, f: &mut fmt::Formatter<W>) -> fmt::Result {
        match self {
            ReadError::NoMemory => write!(f, "out of memory"),
            ReadError::MissingAlgebra => write!(
                f,
                "the name of an algebra is missing (expected counts or amplitudes)"
            ),
            ReadError::MissingNumber => write!(
                f,
                "a number is missing (expected the digits of a number below 18446744073709551616)"
            ),
            ReadError::NoCommand(word) => write!(
                f,
                "'{word}' is no command (expected algebra, store, open, line, enter, scrap, withdraw, entry, begin, step, result, close or run)"
            ),
            ReadError::Surplus(word) => write!(
                f,
                "'{word}' is one word too many (expected the end of the line)"
            ),
            ReadError::NoAlgebra(word) => write!(
                f,
                "'{word}' is no algebra (expected counts or amplitudes)"
            ),
            ReadError::NoNumber(word) => write!(
                f,
                "'{word}' is no number (expected the digits of a number below 18446744073709551616)"
            ),
            ReadError::NoList(word) => write!(
                f,
                "'{word}' has no list in brackets (expected numbers as in [1,2,3], or [])"
            ),
            ReadError::NoBase(word) => write!(
                f,
                "'{word}' is no base type (expected count or amplitude as the algebra has it, flag, or a number)"
            ),
            ReadError::NoOperator(word) => write!(
                f,
                "'{word}' is no operator (expected add, sub, mul, quo, less, and, or, not, pick or a number)"
            ),
            ReadError::NoKind(word) => write!(
                f,
                "'{word}' is no kind (expected literal, parameter, frame, operator, call, fold, append, reverse or a number)"
            ),
            ReadError::NoType(word) => write!(
                f,
                "'{word}' is no type (expected a base type and its axes, as count[3,2] or flag[])"
            ),
            ReadError::NoField(word) => write!(
                f,
                "'{word}' gives no field of this command (expected slip=.. behind enter and scrap, codes=.. behind a formula, and behind line also kind=.., base=.., shape=.., function=.. and operands=..)"
            ),
            ReadError::Twice(word) => write!(
                f,
                "'{word}' is given more than once (expected each field at most once)"
            ),
        }
    }
}
