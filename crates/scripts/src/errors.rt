// Why a line of a script cannot be read.
ghost use Rattle.std.specs.Prelude.{◌≡◌};
ghost use Rattle.scripts.specs.Readings.{FoundOr};
ghost use Rattle.scripts.specs.declared.errors.ReadError.TheVariants.{NoMemory};

use std::alloc::{AllocError, AllocFailed, Global};

/// Why a line of a script says no command; a word that is at fault is told.
#[derive(Debug, Drop)]
pub enum ReadError {
    /// Memory was wanting.
    NoMemory,
    /// The first word names no command.
    NoCommand(String),
    /// The name of an algebra is wanting.
    MissingAlgebra,
    /// A number is wanting.
    MissingNumber,
    /// A word stands behind the last that the command takes.
    Surplus(String),
    /// A word names no algebra.
    NoAlgebra(String),
    /// A word is no number.
    NoNumber(String),
    /// A word has no list of numbers in brackets.
    NoList(String),
    /// A word is no base type of the algebra.
    NoBase(String),
    /// A word is no operator.
    NoOperator(String),
    /// A word is no kind of line.
    NoKind(String),
    /// A word is no type.
    NoType(String),
    /// A word gives no field that the command has.
    NoField(String),
    /// A field is given more than once.
    Twice(String),
}

/// An allocation that fails is want of memory.
// By hand, since clauses name the error that a `?` makes of it.
impl From<AllocError> for ReadError {
    ghost from_gives = { λ _ r. r ≡ NoMemory };

    fn from(_error: AllocError) -> ReadError {
        ReadError::NoMemory
    }
}

/// So is a value that found no place.
// By hand for the same reason.
impl<T: Drop> From<AllocFailed<T>> for ReadError {
    ghost from_gives = { λ _ r. r ≡ NoMemory };

    fn from(_error: AllocFailed<T>) -> ReadError {
        ReadError::NoMemory
    }
}

/// What was looked for in a word, or else the error that tells what is wrong with the word.
pub fn found_or<T, F: FnOnce(String) -> ReadError + Drop>(
    heap: Global,
    thing: Option<T>,
    word: &str,
    wrong: F,
) -> Result<T, ReadError>
    requires { F.IsAlwaysCallable wrong }
    ensures { FoundOr thing word.now (λ text error. F.post wrong text error) result }
{
    match thing {
        Some(thing) => Ok(thing),
        None => Err(wrong(String::from_str(heap, word)?)),
    }
}
