// The commands of a script: what one line says.
ghost use Rattle.std.specs.Prelude.{◌≡◌};
ghost use Rattle.scripts.specs.Readings.{Reads, itself, fault_seen};
ghost use Rattle.scripts.specs.Words.{words_of};
ghost use Rattle.scripts.specs.Commands.{nothing_in, only_word, only_number, only_formula, only_algebra, only_slip, may_number, formula_codes, types_of, verb_of, arguments_of, meaning};
ghost use Rattle.scripts.specs.Views.{types_seen, pair_seen, command_seen};

use crate::errors::{ReadError, found_or};
use crate::fields::{Codes, FieldSet, LineFields, check_fields, codes_in, read_fields, slip_in};
use crate::names::{AlgebraName, TypeWord, read_algebra, read_type};
use crate::numbers::{limited, read_number};
use crate::words::{Words, next_word};
use std::alloc::Global;

/// What one line of a script says.
#[derive(Debug, Drop)]
pub enum Command {
    /// A line with no word, or whose first word begins with `#`.
    Nothing,
    /// The algebra of the session.
    Algebra(AlgebraName),
    /// A work store of so many atoms.
    Store(u64),
    /// A slip with parameters of these types.
    Open(Vec<TypeWord>),
    /// A line of a slip.
    Line(LineFields),
    /// The entry of a slip, the newest where none is named.
    Enter(Option<u64>),
    /// The scrapping of a slip, the newest where none is named.
    Scrap(Option<u64>),
    /// The withdrawal of a formula.
    Withdraw(u32),
    /// What the book has of a formula.
    Entry(u32),
    /// The begin of a run of a formula on these codes.
    Begin(u32, Codes),
    /// Steps of the run, so many at most.
    Step(Option<u64>),
    /// The result of the run, in a buffer of so many codes.
    Result(Option<u64>),
    /// The close of the run.
    Close,
    /// A whole run of a formula on these codes.
    Run(u32, Codes),
}

/// The first word of a line that says a command.
#[derive(Clone, Copy)]
pub enum Verb {
    Algebra,
    Store,
    Open,
    Line,
    Enter,
    Scrap,
    Withdraw,
    Entry,
    Begin,
    Step,
    Result,
    Close,
    Run,
}

/// The command that a word names.
// An Option and no `FromStr`, since a word that names nothing is told by the caller, with the word.
fn verb_named(word: &str) -> Option<Verb>
    ensures { result ≡ verb_of word.now }
{
    match word {
        "algebra" => Some(Verb::Algebra),
        "store" => Some(Verb::Store),
        "open" => Some(Verb::Open),
        "line" => Some(Verb::Line),
        "enter" => Some(Verb::Enter),
        "scrap" => Some(Verb::Scrap),
        "withdraw" => Some(Verb::Withdraw),
        "entry" => Some(Verb::Entry),
        "begin" => Some(Verb::Begin),
        "step" => Some(Verb::Step),
        "result" => Some(Verb::Result),
        "close" => Some(Verb::Close),
        "run" => Some(Verb::Run),
        _ => None,
    }
}

/// Sees that a text has no word.
fn no_more(heap: Global, text: &str) -> Result<(), ReadError>
    ensures { Reads (nothing_in (words_of text.now)) itself result }
{
    match next_word(text) {
        Some((word, _)) => Err(ReadError::Surplus(String::from_str(heap, word)?)),
        None => Ok(()),
    }
}

/// The only word of a text, or `missing` where there is none.
fn only_word<'a>(heap: Global, text: &'a str, missing: ReadError) -> Result<&'a str, ReadError>
    ensures { Reads (only_word (fault_seen missing) (words_of text.now)) (λ word. word.now) result }
{
    // No `ok_or(missing)?`: to move the error about took a tenth of the reading of a short command.
    let Some((word, rest)) = next_word(text) else {
        return Err(missing);
    };
    no_more(heap, rest)?;
    Ok(word)
}

/// Reads the only word of a text as a number.
fn only_number(heap: Global, text: &str) -> Result<u64, ReadError>
    ensures { Reads (only_number (words_of text.now)) itself result }
{
    let word = only_word(heap, text, ReadError::MissingNumber)?;
    read_number(heap, word)
}

/// Reads the only word of a text as the number of a formula.
fn only_formula(heap: Global, text: &str) -> Result<u32, ReadError>
    ensures { Reads (only_formula (words_of text.now)) itself result }
{
    only_number(heap, text).map(limited)
}

/// Reads the only word of a text as an algebra.
fn only_algebra(heap: Global, text: &str) -> Result<AlgebraName, ReadError>
    ensures { Reads (only_algebra (words_of text.now)) itself result }
{
    let word = only_word(heap, text, ReadError::MissingAlgebra)?;
    read_algebra(heap, word)
}

/// Reads a text that may name a slip, and says nothing more.
fn only_slip(heap: Global, text: &str) -> Result<Option<u64>, ReadError>
    ensures { Reads (only_slip (words_of text.now)) itself result }
{
    check_fields(heap, FieldSet::OnlySlip, text)?;
    slip_in(heap, text)
}

/// Reads a text of one number or none.
fn may_number(heap: Global, text: &str) -> Result<Option<u64>, ReadError>
    ensures { Reads (may_number (words_of text.now)) itself result }
{
    let Some((word, rest)) = next_word(text) else {
        return Ok(None);
    };
    let number = read_number(heap, word)?;
    no_more(heap, rest)?;
    Ok(Some(number))
}

/// Reads a text of the number of a formula, and codes that may follow.
fn formula_codes(heap: Global, text: &str) -> Result<(u32, Codes), ReadError>
    ensures { Reads (formula_codes (words_of text.now)) pair_seen result }
{
    let (word, rest) = next_word(text).ok_or(ReadError::MissingNumber)?;
    let number = read_number(heap, word)?;
    check_fields(heap, FieldSet::OnlyCodes, rest)?;
    let codes = codes_in(heap, rest)?;
    Ok((limited(number), codes))
}

/// Reads the words of a text as types.
fn read_types(heap: Global, algebra: AlgebraName, text: &str) -> Result<Vec<TypeWord>, ReadError>
    ensures { Reads (types_of algebra (words_of text.now)) types_seen result }
{
    Words::new(text)
        .map(|word| read_type(heap, algebra, word))
        .try_collect(heap)
}

/// Reads what follows the word that names a command.
fn read_arguments(
    heap: Global,
    algebra: AlgebraName,
    verb: Verb,
    text: &str,
) -> Result<Command, ReadError>
    ensures { Reads (arguments_of algebra verb (words_of text.now)) command_seen result }
{
    // A match, since the commands are a closed list and each reads other arguments: closures in a table would say the same with more words.
    match verb {
        Verb::Algebra => Ok(Command::Algebra(only_algebra(heap, text)?)),
        Verb::Store => Ok(Command::Store(only_number(heap, text)?)),
        Verb::Open => Ok(Command::Open(read_types(heap, algebra, text)?)),
        Verb::Line => Ok(Command::Line(read_fields(heap, algebra, text)?)),
        Verb::Enter => Ok(Command::Enter(only_slip(heap, text)?)),
        Verb::Scrap => Ok(Command::Scrap(only_slip(heap, text)?)),
        Verb::Withdraw => Ok(Command::Withdraw(only_formula(heap, text)?)),
        Verb::Entry => Ok(Command::Entry(only_formula(heap, text)?)),
        Verb::Begin => {
            let (formula, codes) = formula_codes(heap, text)?;
            Ok(Command::Begin(formula, codes))
        }
        Verb::Step => Ok(Command::Step(may_number(heap, text)?)),
        Verb::Result => Ok(Command::Result(may_number(heap, text)?)),
        Verb::Close => {
            no_more(heap, text)?;
            Ok(Command::Close)
        }
        Verb::Run => {
            let (formula, codes) = formula_codes(heap, text)?;
            Ok(Command::Run(formula, codes))
        }
    }
}

/// Reads one line of a script, in a session that works in this algebra.
pub fn read_command(heap: Global, algebra: AlgebraName, text: &str) -> Result<Command, ReadError>
    ensures { Reads (meaning algebra text.now) command_seen result }
{
    let Some((word, rest)) = next_word(text) else {
        return Ok(Command::Nothing);
    };
    if word.starts_with('#') {
        return Ok(Command::Nothing);
    }
    let verb = found_or(heap, verb_named(word), word, ReadError::NoCommand)?;
    read_arguments(heap, algebra, verb, rest)
}
