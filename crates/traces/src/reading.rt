// Reading a trace from text: lines of words, each word a count in decimal.
ghost use Rattle.std.specs.Prelude.{◌≡◌, not, [], ◌∷◌, MatchResult};
ghost use Rattle.std.specs.Option.{SomeIff};
ghost use Rattle.std.specs.List.{AllByRecursion, find};
ghost use Rattle.traces.specs.declared.reading.TraceError.TheVariants.{NoMemory};
ghost use Rattle.traces.specs.Texts.{lines, words, words_in, pieces, parts, indents, comment, Count, Sound, code, codes as codes_of};
ghost use Rattle.traces.specs.Readings.{Told, Refuses};

use std::alloc::{AllocError, AllocFailed, Global};

/// Why a text is no trace.
#[derive(Debug, Drop)]
pub enum TraceError {
    /// A word of this line, numbered from 1, is no count.
    NoCount { line: usize, word: String },
    /// Memory was wanting.
    NoMemory,
}

// The two conversions are written by hand, since a clause names the error that `?` makes.

/// An allocation that fails is want of memory.
impl From<AllocError> for TraceError {
    ghost from_gives = { λ _ r. r ≡ NoMemory };

    fn from(_error: AllocError) -> TraceError {
        TraceError::NoMemory
    }
}

/// So is a value that found no place.
impl<T: Drop> From<AllocFailed<T>> for TraceError {
    ghost from_gives = { λ _ r. r ≡ NoMemory };

    fn from(_error: AllocFailed<T>) -> TraceError {
        TraceError::NoMemory
    }
}

/// The code of the count that a word says, if it says one.
pub fn count_of(word: &str) -> Option<u32>
    ensures { SomeIff result (Count word.now) (code word.now) }
{
    word.parse::<i32>().ok().map(i32::cast_unsigned)
}

/// The first byte of a line that is no blank and no tab.
fn first_after_indent(line: &[u8]) -> Option<u8>
    ensures { result ≡ find (λ b. not (indents b)) line.now }
{
    line.iter()
        .copied()
        .find(|byte| !matches!(*byte, b' ' | b'\t'))
}

/// Whether a line of these bytes is a comment: its first byte that is no blank and no tab is `#`.
#[tactic(auto, using(crate::proofs::Comments::comment_found))]
fn is_comment(line: &[u8]) -> bool
    ensures { result ≡ comment line.now }
{
    first_after_indent(line) == Some(b'#')
}

/// Reads one piece of the line of this number onto the end of `codes`; an empty piece says nothing.
// The codes and the number are two parameters: a struct for them would be told the number again at each line, and hand both on as they are.
fn read_word(codes: &mut Vec<u32>, number: usize, word: &str) -> Result<(), TraceError>
    ensures { Told number (words_in (word.now ∷ [])) codes.old.items codes.new.items result }
{
    if word.is_empty() {
        return Ok(());
    }
    let Some(code) = count_of(word) else {
        let word = String::from_str(*codes.allocator(), word)?;
        return Err(TraceError::NoCount { line: number, word });
    };
    codes.push(code)?;
    Ok(())
}

/// Reads the words of the line of this number onto the end of `codes`.
fn read_words(codes: &mut Vec<u32>, number: usize, line: &str) -> Result<(), TraceError>
    ensures { Told number (words_in (pieces parts line.now)) codes.old.items codes.new.items result }
{
    for word in line.split([' ', '\t', '\r', ',']) {
        read_word(codes, number, word)?;
    }
    Ok(())
}

/// Reads the line of this number onto the end of `codes`; a comment says nothing.
fn read_line(codes: &mut Vec<u32>, number: usize, line: &str) -> Result<(), TraceError>
    ensures { Told number (words line.now) codes.old.items codes.new.items result }
{
    if is_comment(line.as_bytes()) {
        Ok(())
    } else {
        read_words(codes, number, line)
    }
}

/// The codes of the counts of a trace, read from text.
///
/// Words are parted by blanks, tabs, commas and carriage returns; the first word that is no count is told with its line.
pub fn read_trace(heap: Global, text: &str) -> Result<Vec<u32>, TraceError>
    ensures { MatchResult result (λ v. AllByRecursion Sound (lines text.now) × (v.items ≡ codes_of (lines text.now))) (λ e. Refuses (lines text.now) e) }
{
    let mut codes = Vec::new(heap);
    for (i, line) in text.split('\n').enumerate() {
        read_line(&mut codes, i + 1, line)?;
    }
    Ok(codes)
}
