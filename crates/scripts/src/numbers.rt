// Numbers in decimal, and lists of them in brackets.
ghost use Rattle.std.specs.Prelude.{◌≡◌, map, IfOk, vec_items};
ghost use Rattle.traces.specs.Texts.{pieces, words_in};
ghost use Rattle.scripts.specs.Readings.{Reads, itself};
ghost use Rattle.scripts.specs.Numbers.{number, number_said, limit, comma, gap, numbers_in, closing, listed, places};

use crate::errors::{ReadError, found_or};
use std::alloc::{AllocError, Global};

/// The number that a word says, if it says one below 2^64.
pub fn number_of(word: &str) -> Option<u64>
    ensures { result ≡ number word.now }
{
    if word.starts_with('+') {
        return None;
    }
    word.parse().ok()
}

/// A number as one of 32 bits, the largest of them if it is too large.
pub fn limited(number: u64) -> u32
    ensures { result ≡ limit number }
{
    u32::try_from(number).unwrap_or(u32::MAX)
}

/// Reads a word as a number.
pub fn read_number(heap: Global, word: &str) -> Result<u64, ReadError>
    ensures { Reads (number_said word.now) itself result }
{
    found_or(heap, number_of(word), word, ReadError::NoNumber)
}

/// Reads a text of numbers between commas.
fn read_between(heap: Global, text: &str) -> Result<Vec<u64>, ReadError>
    ensures { Reads (numbers_in (pieces comma text.now)) vec_items result }
{
    text.split(',')
        .map(|piece| read_number(heap, piece))
        .try_collect(heap)
}

/// Reads the text of a file of codes: numbers between blanks, tabs, line ends and commas.
pub fn read_numbers(heap: Global, text: &str) -> Result<Vec<u64>, ReadError>
    ensures { Reads (numbers_in (words_in (pieces gap text.now))) vec_items result }
{
    // A loop, since the chain of `filter`, `map` and `try_collect` took half as long again.
    let mut numbers = Vec::new(heap);
    for piece in text.split([' ', '\t', '\r', '\n', ',']) {
        if piece.is_empty() {
            continue;
        }
        let number = read_number(heap, piece)?;
        numbers.push(number)?;
    }
    Ok(numbers)
}

/// Reads what follows the `[` of a list of numbers in a word.
pub fn read_rest(heap: Global, word: &str, rest: &str) -> Result<Vec<u64>, ReadError>
    ensures { Reads (closing word.now rest.now) vec_items result }
{
    let inner = found_or(heap, rest.strip_suffix(']'), word, ReadError::NoList)?;
    if inner.is_empty() {
        return Ok(Vec::new(heap));
    }
    read_between(heap, inner)
}

/// Reads a word as a list of numbers.
pub fn read_list(heap: Global, word: &str) -> Result<Vec<u64>, ReadError>
    ensures { Reads (listed word.now) vec_items result }
{
    let rest = found_or(heap, word.strip_prefix('['), word, ReadError::NoList)?;
    read_rest(heap, word, rest)
}

/// These numbers, each as one of 32 bits.
pub fn limited_all(heap: Global, numbers: &[u64]) -> Result<Vec<u32>, AllocError>
    ensures { IfOk result (λ v. v.items ≡ map limit numbers.now) }
{
    // A loop over a vector of the right size: for lists as short as these are, `collect` takes longer.
    let mut places = Vec::with_capacity(heap, numbers.len())?;
    for number in numbers {
        places.push(limited(*number))?;
    }
    Ok(places)
}

/// Reads a word as a list of numbers of 32 bits.
pub fn read_places(heap: Global, word: &str) -> Result<Vec<u32>, ReadError>
    ensures { Reads (places word.now) vec_items result }
{
    let numbers = read_list(heap, word)?;
    Ok(limited_all(heap, numbers.as_slice())?)
}
