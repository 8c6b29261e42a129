// The names of algebras, base types, operators and kinds, and the words of types.
ghost use Rattle.std.specs.Prelude.{◌≡◌, ◌<◌, ◌^◌, length, map};
ghost use Rattle.scripts.specs.Readings.{Reads, itself};
ghost use Rattle.scripts.specs.Names.{algebra_of, place_in, or_number, bases, algebra_said, operator_said, kind_said, base_said, type_of};
ghost use Rattle.scripts.specs.Views.{type_seen};

use crate::errors::{ReadError, found_or};
use crate::numbers::{limited, limited_all, number_of, read_rest};
use std::alloc::Global;

/// The algebra that a session works in.
#[derive(Clone, Copy, Debug)]
pub enum AlgebraName {
    Counts,
    Amplitudes,
}

/// A type as it is written: a base type and its axes.
#[derive(Debug, Drop)]
pub struct TypeWord {
    pub base: u32,
    pub axes: Vec<u32>,
}

/// The algebra of a name, if it has one.
// An Option and no `FromStr`, since a word that names nothing is told by the caller, with the word.
fn algebra_named(word: &str) -> Option<AlgebraName>
    ensures { result ≡ algebra_of word.now }
{
    match word {
        "counts" => Some(AlgebraName::Counts),
        "amplitudes" => Some(AlgebraName::Amplitudes),
        _ => None,
    }
}

/// The names of the operators, in the order of their numbers.
const OPERATORS: [&str; 9] = [
    "add", "sub", "mul", "quo", "less", "and", "or", "not", "pick",
];

/// The names of the kinds of lines, in the order of their numbers.
const KINDS: [&str; 8] = [
    "literal",
    "parameter",
    "frame",
    "operator",
    "call",
    "fold",
    "append",
    "reverse",
];

/// The place of a word in a list of names.
fn place_in(names: &[&str], word: &str) -> Option<usize>
    ensures { result ≡ place_in (map (λ name. name.now) names.now) 0 word.now }
{
    names.iter().position(|name| word == *name)
}

/// The number that a word says: its place in a list of names, or what it writes in digits.
fn named_or_number(names: &[&str], word: &str) -> Option<u32>
    requires { length names.now < 2 ^ 32 }
    ensures { result ≡ or_number (place_in (map (λ name. name.now) names.now) 0 word.now) word.now }
{
    match place_in(names, word) {
        Some(place) => Some(place as u32),
        None => number_of(word).map(limited),
    }
}

/// The names of the base types of an algebra, in the order of their numbers.
fn bases(algebra: AlgebraName) -> [&'static str; 2]
    ensures { map (λ name. name.now) result ≡ bases algebra }
{
    match algebra {
        AlgebraName::Counts => ["count", "flag"],
        AlgebraName::Amplitudes => ["amplitude", "flag"],
    }
}

/// Reads a word as the name of an algebra.
pub fn read_algebra(heap: Global, word: &str) -> Result<AlgebraName, ReadError>
    ensures { Reads (algebra_said word.now) itself result }
{
    found_or(heap, algebra_named(word), word, ReadError::NoAlgebra)
}

/// Reads a word as an operator, by its name or its number.
// This and the next two have a list and an error of their own; what they share is `named_or_number` and `found_or`.
pub fn read_operator(heap: Global, word: &str) -> Result<u32, ReadError>
    ensures { Reads (operator_said word.now) itself result }
{
    let number = named_or_number(&OPERATORS, word);
    found_or(heap, number, word, ReadError::NoOperator)
}

/// Reads a word as a kind of line, by its name or its number.
pub fn read_kind(heap: Global, word: &str) -> Result<u32, ReadError>
    ensures { Reads (kind_said word.now) itself result }
{
    let number = named_or_number(&KINDS, word);
    found_or(heap, number, word, ReadError::NoKind)
}

/// Reads a word as a base type, by its name in the algebra or its number.
pub fn read_base(heap: Global, algebra: AlgebraName, word: &str) -> Result<u32, ReadError>
    ensures { Reads (base_said algebra word.now) itself result }
{
    let number = named_or_number(&bases(algebra), word);
    found_or(heap, number, word, ReadError::NoBase)
}

/// Reads a word as a type: a base type and its axes in brackets.
pub fn read_type(heap: Global, algebra: AlgebraName, word: &str) -> Result<TypeWord, ReadError>
    ensures { Reads (type_of algebra word.now) type_seen result }
{
    let (name, rest) = found_or(heap, word.split_once('['), word, ReadError::NoType)?;
    let base = read_base(heap, algebra, name)?;
    let numbers = read_rest(heap, word, rest)?;
    let axes = limited_all(heap, numbers.as_slice())?;
    Ok(TypeWord { base, axes })
}
