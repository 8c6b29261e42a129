// The fields of a command: words of a name, `=` and a value, in any order.
ghost use Rattle.std.specs.Prelude.{◌≡◌, [], ◌∷◌, map, MatchOption};
ghost use Rattle.std.specs.Fn.{FnOnceReturnsAt};
ghost use Rattle.scripts.specs.Readings.{Reads, ReadsIf, itself};
ghost use Rattle.scripts.specs.Words.{words_of};
ghost use Rattle.scripts.specs.Fields.{field_names, is_in, gives_field, known, value_of, values_of, sole, slip_of, kind_of, base_of, function_of, shape_of, operands_of, codes_said, codes_of, line_of};
ghost use Rattle.scripts.specs.Views.{text_seen, codes_seen, line_seen};

use crate::errors::ReadError;
use crate::names::{AlgebraName, read_base, read_kind, read_operator};
use crate::numbers::{read_list, read_number, read_places};
use crate::words::Words;
use std::alloc::Global;

/// The fields that a command takes.
#[derive(Clone, Copy)]
pub enum FieldSet {
    /// All those of a line.
    OfLine,
    /// The slip alone.
    OnlySlip,
    /// The codes alone.
    OnlyCodes,
}

/// Codes as they are written: one by one, or by the path of a file that has them.
#[derive(Debug, Drop)]
pub enum Codes {
    Given(Vec<u64>),
    File(String),
}

/// The fields of a line as they are written; what is left out is 0 or empty.
// Kinds and functions stay raw numbers, so that every draft can be shown and refused.
#[derive(Debug, Drop)]
pub struct LineFields {
    pub slip: Option<u64>,
    pub kind: u32,
    pub base: u32,
    pub function: u32,
    pub shape: Vec<u32>,
    pub operands: Vec<u32>,
    pub codes: Codes,
}

/// The names of the fields of a line.
const OF_LINE: [&str; 7] = [
    "slip", "kind", "base", "function", "shape", "operands", "codes",
];

/// The names of the fields of a set.
fn names_of(set: FieldSet) -> &'static [&'static str]
    ensures { map (λ name. name.now) result.now ≡ field_names set }
{
    match set {
        FieldSet::OfLine => &OF_LINE,
        FieldSet::OnlySlip => &["slip"],
        FieldSet::OnlyCodes => &["codes"],
    }
}

/// Whether a field of this name is in the set.
fn is_field(set: FieldSet, name: &str) -> bool
    ensures { result ≡ is_in (field_names set) name.now }
{
    names_of(set).contains(&name)
}

/// Whether a word gives a field of the set.
fn gives_field(set: FieldSet, word: &str) -> bool
    ensures { result ≡ gives_field (field_names set) word.now }
{
    match word.split_once('=') {
        Some((name, _)) => is_field(set, name),
        None => false,
    }
}

/// Sees that each word of a text gives a field of the set.
pub fn check_fields(heap: Global, set: FieldSet, text: &str) -> Result<(), ReadError>
    ensures { Reads (known (field_names set) (words_of text.now)) itself result }
{
    for word in Words::new(text) {
        if !gives_field(set, word) {
            return Err(ReadError::NoField(String::from_str(heap, word)?));
        }
    }
    Ok(())
}

/// The value of a word that gives the field of this name.
fn value_of<'a>(word: &'a str, name: &str) -> Option<&'a str>
    ensures { value_of name.now word.now ≡ text_seen result }
{
    let (given, value) = word.split_once('=')?;
    if given == name { Some(value) } else { None }
}

/// The value of the field of this name, if it is given; it may be given once.
fn value_in<'a>(heap: Global, text: &'a str, name: &str) -> Result<Option<&'a str>, ReadError>
    ensures { Reads (sole name.now (values_of name.now (words_of text.now))) text_seen result }
{
    let mut values = Words::new(text).filter_map(|word| value_of(word, name));
    let Some(value) = values.next() else {
        return Ok(None);
    };
    match values.next() {
        Some(_) => Err(ReadError::Twice(String::from_str(heap, name)?)),
        None => Ok(Some(value)),
    }
}

/// What the field of this name says, read by `read`, or `absent` where it is left out.
fn field_in<T: Drop, F: FnOnce(&str) -> Result<T, ReadError> + Drop>(
    heap: Global,
    text: &str,
    name: &str,
    absent: T,
    read: F,
) -> Result<T, ReadError>
    requires { F.IsAlwaysCallable read }
    ensures { ReadsIf (sole name.now (values_of name.now (words_of text.now))) absent (λ value answer. FnOnceReturnsAt F.FnOnce read value answer) result }
{
    match value_in(heap, text, name)? {
        Some(value) => read(value),
        None => Ok(absent),
    }
}

/// The serial of the slip that is named, if one is.
pub fn slip_in(heap: Global, text: &str) -> Result<Option<u64>, ReadError>
    ensures { Reads (slip_of (words_of text.now)) itself result }
{
    field_in(heap, text, "slip", None, |value| {
        Ok(Some(read_number(heap, value)?))
    })
}

/// Reads a value as codes.
pub fn read_codes(heap: Global, value: &str) -> Result<Codes, ReadError>
    ensures { Reads (codes_said value.now) codes_seen result }
{
    match value.strip_prefix('@') {
        Some(path) => Ok(Codes::File(String::from_str(heap, path)?)),
        None => Ok(Codes::Given(read_list(heap, value)?)),
    }
}

/// The codes that are given.
pub fn codes_in(heap: Global, text: &str) -> Result<Codes, ReadError>
    ensures { Reads (codes_of (words_of text.now)) codes_seen result }
{
    field_in(heap, text, "codes", Codes::Given(Vec::new(heap)), |value| {
        read_codes(heap, value)
    })
}

/// Reads the fields of a line.
pub fn read_fields(heap: Global, algebra: AlgebraName, text: &str) -> Result<LineFields, ReadError>
    ensures { Reads (line_of algebra (words_of text.now)) line_seen result }
{
    check_fields(heap, FieldSet::OfLine, text)?;
    let slip = slip_in(heap, text)?;
    let kind = field_in(heap, text, "kind", 0, |value| read_kind(heap, value))?;
    let base = field_in(heap, text, "base", 0, |value| {
        read_base(heap, algebra, value)
    })?;
    let function = field_in(heap, text, "function", 0, |value| {
        read_operator(heap, value)
    })?;
    let shape = field_in(heap, text, "shape", Vec::new(heap), |value| {
        read_places(heap, value)
    })?;
    let operands = field_in(heap, text, "operands", Vec::new(heap), |value| {
        read_places(heap, value)
    })?;
    let codes = codes_in(heap, text)?;
    Ok(LineFields {
        slip,
        kind,
        base,
        function,
        shape,
        operands,
        codes,
    })
}
