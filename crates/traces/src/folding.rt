// The summary of a trace: each of its figures is folded by the operators of the algebra of counts.
ghost use Rattle.std.specs.Prelude.{◌≡◌, ◌==◌};
ghost use Rattle.remora.specs.Algebras.{applying};
ghost use Rattle.algebra.specs.Promises.{samples};
ghost use Rattle.counts.specs.Tables.{counts as table, sum, less};
ghost use Rattle.counts.specs.Operators.{number};
ghost use Rattle.counts.specs.Denoted.{sampled};
ghost use Rattle.traces.specs.Folds.{counted, flagged, total, total_squares, with_square, lesser, greater, smallest, largest, quotient_of, mean};
ghost use Rattle.traces.specs.Summaries.{summary_of};

use algebra::{Algebra, Operands};
use counts::{Counts, Fault, Operator, Value};

/// The two counts of these codes, as operands.
fn pair(a: u32, b: u32) -> Operands<Value>
    ensures { result ≡ Operands.Two (Value.Count a) (Value.Count b) }
{
    Operands::Two(Value::Count(a), Value::Count(b))
}

/// The code of the count that an operator gives, or its fault; a flag is a misuse.
#[tactic(auto, unfolding(remora::specs::Algebras::applied))]
fn applied(op: Operator, operands: Operands<Value>) -> Result<u32, Fault>
    ensures { result ≡ counted (applying table (number op) (samples sampled operands)) }
{
    match Counts::apply(u8::from(op), operands)? {
        Value::Count(code) => Ok(code),
        Value::Flag(_) => Err(Fault::Misused),
    }
}

/// Whether an operator gives a flag that is set.
#[tactic(auto, unfolding(remora::specs::Algebras::applied))]
fn holds(op: Operator, operands: Operands<Value>) -> bool
    ensures { result ≡ flagged (applying table (number op) (samples sampled operands)) }
{
    matches!(Counts::apply(u8::from(op), operands), Ok(Value::Flag(true)))
}

/// The sum of two counts.
fn added(a: u32, b: u32) -> u32
    ensures { result ≡ sum a b }
{
    applied(Operator::Add, pair(a, b)).unwrap()
}

/// A sum and the square of one more count.
fn with_square(so_far: u32, count: u32) -> u32
    ensures { result ≡ with_square so_far count }
{
    let square = applied(Operator::Mul, pair(count, count)).unwrap();
    added(so_far, square)
}

/// Whether one count is less than another.
fn is_less(a: u32, b: u32) -> bool
    ensures { result ≡ (less a b == 1) }
{
    holds(Operator::Less, pair(a, b))
}

/// The lesser of two counts, the first if they are equal.
fn lesser(a: u32, b: u32) -> u32
    ensures { result ≡ lesser a b }
{
    if is_less(b, a) { b } else { a }
}

/// The greater of two counts, the first if they are equal.
fn greater(a: u32, b: u32) -> u32
    ensures { result ≡ greater a b }
{
    if is_less(a, b) { b } else { a }
}

/// The quotient of two counts, or a division by zero.
fn quotient(a: u32, b: u32) -> Result<u32, Fault>
    ensures { result ≡ quotient_of a b }
{
    applied(Operator::Quo, pair(a, b))
}

/// The unit of add, where each sum begins.
fn nothing() -> u32
    ensures { result ≡ 0 }
{
    let add = Counts::signature(u8::from(Operator::Add));
    add.and_then(|add| add.unit).unwrap() as u32
}

/// The sum of these counts.
fn total(codes: &[u32]) -> u32
    ensures { result ≡ total codes.now }
{
    codes.iter().fold(nothing(), |sum, code| added(sum, *code))
}

/// The sum of the squares of these counts.
fn total_squares(codes: &[u32]) -> u32
    ensures { result ≡ total_squares codes.now }
{
    codes
        .iter()
        .fold(nothing(), |sum, code| with_square(sum, *code))
}

/// The smallest of these counts, if there is one.
fn smallest(codes: &[u32]) -> Option<u32>
    ensures { result ≡ smallest codes.now }
{
    codes.iter().copied().reduce(lesser)
}

/// The largest of these counts, if there is one.
fn largest(codes: &[u32]) -> Option<u32>
    ensures { result ≡ largest codes.now }
{
    codes.iter().copied().reduce(greater)
}

/// The sum of these counts by their number modulo 2^32, rounded to zero, or a division by zero where that number is 0.
fn mean(codes: &[u32]) -> Result<u32, Fault>
    ensures { result ≡ mean codes.now }
{
    quotient(total(codes), (codes.len() % 4294967296) as u32)
}

/// What is told of a trace: how many samples it has, and the codes of the counts folded from them.
#[derive(Clone, Copy, Debug, PartialEq, Eq)]
pub struct Summary {
    pub samples: usize,
    pub sum: u32,
    pub squares: u32,
    pub smallest: Option<u32>,
    pub largest: Option<u32>,
    /// The mean, or the cause for which there is none.
    // By its number, since whoever makes a summary may name any cause, and each has its text.
    pub mean: Result<u32, u8>,
}

impl Summary {
    /// The summary of a trace of these codes of counts.
    pub fn of(codes: &[u32]) -> Summary
        ensures { result ≡ summary_of codes.now }
    {
        Summary {
            samples: codes.len(),
            sum: total(codes),
            squares: total_squares(codes),
            smallest: smallest(codes),
            largest: largest(codes),
            mean: mean(codes).map_err(Counts::cause_of),
        }
    }
}
