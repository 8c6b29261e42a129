// The algebra of counts: 32-bit two's complement numbers and flags.
#![tactic(auto)]

ghost use Rattle.std.specs.Prelude.{◌≡◌, ◌≢◌, Some, refl};
ghost use Rattle.remora.specs.Algebras.{applied, applying};
ghost use Rattle.algebra.specs.Promises.{samples, answered};
ghost use Rattle.counts.specs.Tables.{counts as table, sum, difference, product, quotient};
ghost use Rattle.counts.specs.Operators.{number, Numbered};
ghost use Rattle.counts.specs.Faults.{cause, fault_text};
ghost use Rattle.counts.specs.Denoted.{sampled};
ghost use Rattle.counts.specs.Lawful;

use Value::{Count, Flag};
use algebra::Operands::{One, Three, Two};
use algebra::{Algebra, Operands, Signature};
use std::error::Error;
use std::fmt;

/// An operator on counts and flags.
#[derive(Clone, Copy, Debug, PartialEq, Eq)]
pub enum Operator {
    /// The sum of two counts.
    Add,
    /// The difference of two counts.
    Sub,
    /// The product of two counts.
    Mul,
    /// The quotient of two counts, rounded to zero; a divisor 0 is a fault.
    Quo,
    /// Whether one count is less than another.
    Less,
    /// Whether both flags are set.
    And,
    /// Whether one of the flags is set.
    Or,
    /// Whether the flag is not set.
    Not,
    /// The first of two counts if the flag is set, else the second.
    Pick,
}

/// Why an operator gives nothing.
#[derive(Clone, Copy, Debug, PartialEq, Eq)]
pub enum Fault {
    /// The operator is unknown or takes other operands.
    Misused,
    /// The divisor of a quotient is 0.
    DivisionByZero,
}

/// A fault is printed in words, or by the number of its cause.
// Written by hand, since clauses name the text.
impl fmt::Display for Fault {
    ghost output = { λ e. Some (fault_text e) };

    fn fmt<W: fmt::Write>(&self, f: &mut fmt::Formatter<W>) -> fmt::Result {
        match self {
            Fault::Misused => write!(f, "cause 0"),
            Fault::DivisionByZero => write!(f, "division by zero"),
        }
    }
}

impl Error for Fault {}

/// The operator of a number.
impl TryFrom<u8> for Operator {
    type Error = Fault;

    ghost try_from_gives = { Numbered };

    fn try_from(number: u8) -> Result<Operator, Fault> {
        Ok(match number {
            0 => Operator::Add,
            1 => Operator::Sub,
            2 => Operator::Mul,
            3 => Operator::Quo,
            4 => Operator::Less,
            5 => Operator::And,
            6 => Operator::Or,
            7 => Operator::Not,
            8 => Operator::Pick,
            _ => return Err(Fault::Misused),
        })
    }
}

/// The number of an operator.
// Written by hand, since clauses name the number that is given.
impl From<Operator> for u8 {
    ghost from_gives = { λ op n. n ≡ number op };

    fn from(op: Operator) -> u8 {
        op as u8
    }
}

/// An atom: a count, by its code, or a flag.
#[derive(Clone, Copy, Debug, PartialEq, Eq)]
pub enum Value {
    Count(u32),
    Flag(bool),
}

/// The sum of two counts.
#[tactic(auto, using(crate::specs::Wraps::sum_wraps))]
fn add(a: u32, b: u32) -> u32
    ensures { result ≡ sum a b }
{
    a.wrapping_add(b)
}

/// The difference of two counts.
#[tactic(auto, using(crate::specs::Wraps::difference_wraps))]
fn sub(a: u32, b: u32) -> u32
    ensures { result ≡ difference a b }
{
    a.wrapping_sub(b)
}

/// The product of two counts.
#[tactic(auto, using(crate::specs::Wraps::product_wraps))]
fn mul(a: u32, b: u32) -> u32
    ensures { result ≡ product a b }
{
    a.wrapping_mul(b)
}

/// The quotient of two counts, of which the second is not 0.
fn quo(a: u32, b: u32) -> u32
    requires { b ≢ 0 }
    ensures { result ≡ quotient a b }
{
    a.cast_signed()
        .wrapping_div(b.cast_signed())
        .cast_unsigned()
}

/// What an operator gives for these operands, or a fault.
fn assign(op: Operator, operands: Operands<Value>) -> Result<Value, Fault>
    ensures { answered sampled cause result ≡ applying table (number op) (samples sampled operands) }
{
    match (op, operands) {
        (Operator::Add, Two(Count(a), Count(b))) => Ok(Count(add(a, b))),
        (Operator::Sub, Two(Count(a), Count(b))) => Ok(Count(sub(a, b))),
        (Operator::Mul, Two(Count(a), Count(b))) => Ok(Count(mul(a, b))),
        (Operator::Quo, Two(Count(_), Count(0))) => Err(Fault::DivisionByZero),
        (Operator::Quo, Two(Count(a), Count(b))) => Ok(Count(quo(a, b))),
        (Operator::Less, Two(Count(a), Count(b))) => Ok(Flag(a.cast_signed() < b.cast_signed())),
        (Operator::And, Two(Flag(a), Flag(b))) => Ok(Flag(a & b)),
        (Operator::Or, Two(Flag(a), Flag(b))) => Ok(Flag(a | b)),
        (Operator::Not, One(Flag(a))) => Ok(Flag(!a)),
        (Operator::Pick, Three(Flag(a), Count(b), Count(c))) => Ok(Count(if a { b } else { c })),
        _ => Err(Fault::Misused),
    }
}

/// The algebra of counts.
pub struct Counts;

impl Algebra for Counts {
    type Atom = Value;

    type Fault = Fault;

    const BASES: u8 = 2;

    const OPERATORS: u8 = 9;

    ghost BASES = { 2 };

    ghost OPERATORS = { 9 };

    ghost meaning = { table };

    ghost sample = { sampled };

    ghost cause = { cause };

    ghost lawful = { Lawful.lawful };

    ghost bases_stated = { refl };

    ghost operators_stated = { refl };

    // Base types go by number here as in `read` and `base_of`, since a signature speaks of those of any algebra.
    fn signature(op: u8) -> Option<Signature> {
        let (operands, result, unit) = match Operator::try_from(op).ok()? {
            Operator::Add => (Two(0, 0), 0, Some(0)),
            Operator::Sub => (Two(0, 0), 0, None),
            Operator::Mul => (Two(0, 0), 0, Some(1)),
            Operator::Quo => (Two(0, 0), 0, None),
            Operator::Less => (Two(0, 0), 1, None),
            Operator::And => (Two(1, 1), 1, Some(1)),
            Operator::Or => (Two(1, 1), 1, Some(0)),
            Operator::Not => (One(1), 1, None),
            Operator::Pick => (Three(1, 0, 0), 0, None),
        };
        Some(Signature {
            operands,
            result,
            unit,
        })
    }

    fn read(base: u8, code: u64) -> Option<Value> {
        match base {
            0 => u32::try_from(code).ok().map(Count),
            1 if code < 2 => Some(Flag(code == 1)),
            _ => None,
        }
    }

    fn base_of(atom: Value) -> u8 {
        match atom {
            Count(_) => 0,
            Flag(_) => 1,
        }
    }

    fn code_of(atom: Value) -> u64 {
        match atom {
            Count(n) => u64::from(n),
            Flag(b) => u64::from(b),
        }
    }

    fn cause_of(fault: Fault) -> u8 {
        match fault {
            Fault::Misused => 0,
            Fault::DivisionByZero => 1,
        }
    }

    #[tactic(auto, unfolding(remora::specs::Algebras::applied))]
    fn apply(op: u8, operands: Operands<Value>) -> Result<Value, Fault>
        ensures { answered sampled cause result ≡ applied table op (samples sampled operands) }
    {
        assign(Operator::try_from(op)?, operands)
    }
}

#[cfg(test)]
mod tests {
    use super::*;
    use std::test::Fail;

    // The code of what the operator of a number gives for two counts, or the cause of the fault.
    fn of_number(op: u8, a: u32, b: u32) -> Result<u64, u8> {
        let operands = Operands::Two(Value::Count(a), Value::Count(b));
        match <Counts as Algebra>::apply(op, operands) {
            Ok(value) => Ok(<Counts as Algebra>::code_of(value)),
            Err(fault) => Err(<Counts as Algebra>::cause_of(fault)),
        }
    }

    // The same of an operator.
    fn of_counts(op: Operator, a: u32, b: u32) -> Result<u64, u8> {
        of_number(u8::from(op), a, b)
    }

    #[test]
    fn counts_wrap_and_divide_to_zero(rt: HostRuntime) {
        assert_eq!(rt; of_counts(Operator::Add, 4294967295, 1), Ok(0));
        assert_eq!(rt; of_counts(Operator::Sub, 0, 1), Ok(4294967295));
        assert_eq!(rt; of_counts(Operator::Mul, 65536, 65537), Ok(65536));
        assert_eq!(rt; of_counts(Operator::Quo, 4294967289, 2), Ok(4294967293));
        assert_eq!(rt;
            of_counts(Operator::Quo, 2147483648, 4294967295),
            Ok(2147483648)
        );
        assert_eq!(rt; of_counts(Operator::Quo, 7, 0), Err(1));
        assert_eq!(rt; of_counts(Operator::Less, 4294967295, 0), Ok(1));
    }

    #[test]
    fn operators_refuse_other_operands(rt: HostRuntime) {
        assert_eq!(rt; of_counts(Operator::And, 1, 1), Err(0));
        assert_eq!(rt; of_counts(Operator::Not, 1, 1), Err(0));
        assert_eq!(rt; of_number(9, 1, 1), Err(0));
    }

    #[test]
    fn units_and_codes_are_known(rt: HostRuntime) -> Result<(), Fail> {
        assert_eq!(rt;
            <Counts as Algebra>::signature(u8::from(Operator::Add))
                .ok_or("add")?
                .unit,
            Some(0)
        );
        assert_eq!(rt;
            <Counts as Algebra>::signature(u8::from(Operator::Mul))
                .ok_or("mul")?
                .unit,
            Some(1)
        );
        assert_eq!(rt;
            <Counts as Algebra>::signature(u8::from(Operator::Quo))
                .ok_or("quo")?
                .unit,
            None
        );
        assert!(rt; <Counts as Algebra>::signature(9).is_none());
        assert!(rt; <Counts as Algebra>::read(0, 4294967295).is_some());
        assert!(rt; <Counts as Algebra>::read(0, 4294967296).is_none());
        assert!(rt; <Counts as Algebra>::read(1, 2).is_none());
        assert!(rt; <Counts as Algebra>::read(2, 0).is_none());
        Ok(())
    }
}
