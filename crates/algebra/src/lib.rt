// Algebras of samples: the trait that the library is generic over, and what its implementations owe.
#![tactic(auto)]

ghost use Rattle.std.specs.Prelude.{◌≡◌, ◌≤◌, ℕ, true, length};
ghost use Rattle.remora.specs.Algebras.{Meaning, Sample, applied};
ghost use Rattle.algebra.specs.Operands.{listed};
ghost use Rattle.algebra.specs.Promises.{Denotes, Described, ReadAs, samples, answered};

/// The operands of an operator, or what is said of each of them: one to three.
#[derive(Clone, Copy, Debug, PartialEq, Eq)]
pub enum Operands<T> {
    One(T),
    Two(T, T),
    Three(T, T, T),
}

impl<T> Operands<T> {
    /// How many operands there are.
    pub fn count(&self) -> usize
        ensures exact { result ≡ length (listed self.now) }
        ensures few { (1 ≤ result) × (result ≤ 3) }
    {
        match self {
            Operands::One(_) => 1,
            Operands::Two(_, _) => 2,
            Operands::Three(_, _, _) => 3,
        }
    }
}

/// What an operator takes and gives: the base types of its operands and of its result, and its unit.
#[derive(Clone, Copy, Debug, PartialEq, Eq)]
pub struct Signature {
    pub operands: Operands<u8>,
    pub result: u8,
    pub unit: Option<u64>,
}

/// An algebra of samples: base types with sets of codes, and operators on them.
// Base types, operators and codes go by number here: a line names them by number, whatever the algebra, and each algebra has its own.
pub trait Algebra {
    /// The value that stands for a sample.
    type Atom: Copy;

    /// Why an operator gives nothing.
    type Fault: Copy;

    /// The number of base types, 1 to 4.
    const BASES: u8;

    /// The number of operators, 1 to 16.
    const OPERATORS: u8;

    // The same two numbers, for clauses.
    ghost BASES: { ℕ };

    ghost OPERATORS: { ℕ };

    ghost meaning: { Meaning };

    ghost sample: { Self.Atom → Sample };

    ghost cause: { Self.Fault → ℕ };

    /// The signature of an operator, if there is one of this number.
    fn signature(op: u8) -> Option<Signature>
        ensures { Described meaning op result };

    /// The atom of a code, if the base type has the code.
    fn read(base: u8, code: u64) -> Option<Self::Atom>
        ensures { ReadAs meaning sample base code result };

    /// The base type of an atom.
    fn base_of(atom: Self::Atom) -> u8
        ensures { result ≡ (sample atom).base };

    /// The code of an atom.
    fn code_of(atom: Self::Atom) -> u64
        ensures exact { result ≡ (sample atom).code }
        ensures held { meaning.holds (sample atom).base result ≡ true };

    /// The base type and the code of an atom.
    fn write(atom: Self::Atom) -> (u8, u64)
        ensures { (result.0 ≡ (sample atom).base) × (result.1 ≡ (sample atom).code) × (meaning.holds result.0 result.1 ≡ true) }
    {
        (Self::base_of(atom), Self::code_of(atom))
    }

    /// The number of a fault's cause: 0 if the operator is unknown or takes other operands.
    // A method and no `Into<u8>`, since its clause speaks of what this algebra means by a fault.
    fn cause_of(fault: Self::Fault) -> u8
        ensures { result ≡ cause fault };

    /// What an operator gives for these operands, or a fault.
    fn apply(op: u8, operands: Operands<Self::Atom>) -> Result<Self::Atom, Self::Fault>
        ensures { answered sample cause result ≡ applied meaning op (samples sample operands) };

    ghost lawful: { Denotes meaning sample };

    ghost bases_stated: { BASES ≡ meaning.bases };

    ghost operators_stated: { OPERATORS ≡ meaning.operators };
}
