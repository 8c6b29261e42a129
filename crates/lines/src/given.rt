// Lines as they are handed over, and their kinds.
ghost use Rattle.std.specs.Prelude.{◌≡◌};
ghost use Rattle.remora.specs.Calls.{unnamed_empty};
ghost use Rattle.lines.specs.Lines.{line_of, KindOf, kind_for};

/// A line as it is handed over: any numbers, so that everything can be shown and refused.
// The numbers stay numbers, since a line of no kind or no base type can be handed over too, and is refused by 5.
#[derive(Clone, Copy, Debug)]
pub struct Line<'a> {
    pub kind: u32,
    pub base: u32,
    pub shape: &'a [u32],
    pub function: u32,
    pub operands: &'a [u32],
    pub codes: &'a [u64],
}

/// The type of a parameter as it is handed over.
// The base type stays a number, since one that is unknown can be handed over too, and is refused by 2.
#[derive(Clone, Copy, Debug)]
pub struct ParameterType<'a> {
    pub base: u32,
    pub shape: &'a [u32],
}

/// The kinds of lines, numbered from 0 to 7.
#[derive(Clone, Copy, Debug, PartialEq, Eq)]
pub enum Kind {
    Literal,
    Parameter,
    Frame,
    Operator,
    Call,
    Fold,
    Append,
    Reverse,
}

/// No kind has the number.
#[derive(Clone, Copy, Debug, PartialEq, Eq)]
pub struct UnknownKind;

/// The kind of a number.
impl TryFrom<u32> for Kind {
    type Error = UnknownKind;

    ghost try_from_gives = { KindOf };

    fn try_from(number: u32) -> Result<Kind, UnknownKind> {
        match number {
            0 => Ok(Kind::Literal),
            1 => Ok(Kind::Parameter),
            2 => Ok(Kind::Frame),
            3 => Ok(Kind::Operator),
            4 => Ok(Kind::Call),
            5 => Ok(Kind::Fold),
            6 => Ok(Kind::Append),
            7 => Ok(Kind::Reverse),
            _ => Err(UnknownKind),
        }
    }
}

impl Line<'_> {
    /// Whether the fields that a line of this kind does not name are 0 or empty.
    pub(crate) fn unnamed_empty(&self, kind: Kind) -> bool
        ensures { result ≡ unnamed_empty (kind_for kind) (line_of self.now) }
    {
        let rank = self.shape.len();
        let count = self.operands.len();
        let codes = self.codes.len();
        match kind {
            Kind::Literal if self.function == 0 && count == 0 => true,
            Kind::Parameter if self.base == 0 && rank == 0 && count == 0 && codes == 0 => true,
            Kind::Frame if codes == 0 => true,
            Kind::Operator | Kind::Call if self.base == 0 && rank == 0 && codes == 0 => true,
            Kind::Fold if self.base == 0 && codes == 0 => true,
            Kind::Append | Kind::Reverse if self.base == 0 && self.function == 0 && codes == 0 =>
                true,
            _ => false,
        }
    }
}
