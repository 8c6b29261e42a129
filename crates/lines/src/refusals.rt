// The reasons for which a call refuses, with their numbers and words.
ghost use Rattle.std.specs.Prelude.{◌≡◌, Some};
ghost use Rattle.lines.specs.Refusals.{number_of, named_line, reason_of};

use std::fmt;

/// Why a call refuses. The reasons that concern one line of a draft carry its number.
#[derive(Clone, Copy, Debug, PartialEq, Eq)]
pub enum Refusal {
    TooManyDrafts,
    BadParameters,
    WrongSlip,
    NoSpace,
    BadField,
    NotEnterable,
    BadFunction { line: u32 },
    BadContents { line: u32 },
    WrongBase { line: u32 },
    NotItsCell { line: u32 },
    FramesDisagree { line: u32 },
    NoUnit { line: u32 },
    ShapeNotAllowed { line: u32 },
    BeyondLimits,
    NotInUse,
    RunOpen,
    CodesDoNotFit,
    StoreTooShort,
    NoRunAtWork,
    NotDone,
    BufferTooShort,
    NoRun,
    NotGiven,
}

impl Refusal {
    /// The number of the question that was answered by no.
    // Cases with a line have no discriminant that could be read, so the numbers stand here.
    pub fn number(self) -> u8
        ensures { result ≡ number_of self }
    {
        match self {
            Refusal::TooManyDrafts => 1,
            Refusal::BadParameters => 2,
            Refusal::WrongSlip => 3,
            Refusal::NoSpace => 4,
            Refusal::BadField => 5,
            Refusal::NotEnterable => 6,
            Refusal::BadFunction { .. } => 7,
            Refusal::BadContents { .. } => 8,
            Refusal::WrongBase { .. } => 9,
            Refusal::NotItsCell { .. } => 10,
            Refusal::FramesDisagree { .. } => 11,
            Refusal::NoUnit { .. } => 12,
            Refusal::ShapeNotAllowed { .. } => 13,
            Refusal::BeyondLimits => 14,
            Refusal::NotInUse => 15,
            Refusal::RunOpen => 16,
            Refusal::CodesDoNotFit => 17,
            Refusal::StoreTooShort => 18,
            Refusal::NoRunAtWork => 19,
            Refusal::NotDone => 20,
            Refusal::BufferTooShort => 21,
            Refusal::NoRun => 22,
            Refusal::NotGiven => 23,
        }
    }

    /// The line of the draft that the refusal names, if it names one.
    pub fn line(self) -> Option<u32>
        ensures { result ≡ named_line self }
    {
        match self {
            Refusal::BadFunction { line }
            | Refusal::BadContents { line }
            | Refusal::WrongBase { line }
            | Refusal::NotItsCell { line }
            | Refusal::FramesDisagree { line }
            | Refusal::NoUnit { line }
            | Refusal::ShapeNotAllowed { line } => Some(line),
            _ => None,
        }
    }
}

/// A refusal is printed as its reason.
// Written by hand, since clauses name the text.
impl fmt::Display for Refusal {
    ghost output = { λ x. Some (reason_of x) };

    fn fmt<W: fmt::Write>(&self, f: &mut fmt::Formatter<W>) -> fmt::Result {
        match self {
            Refusal::TooManyDrafts => write!(f, "a million drafts were opened already"),
            Refusal::BadParameters => write!(
                f,
                "more than four parameters, or one of an unknown base type or a shape that is not allowed"
            ),
            Refusal::WrongSlip => write!(f, "the slip is not that of the open draft"),
            Refusal::NoSpace => write!(f, "no space for the line"),
            Refusal::BadField => write!(
                f,
                "a field of the line is out of range, or should be empty"
            ),
            Refusal::NotEnterable => write!(
                f,
                "the draft has no lines, or there are 64 formulas already"
            ),
            Refusal::BadFunction { .. } => write!(
                f,
                "an operand, the function or the number of operands is wrong"
            ),
            Refusal::BadContents { .. } => write!(f, "the codes, the frame or the cell is wrong"),
            Refusal::WrongBase { .. } => write!(f, "an operand has the wrong base type"),
            Refusal::NotItsCell { .. } => write!(f, "an operand does not end in its cell"),
            Refusal::FramesDisagree { .. } => write!(f, "the frames of the operands do not agree"),
            Refusal::NoUnit { .. } => write!(f, "a fold over no items has no unit"),
            Refusal::ShapeNotAllowed { .. } => write!(f, "the shape of the line is not allowed"),
            Refusal::BeyondLimits => write!(f, "steps, room or depth is beyond the limits"),
            Refusal::NotInUse => write!(f, "the number is not entered, or is withdrawn"),
            Refusal::RunOpen => write!(f, "a run is open"),
            Refusal::CodesDoNotFit => write!(f, "the codes do not fit the parameters"),
            Refusal::StoreTooShort => write!(f, "the store is too short"),
            Refusal::NoRunAtWork => write!(f, "there is no run at work"),
            Refusal::NotDone => write!(f, "there is no run that is done"),
            Refusal::BufferTooShort => write!(f, "the buffer is too short"),
            Refusal::NoRun => write!(f, "there is no run"),
            Refusal::NotGiven => write!(f, "the number was not given"),
        }
    }
}
