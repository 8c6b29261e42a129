// Lines as the tables keep them: what was handed over, and what typing found.
ghost use Rattle.std.specs.Prelude.{◌≡◌, take, drop};

use lines::Fields;
use typing::Typed;

/// A line as it was handed over: its fields, and where its codes stand among those of its draft or formula.
// Codes are found by number, since they stand in one table of fixed size, without a heap.
#[derive(Clone, Copy)]
pub struct Given {
    pub fields: Fields,
    pub start: u32,
    pub length: u32,
}

/// A line with what typing found of it and its offset behind the base place of a run.
#[derive(Clone, Copy)]
pub struct Row {
    pub given: Given,
    pub found: Typed,
    pub offset: u32,
}

impl Row {
    /// What stands where there is no line.
    pub const BLANK: Row = Row {
        given: Given {
            fields: Fields::BLANK,
            start: 0,
            length: 0,
        },
        found: Typed::NONE,
        offset: 0,
    };
}

/// The `length` codes from number `start` on, or as many of them as there are.
pub fn part(codes: &[u64], start: u32, length: u32) -> &[u64]
    ensures { result.now ≡ take length (drop start codes.now) }
{
    let from = (start as usize).min(codes.len());
    let to = from + (length as usize).min(codes.len() - from);
    &codes[from..to]
}
