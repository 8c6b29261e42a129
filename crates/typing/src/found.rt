// What typing works with and what it finds: the context of a line, what is known of an entered formula, and a line's type with its cells.
ghost use Rattle.std.specs.Prelude.{◌≡◌, take};

use super::parameters::Parameters;
use shapes::ArrayType;

/// What is known of a formula by its number: the types of its parameters and of its result, its forecasts, and whether it is withdrawn.
#[derive(Clone, Copy)]
pub struct Entry {
    pub parameters: Parameters,
    pub result: ArrayType,
    pub steps: u32,
    pub room: u32,
    pub depth: u32,
    pub withdrawn: bool,
}

impl Entry {
    /// What is known of a number that was not given.
    pub const NONE: Entry = Entry {
        parameters: Parameters::NONE,
        result: ArrayType::NOTHING,
        steps: 0,
        room: 0,
        depth: 0,
        withdrawn: false,
    };

    /// The types of the parameters.
    pub fn parameters(&self) -> &[ArrayType]
        ensures { result.now ≡ take self.now.parameters.count self.now.parameters.all }
    {
        self.parameters.as_slice()
    }
}

/// How an operand is lifted to a frame: how often a cell of it is repeated, and how many atoms a cell has.
#[derive(Clone, Copy, Debug, PartialEq, Eq)]
pub struct Lift {
    pub repeats: u32,
    pub size: u32,
}

impl Lift {
    /// What stands where there is no operand.
    pub const NONE: Lift = Lift {
        repeats: 0,
        size: 0,
    };
}

/// The items of a cell: how many there are, and how many atoms each has.
#[derive(Clone, Copy, Debug, PartialEq, Eq)]
pub struct Items {
    pub number: u32,
    pub atoms: u32,
}

impl Items {
    /// What stands where a cell is not taken apart.
    pub const NONE: Items = Items {
        number: 0,
        atoms: 0,
    };
}

/// What typing finds of a line: its type, the number of its cells, the items of a cell, and how each operand is lifted.
// There is a place for each of four operands, since what was found stands in tables of fixed size, without a heap.
#[derive(Clone, Copy)]
pub struct Typed {
    pub array: ArrayType,
    pub cells: u32,
    pub items: Items,
    pub lifts: [Lift; 4],
}

impl Typed {
    /// What stands where nothing was found yet.
    pub const NONE: Typed = Typed {
        array: ArrayType::NOTHING,
        cells: 0,
        items: Items::NONE,
        lifts: [Lift::NONE; 4],
    };
}

/// What a line is typed in: the types of the draft's parameters and of the lines before, and what is known of the formulas by number.
#[derive(Clone, Copy)]
pub struct Context<'a> {
    pub parameters: &'a [ArrayType],
    pub types: &'a [ArrayType],
    pub formulas: &'a [Entry],
}
