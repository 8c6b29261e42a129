// What the operands of a line are asked: that they name earlier lines, their base types, their cells, and their frames.
ghost use Rattle.std.specs.Prelude.{◌≡◌, length, nat_lt};
ghost use Rattle.remora.specs.Shapes.{frame_of};
ghost use Rattle.remora.specs.Questions.{type_at, earlier, bases_fit, cells_fit, frames};
ghost use Rattle.shapes.specs.Axes.{array_type, dims};
ghost use Rattle.typing.specs.Typings.{types_of, Joined};

use shapes::{ArrayType, Shape};

/// Whether there is a type of this number: for an operand, whether it names an earlier line.
pub(crate) fn is_typed(types: &[ArrayType], number: u32) -> bool
    ensures { result ≡ nat_lt number (length (types_of types.now)) }
{
    (number as usize) < types.len()
}

/// Whether each operand names an earlier line; there are as many of these as types.
// No `Application`, since this is asked before the cells are known.
pub fn all_earlier(types: &[ArrayType], operands: &[u32]) -> bool
    ensures { result ≡ earlier (types_of types.now) operands.now }
{
    operands.iter().all(|operand| is_typed(types, *operand))
}

/// The type of an earlier line, a type without atoms if there is none.
pub(crate) fn type_at(types: &[ArrayType], operand: u32) -> ArrayType
    ensures { array_type result ≡ type_at (types_of types.now) operand }
{
    types
        .get(operand as usize)
        .copied()
        .unwrap_or(ArrayType::NOTHING)
}

/// The axes of a type before a cell of this type: as many as it has more.
fn frame(given: ArrayType, cell: ArrayType) -> Shape
    ensures { dims result ≡ frame_of (array_type cell).shape (array_type given).shape }
{
    let rank = given.shape.rank().saturating_sub(cell.shape.rank());
    given.shape.front(rank)
}

/// Operands beside the types of the lines that they name and the types of the cells that are wanted of them.
#[derive(Clone, Copy)]
pub struct Application<'a> {
    pub types: &'a [ArrayType],
    pub wanted: &'a [ArrayType],
    pub operands: &'a [u32],
}

impl Application<'_> {
    /// Whether each operand has the base type that is wanted of it.
    // The next method has another test: one for both would take it as a closure and be told what it means.
    pub fn bases_fit(&self) -> bool
        ensures { result ≡ bases_fit (types_of self.now.types.now) (types_of self.now.wanted.now) self.now.operands.now }
    {
        self.operands.iter().zip(self.wanted).all(|(operand, cell)| {
            let given = type_at(self.types, *operand);
            given.base == cell.base
        })
    }

    /// Whether each operand ends in the cell that is wanted of it.
    pub fn cells_fit(&self) -> bool
        ensures { result ≡ cells_fit (types_of self.now.types.now) (types_of self.now.wanted.now) self.now.operands.now }
    {
        self.operands.iter().zip(self.wanted).all(|(operand, cell)| {
            let given = type_at(self.types, *operand);
            given.shape.ends_in(cell.shape)
        })
    }

    /// The principal frame of the operands, if their frames agree.
    pub fn frame(&self) -> Option<Shape>
        ensures { Joined (frames (types_of self.now.types.now) (types_of self.now.wanted.now) self.now.operands.now) result }
    {
        let mut principal = Shape::SCALAR;
        for (operand, cell) in self.operands.iter().zip(self.wanted) {
            let given = type_at(self.types, *operand);
            principal = principal.join(frame(given, *cell))?;
        }
        Some(principal)
    }
}
