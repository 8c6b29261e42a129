// How the operands of an application are lifted to its frame: how often a cell of each is repeated, and how many atoms a cell has.
ghost use Rattle.std.specs.Prelude.{◌≡◌, ◌<◌, length};
ghost use Rattle.remora.specs.Shapes.{size};
ghost use Rattle.remora.specs.Evaluation.{repeats};
ghost use Rattle.shapes.specs.Axes.{array_type, dims};
ghost use Rattle.typing.specs.Typings.{types_of};
ghost use Rattle.typing.specs.Plans.{small, LiftedBy, Lifted};

use super::found::Lift;
use super::operands::{Application, type_at};
use shapes::{ArrayType, Shape};
use std::array;

impl Lift {
    /// How an array of this type is lifted to a frame: by the size of the frame's axes that its own frame lacks.
    fn of(given: ArrayType, cell: ArrayType, frame: Shape) -> Lift
        ensures repeats { result.repeats ≡ small (repeats (dims frame) (array_type cell).shape (array_type given).shape) }
        ensures size { result.size ≡ small (size (array_type cell).shape) }
    {
        let rank = given.shape.rank().saturating_sub(cell.shape.rank());
        Lift {
            repeats: frame.back(rank).small_size(),
            size: cell.shape.small_size(),
        }
    }
}

impl Application<'_> {
    /// How the operand of this number is lifted to a frame, if there is one and it is wanted.
    fn lift(&self, i: usize, frame: Shape) -> Lift
        ensures { i < length self.now.operands.now → i < length self.now.wanted.now → LiftedBy (types_of self.now.types.now) (types_of self.now.wanted.now) self.now.operands.now (dims frame) i result }
    {
        match (self.operands.get(i), self.wanted.get(i)) {
            (Some(operand), Some(cell)) => Lift::of(type_at(self.types, *operand), *cell, frame),
            _ => Lift::NONE,
        }
    }

    /// How each operand is lifted to a frame.
    pub(crate) fn lifted(&self, frame: Shape) -> [Lift; 4]
        ensures { Lifted (types_of self.now.types.now) (types_of self.now.wanted.now) self.now.operands.now (dims frame) result }
    {
        array::from_fn(|i| self.lift(i, frame))
    }
}
