// What an application is asked and what is found of it: the principal frame of its operands, its type and its cells.
ghost use Rattle.std.specs.Prelude.{◌≡◌, ◌++◌};
ghost use Rattle.shapes.specs.Axes.{array_type, dims, Checked};
ghost use Rattle.typing.specs.Typings.{types_of, Judged, shape_asked, Framed, Spread, Whole};
ghost use Rattle.typing.specs.Plans.{Applies, Applied};

use super::found::{Items, Typed};
use super::operands::Application;
use lines::Refusal;
use shapes::{ArrayType, Shape};

/// The shape of cells of this shape in this frame, if it is allowed.
#[tactic(auto, using(crate::proofs::Spreading::too_long))]
fn whole(frame: Shape, cell: Shape) -> Option<Shape>
    ensures { Whole (dims frame) (dims cell) result }
{
    let shape = frame.concatenated(cell)?;
    let allowed = shape.allowed();
    if allowed { Some(shape) } else { None }
}

/// The type of an array with cells of this type in this frame, or the refusal of question 13.
pub fn spread(frame: Shape, cell: ArrayType, line: u32) -> Result<ArrayType, Refusal>
    ensures { Spread (dims frame) (array_type cell) line result }
{
    match whole(frame, cell.shape) {
        Some(shape) => Ok(ArrayType {
            base: cell.base,
            shape,
        }),
        None => Err(Refusal::ShapeNotAllowed { line }),
    }
}

// The cell of the result and the items stand apart as parameters: the items are those of an operand's cell.
impl Application<'_> {
    /// The principal frame of the operands, or the refusal of question 9, 10 or 11.
    pub fn framed(&self, line: u32) -> Result<Shape, Refusal>
        ensures { Framed (types_of self.now.types.now) (types_of self.now.wanted.now) self.now.operands.now line result }
    {
        if !self.bases_fit() {
            return Err(Refusal::WrongBase { line });
        }
        if !self.cells_fit() {
            return Err(Refusal::NotItsCell { line });
        }
        match self.frame() {
            Some(principal) => Ok(principal),
            None => Err(Refusal::FramesDisagree { line }),
        }
    }

    /// What is found of the application with cells of this type in this frame, or the refusal of question 13.
    pub(crate) fn over(
        &self,
        frame: Shape,
        cell: ArrayType,
        items: Items,
        line: u32,
    ) -> Result<Typed, Refusal>
        ensures { Judged (shape_asked (dims frame ++ (array_type cell).shape)) (Applies (types_of self.now.types.now) (types_of self.now.wanted.now) self.now.operands.now (dims frame) (array_type cell) items) line result }
    {
        let array = spread(frame, cell, line)?;
        Ok(Typed {
            array,
            cells: frame.small_size(),
            items,
            lifts: self.lifted(frame),
        })
    }

    /// What is found of the application, if it is no fold, or the refusal of question 9, 10, 11 or 13.
    pub fn applied(&self, cell: ArrayType, items: Items, line: u32) -> Result<Typed, Refusal>
        ensures { Applied (types_of self.now.types.now) (types_of self.now.wanted.now) self.now.operands.now (array_type cell) items line result }
    {
        let frame = self.framed(line)?;
        self.over(frame, cell, items, line)
    }
}
