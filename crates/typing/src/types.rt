// The types of lines that apply nothing: literals, parameter lines and frame lines.
ghost use Rattle.shapes.specs.Axes.{dims};
ghost use Rattle.typing.specs.Typings.{types_of, LiteralJudged, ParameterJudged, FrameJudged};

use super::contents::{has_codes, parts_of_base, parts_of_shape};
use super::operands::{all_earlier, is_typed, type_at};
use algebra::Algebra;
use lines::Refusal;
use shapes::{ArrayType, Shape};

/// The type of a literal, or the refusal of question 8 or 13.
// Base type and shape as a line has them: together they are an array type only once the answers are yes.
pub fn literal<A: Algebra>(
    base: u32,
    shape: Shape,
    codes: &[u64],
    line: u32,
) -> Result<ArrayType, Refusal>
    ensures { LiteralJudged A.meaning base (dims shape) codes.now line result }
{
    let size = shape.size();
    if codes.len() as u128 != size || !has_codes::<A>(base, codes) {
        return Err(Refusal::BadContents { line });
    }
    if !shape.allowed() {
        return Err(Refusal::ShapeNotAllowed { line });
    }
    Ok(ArrayType { base, shape })
}

/// The type of a parameter line, or the refusal of question 7 or 13.
pub fn parameter(parameters: &[ArrayType], number: u32, line: u32) -> Result<ArrayType, Refusal>
    ensures { ParameterJudged (types_of parameters.now) number line result }
{
    if !is_typed(parameters, number) {
        return Err(Refusal::BadFunction { line });
    }
    let given = type_at(parameters, number);
    if !given.shape.allowed() {
        return Err(Refusal::ShapeNotAllowed { line });
    }
    Ok(given)
}

/// The type of a frame line of `rank` frame axes, or the refusal of question 7, 8, 9, 10 or 13.
// Base type and shape as above, and no `Application`, since there are no cells that are wanted of the operands.
pub fn framing(
    types: &[ArrayType],
    base: u32,
    shape: Shape,
    rank: u32,
    operands: &[u32],
    line: u32,
) -> Result<ArrayType, Refusal>
    ensures { FrameJudged (types_of types.now) base (dims shape) rank operands.now line result }
{
    if !all_earlier(types, operands) {
        return Err(Refusal::BadFunction { line });
    }
    let rank = rank as usize;
    let frame = shape.front(rank);
    if rank > shape.rank() || operands.len() as u128 != frame.size() {
        return Err(Refusal::BadContents { line });
    }
    if !parts_of_base(types, base, operands) {
        return Err(Refusal::WrongBase { line });
    }
    let cell = shape.back(rank);
    if !parts_of_shape(types, cell, operands) {
        return Err(Refusal::NotItsCell { line });
    }
    if !shape.allowed() {
        return Err(Refusal::ShapeNotAllowed { line });
    }
    Ok(ArrayType { base, shape })
}
