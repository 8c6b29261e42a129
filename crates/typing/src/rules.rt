// The typing rule: the questions of a line in their order, and what is found of the line.
ghost use Rattle.lines.specs.Lines.{line_with};
ghost use Rattle.typing.specs.Plans.{Ruled, TypedIn};

use super::asked::Asked;
use super::found::{Context, Typed};
use super::kinds::{literal, parameter};
use algebra::Algebra;
use lines::{Fields, Kind, Refusal};

/// What is found of a line, or the refusal of its first no among the questions 7 to 13.
// What `Asked` bundles comes apart here, since the operands may name no earlier lines.
fn ruled<A: Algebra>(
    context: &Context,
    fields: &Fields,
    codes: &[u64],
    line: u32,
) -> Result<Typed, Refusal>
    ensures { Ruled A.meaning context.now (line_with fields.now codes.now) line result }
{
    let count = fields.operands().len();
    let rank = fields.shape.rank();
    match (fields.kind, Asked::of(context, fields, line)) {
        (Kind::Literal, _) => literal::<A>(fields, codes, line),
        (Kind::Parameter, _) => parameter(context, fields, line),
        (Kind::Frame, Some(asked)) => asked.framing(),
        (Kind::Operator, Some(asked)) => asked.operator::<A>(),
        (Kind::Call, Some(asked)) => asked.call(),
        (Kind::Fold, Some(asked)) if count == 1 => asked.fold::<A>(),
        (Kind::Append, Some(asked)) if count == 2 && rank > 0 => asked.append(),
        (Kind::Reverse, Some(asked)) if count == 1 && rank > 0 => asked.reverse(),
        (Kind::Append, Some(_)) if count == 2 => Err(Refusal::BadContents { line }),
        (Kind::Reverse, Some(_)) if count == 1 => Err(Refusal::BadContents { line }),
        _ => Err(Refusal::BadFunction { line }),
    }
}

/// The typing rule: the questions 7 to 13 of a line in their order; what is found is written to `out`.
// To a lent place, as the project has the typing rule answer; a refusal leaves what stood there.
pub fn type_line<A: Algebra>(
    context: &Context,
    fields: &Fields,
    codes: &[u64],
    line: u32,
    out: &mut Typed,
) -> Result<(), Refusal>
    ensures { TypedIn A.meaning context.now (line_with fields.now codes.now) line out.old result out.new }
{
    *out = ruled::<A>(context, fields, codes, line)?;
    Ok(())
}
