// What the contents of a line are asked: the codes of a literal, and the parts that a frame line puts together.
ghost use Rattle.std.specs.Prelude.{◌≡◌};
ghost use Rattle.remora.specs.Questions.{in_set, same_base, same_shape};
ghost use Rattle.shapes.specs.Axes.{dims};
ghost use Rattle.typing.specs.Typings.{types_of};

use super::operands::type_at;
use algebra::Algebra;
use shapes::{ArrayType, Shape};

/// Whether the base type has this code.
fn has_code<A: Algebra>(base: u32, code: u64) -> bool
    ensures { result ≡ A.meaning.holds base code }
{
    match u8::try_from(base) {
        Ok(base) => A::read(base, code).is_some(),
        Err(_) => false,
    }
}

/// Whether the base type has each of the codes.
pub fn has_codes<A: Algebra>(base: u32, codes: &[u64]) -> bool
    ensures { result ≡ in_set A.meaning.holds base codes.now }
{
    codes.iter().all(|code| has_code::<A>(base, *code))
}

/// Whether each operand has this base type.
// No `Application`, since there are no cells that are wanted of the parts of a frame line. The next function has another test: one for both
// would take it as a closure and be told what it means.
pub fn parts_of_base(types: &[ArrayType], base: u32, operands: &[u32]) -> bool
    ensures { result ≡ same_base (types_of types.now) base operands.now }
{
    operands
        .iter()
        .all(|operand| type_at(types, *operand).base == base)
}

/// Whether each operand has this shape.
// No `Application`, as above.
pub fn parts_of_shape(types: &[ArrayType], shape: Shape, operands: &[u32]) -> bool
    ensures { result ≡ same_shape (types_of types.now) (dims shape) operands.now }
{
    operands
        .iter()
        .all(|operand| type_at(types, *operand).shape == shape)
}
