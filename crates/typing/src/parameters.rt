// The types of parameters, and what open asks of them.
ghost use Rattle.std.specs.Prelude.{◌≡◌, ◌≤◌, length, take};
ghost use Rattle.lines.specs.Lines.{type_of, types_given};
ghost use Rattle.typing.specs.Parameters.{KnownType, KnownTypes};

use algebra::Algebra;
use lines::ParameterType;
use shapes::{ArrayType, Shape};

/// The types of up to four parameters, of which the first `count` count.
// They are kept in place, with their number beside them, as the axes of a shape are and for the same reasons.
#[derive(Clone, Copy)]
pub struct Parameters {
    pub all: [ArrayType; 4],
    pub count: u8,
}

/// The type of a parameter, if its base type is known and its shape allowed.
fn known_type<A: Algebra>(given: &ParameterType) -> Option<ArrayType>
    ensures { KnownType A.meaning (type_of given.now) result }
{
    let shape = Shape::checked(given.shape)?;
    if given.base < u32::from(A::BASES) {
        Some(ArrayType {
            base: given.base,
            shape,
        })
    } else {
        None
    }
}

impl Parameters {
    /// No parameters.
    pub const NONE: Parameters = Parameters {
        all: [ArrayType::NOTHING; 4],
        count: 0,
    };

    /// The types.
    pub fn as_slice(&self) -> &[ArrayType]
        ensures all { result.now ≡ take self.now.count self.now.all }
        ensures few { length result.now ≤ 4 }
    {
        let count = usize::from(self.count).min(4);
        &self.all[..count]
    }

    /// Question 2: the types of at most four parameters, each with a known base type and an allowed shape.
    pub fn of<A: Algebra>(given: &[ParameterType]) -> Option<Parameters>
        ensures { KnownTypes A.meaning (types_given given.now) result }
    {
        let count = given.len();
        if count > 4 {
            return None;
        }
        let mut all = [ArrayType::NOTHING; 4];
        for (i, parameter) in given.iter().enumerate() {
            all[i] = known_type::<A>(parameter)?;
        }
        Some(Parameters {
            all,
            count: count as u8,
        })
    }
}
