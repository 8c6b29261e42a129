// What is kept of a line: its fields once they are in order, without its codes.
ghost use Rattle.std.specs.Prelude.{◌≡◌, ◌≤◌, length, take};
ghost use Rattle.lines.specs.Lines.{line_of, InOrder, padded};

use super::given::{Kind, Line};
use algebra::Algebra;
use shapes::Shape;

/// The fields of a line that is in order, of whose operands the first `count` count.
// The operands are kept in place, with their number beside them, as the axes of a shape are and for the same reasons.
#[derive(Clone, Copy)]
pub struct Fields {
    pub kind: Kind,
    pub base: u32,
    pub shape: Shape,
    pub function: u32,
    operands: [u32; 4],
    count: u8,
}

/// Up to four operands, with 0 in the places behind them.
fn four(operands: &[u32]) -> [u32; 4]
    requires { length operands.now ≤ 4 }
    ensures { result ≡ padded operands.now }
{
    let count = operands.len();
    let mut all = [0; 4];
    all[..count].copy_from_slice(operands);
    all
}

impl Fields {
    /// The fields of a line where there is none.
    pub const BLANK: Fields = Fields {
        kind: Kind::Literal,
        base: 0,
        shape: Shape::SCALAR,
        function: 0,
        operands: [0; 4],
        count: 0,
    };

    /// Question 5: the fields of a line, if they are in order: there is such a kind and such a base type, the shape is allowed, there
    /// are no more than four operands, and what the kind does not name is 0 or empty.
    pub fn of<A: Algebra>(line: &Line) -> Option<Fields>
        ensures { InOrder A.meaning (line_of line.now) result }
    {
        let kind = Kind::try_from(line.kind).ok()?;
        let shape = Shape::checked(line.shape)?;
        let count = line.operands.len();
        if line.base < u32::from(A::BASES) && count <= 4 && line.unnamed_empty(kind) {
            Some(Fields {
                kind,
                base: line.base,
                shape,
                function: line.function,
                operands: four(line.operands),
                count: count as u8,
            })
        } else {
            None
        }
    }

    /// The operands.
    pub fn operands(&self) -> &[u32]
        ensures all { result.now ≡ take self.now.count self.now.operands }
        ensures few { length result.now ≤ 4 }
    {
        let count = usize::from(self.count).min(4);
        &self.operands[..count]
    }
}
