// Shapes of arrays as small values: axes, frames before a cell, the joining of frames; types of arrays.
#![tactic(auto)]

ghost use Rattle.std.specs.Prelude.{◌≡◌, ◌+◌, ◌≤◌, min, true, ◌&&◌, [], ◌++◌, length, take, drop, ◌==◌, nat_lt, slice_index};
ghost use Rattle.std.specs.Cmp.{on_per, on_equiv, partial_equiv_from_equiv};
ghost use Rattle.remora.specs.Shapes.{size, allowed, same, begins, ends, longer};
ghost use Rattle.shapes.specs.Axes.{dims, shape_of, array_type, volume, Made, Checked, Framed, Joined, Followed};
ghost use Rattle.shapes.specs.Equality.{same_equiv};

/// Up to four axes.
#[derive(Clone, Copy)]
pub struct Shape {
    // The axes are kept in place, with their number beside them: shapes are copied and stand in tables of fixed size, without a heap. As the project
    // has it a shape is an array of four axes and a rank, so there is no type of up to four numbers below it and the operands of a line.
    axes: [u32; 4],
    rank: u8,
}

impl Shape {
    /// The empty shape.
    pub const SCALAR: Shape = Shape {
        axes: [0; 4],
        rank: 0,
    };

    /// The shape of one axis of 0.
    pub const NOTHING: Shape = Shape {
        axes: [0; 4],
        rank: 1,
    };

    /// The empty shape.
    pub fn scalar() -> Shape
        ensures { result ≡ shape_of [] }
    {
        Shape::SCALAR
    }

    /// The shape of these axes, if they are at most four.
    pub fn new(axes: &[u32]) -> Option<Shape>
        ensures { Made axes.now result }
    {
        if axes.len() <= 4 {
            Some(Shape::packed(axes))
        } else {
            None
        }
    }

    /// The shape of these axes, if they make an allowed shape.
    pub fn checked(axes: &[u32]) -> Option<Shape>
        ensures { Checked axes.now result }
    {
        let shape = Shape::new(axes)?;
        if shape.allowed() { Some(shape) } else { None }
    }

    /// The shape of these axes, of which there are at most four.
    fn packed(axes: &[u32]) -> Shape
        requires { length axes.now ≤ 4 }
        ensures axes { dims result ≡ axes.now }
        ensures whole { result ≡ shape_of axes.now }
    {
        let rank = axes.len();
        let mut all = [0; 4];
        all[..rank].copy_from_slice(axes);
        Shape {
            axes: all,
            rank: rank as u8,
        }
    }

    /// The axes.
    pub fn axes(&self) -> &[u32]
        ensures axes { result.now ≡ dims self.now }
        ensures few { length result.now ≤ 4 }
    {
        let rank = usize::from(self.rank).min(4);
        &self.axes[..rank]
    }

    /// How many axes there are.
    pub fn rank(self) -> usize
        ensures { (result ≡ length (dims self)) × (result ≤ 4) }
    {
        self.axes().len()
    }

    /// The axis of this number, 0 if there is none.
    pub fn axis(self, i: usize) -> u32
        ensures { result ≡ slice_index (dims self) i }
    {
        self.axes().get(i).copied().unwrap_or(0)
    }

    /// The first `n` axes, all of them if there are fewer.
    pub fn front(self, n: usize) -> Shape
        ensures axes { dims result ≡ take n (dims self) }
        ensures whole { result ≡ shape_of (take n (dims self)) }
    {
        Shape::packed(&self.axes()[..n.min(self.rank())])
    }

    /// The axes from number `n` on, none if there are fewer.
    pub fn back(self, n: usize) -> Shape
        ensures axes { dims result ≡ drop n (dims self) }
        ensures whole { result ≡ shape_of (drop n (dims self)) }
    {
        Shape::packed(&self.axes()[n.min(self.rank())..])
    }

    /// Whether the first axes of `other` are those of `self`.
    // Axis by axis, by which `==` and `join` take less time: the library's test of slices is the quicker only where four axes are equal.
    pub fn begins(self, other: Shape) -> bool
        ensures exact { result ≡ begins (dims self) (dims other) }
        ensures level { length (dims self) ≡ length (dims other) → result ≡ same (dims self) (dims other) }
    {
        self.rank() <= other.rank() && self.axes().iter().zip(other.axes()).all(|(a, b)| *a == *b)
    }

    /// Whether the last axes are those of `cell`.
    #[tactic(auto, using(crate::proofs::Prefixes::ends_is))]
    pub fn ends_in(self, cell: Shape) -> bool
        ensures { result ≡ ends (dims cell) (dims self) }
    {
        self.axes().ends_with(cell.axes())
    }

    /// The frame before `cell`, if the shape ends in it.
    #[tactic(auto, using(crate::proofs::Prefixes::suffix_is))]
    pub fn frame_before(self, cell: Shape) -> Option<Shape>
        ensures { Framed (dims cell) (dims self) result }
    {
        let frame = self.axes().strip_suffix(cell.axes())?;
        Some(Shape::packed(frame))
    }

    /// The longer of two shapes of which one begins the other.
    pub fn join(self, other: Shape) -> Option<Shape>
        ensures { Joined (dims self) (dims other) result }
    {
        if self.begins(other) || other.begins(self) {
            Some(self.longer(other))
        } else {
            None
        }
    }

    /// The shape of more axes, `self` if they are as many.
    fn longer(self, other: Shape) -> Shape
        ensures { dims result ≡ longer (nat_lt (length (dims self)) (length (dims other))) (dims self) (dims other) }
    {
        if self.rank() < other.rank() {
            other
        } else {
            self
        }
    }

    /// The axes of `self` and then those of `cell`, if they are at most four.
    pub fn concatenated(self, cell: Shape) -> Option<Shape>
        ensures { Followed (dims self) (dims cell) result }
    {
        if self.rank() + cell.rank() <= 4 {
            Some(self.followed_by(cell))
        } else {
            None
        }
    }

    /// The axes of `self` and then those of `cell`, at most four.
    fn followed_by(self, cell: Shape) -> Shape
        requires { length (dims self) + length (dims cell) ≤ 4 }
        ensures { result ≡ shape_of (dims self ++ dims cell) }
    {
        let outer = self.rank();
        let rank = outer + cell.rank();
        let mut axes = self.front(outer).axes;
        axes[outer..rank].copy_from_slice(cell.axes());
        Shape {
            axes,
            rank: rank as u8,
        }
    }

    /// The product of the axes, each taken as `least` if it is less, 1 for the empty shape.
    fn volume(self, least: u32) -> u128
        ensures { result ≡ volume least (dims self) }
    {
        let mut product = 1;
        for axis in self.axes() {
            product *= u128::from((*axis).max(least));
        }
        product
    }

    /// The product of the axes, 1 for the empty shape.
    #[tactic(auto, using(crate::proofs::Products::volume_size))]
    pub fn size(self) -> u128
        ensures { result ≡ size (dims self) }
    {
        self.volume(0)
    }

    /// The size if it fits 32 bits, as that of an allowed shape does, else the largest number of 32 bits.
    #[tactic(auto, using(crate::proofs::Products::size_allowed))]
    pub fn small_size(self) -> u32
        ensures exact { result ≡ min (size (dims self)) 4294967295 }
        ensures whole { allowed (dims self) ≡ true → result ≡ size (dims self) }
    {
        u32::try_from(self.size()).unwrap_or(u32::MAX)
    }

    /// Whether the extent, the product with every axis of 0 taken as 1, is no more than 65,536.
    pub fn allowed(self) -> bool
        ensures { result ≡ allowed (dims self) }
    {
        self.volume(1) <= 65536
    }
}

/// Shapes are equal if their axes are; the places behind the axes are no part of a shape, so this is no derive.
impl PartialEq for Shape {
    ghost eq = { λ a b. same (dims a) (dims b) };

    ghost laws = { on_per dims (partial_equiv_from_equiv same_equiv) };

    fn eq(&self, other: &Shape) -> bool {
        self.rank() == other.rank() && self.begins(*other)
    }
}

impl Eq for Shape {
    ghost laws = { on_equiv dims same_equiv };
}

/// The type of an array: a base type and a shape.
#[derive(Clone, Copy, PartialEq, Eq)]
pub struct ArrayType {
    pub base: u32,
    pub shape: Shape,
}

impl ArrayType {
    /// A type without atoms.
    pub const NOTHING: ArrayType = ArrayType {
        base: 0,
        shape: Shape::NOTHING,
    };

    /// Whether the two have the same base type and the same axes.
    pub fn same(self, other: ArrayType) -> bool
        ensures { result ≡ ((array_type self).base == (array_type other).base && same (array_type self).shape (array_type other).shape) }
    {
        self == other
    }
}

#[cfg(test)]
mod tests {
    use super::*;
    use std::test::Fail;

    #[test]
    fn shapes_are_allowed_by_their_extent(rt: HostRuntime) -> Result<(), Fail> {
        assert!(rt; Shape::new(&[256, 256]).ok_or("rank")?.allowed());
        assert!(rt; Shape::new(&[0, 65536]).ok_or("rank")?.allowed());
        assert!(rt; !Shape::new(&[256, 257]).ok_or("rank")?.allowed());
        assert!(rt; !Shape::new(&[2, 0, 65536]).ok_or("rank")?.allowed());
        assert!(rt; Shape::new(&[1, 1, 1, 1, 1]).is_none());
        Ok(())
    }

    #[test]
    fn shapes_of_five_axes_are_not_allowed(rt: HostRuntime) {
        assert!(rt; Shape::checked(&[2, 2, 2, 2]).is_some());
        assert!(rt; Shape::checked(&[1, 1, 1, 1, 1]).is_none());
        assert!(rt; Shape::checked(&[256, 257]).is_none());
    }

    #[test]
    fn frames_join_by_prefix(rt: HostRuntime) -> Result<(), Fail> {
        let three = Shape::new(&[3]).ok_or("rank")?;
        let two_three = Shape::new(&[2, 3]).ok_or("rank")?;
        let three_two = Shape::new(&[3, 2]).ok_or("rank")?;
        assert!(rt; three.join(two_three).is_none());
        assert!(rt; three.join(three_two) == Some(three_two));
        assert!(rt; two_three.frame_before(three) == Shape::new(&[2]));
        Ok(())
    }
}
