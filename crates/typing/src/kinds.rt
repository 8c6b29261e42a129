// The rule for each kind of lines: its questions in their order, and what is found of the line.
ghost use Rattle.std.specs.Prelude.{◌≡◌, true, false, ◌&&◌, [], ◌∷◌, length, drop, Some, None, nat_lt};
ghost use Rattle.remora.specs.Algebras.{Meaning};
ghost use Rattle.remora.specs.Formulas.{shaped, «a_literal», «a_parameter», «a_frame», «an_operator», «a_call», «a_fold», «an_append», «a_reverse»};
ghost use Rattle.remora.specs.Questions.{earlier, foldable, has_axis};
ghost use Rattle.algebra.specs.Operands.{listed};
ghost use Rattle.algebra.specs.Promises.{Described};
ghost use Rattle.shapes.specs.Axes.{array_type, dims};
ghost use Rattle.lines.specs.Lines.{line_with};
ghost use Rattle.typing.specs.declared.found.Context.{Context as InContext};
ghost use Rattle.typing.specs.Typings.{types_of};
ghost use Rattle.typing.specs.Plans.{RuledAs, AskedOf, Applied, Folded, Appended, items_in, entry_of, known_in, usable_in};

use super::asked::Asked;
use super::found::{Context, Entry, Items, Lift, Typed};
use super::operands::{Application, all_earlier, type_at};
use super::types;
use algebra::{Algebra, Operands, Signature};
use lines::{Fields, Refusal};
use shapes::{ArrayType, Shape};

/// What is found of a literal, or the refusal of question 8 or 13.
pub(crate) fn literal<A: Algebra>(
    fields: &Fields,
    codes: &[u64],
    line: u32,
) -> Result<Typed, Refusal>
    ensures { (x : InContext) → RuledAs A.meaning x a_literal (line_with fields.now codes.now) line result }
{
    let array = types::literal::<A>(fields.base, fields.shape, codes, line)?;
    Ok(Typed {
        array,
        ..Typed::NONE
    })
}

/// What is found of a parameter line, or the refusal of question 7 or 13.
// No `Asked`, since a parameter line has no operands.
pub(crate) fn parameter(context: &Context, fields: &Fields, line: u32) -> Result<Typed, Refusal>
    ensures { (m : Meaning) → RuledAs m context.now a_parameter (line_with fields.now []) line result }
{
    let array = types::parameter(context.parameters, fields.function, line)?;
    Ok(Typed {
        array,
        ..Typed::NONE
    })
}

/// The signature of an operator, if there is one of this number.
fn described<A: Algebra>(operator: u32) -> Option<Signature>
    ensures { Described A.meaning operator result }
{
    let number = u8::try_from(operator).ok()?;
    A::signature(number)
}

/// The type of the atoms of a base type.
fn scalar(base: u8) -> ArrayType
    ensures { array_type result ≡ shaped base [] }
{
    ArrayType {
        base: u32::from(base),
        shape: Shape::scalar(),
    }
}

/// What is known of the formula of this number, if there is one and it is not withdrawn.
fn usable(formulas: &[Entry], number: u32) -> Option<&Entry>
    ensures { elim result [ None ↦ (nat_lt number (length formulas.now) && usable_in formulas.now number) ≡ false | Some e ↦ ((nat_lt number (length formulas.now) && usable_in formulas.now number) ≡ true) × (entry_of e.now ≡ known_in formulas.now number) ] }
{
    let entry = formulas.get(number as usize)?;
    if entry.withdrawn { None } else { Some(entry) }
}

/// Whether a fold can use the operator: it has two operands, of its result's base type.
fn is_foldable(signature: Signature) -> bool
    ensures { result ≡ foldable (listed signature.operands) signature.result }
{
    match signature.operands {
        Operands::Two(first, second) => first == signature.result && second == signature.result,
        _ => false,
    }
}

/// The items of a cell of this shape.
fn items_of(cell: Shape) -> Items
    ensures { result ≡ items_in (dims cell) }
{
    Items {
        number: cell.axis(0),
        atoms: cell.back(1).small_size(),
    }
}

/// A shape with this axis in place of its first.
fn led(axis: u32, shape: Shape) -> Shape
    ensures { dims result ≡ axis ∷ drop 1 (dims shape) }
{
    match Shape::new(&[axis]) {
        Some(first) => first.concatenated(shape.back(1)).unwrap(),
        None => shape,
    }
}

impl<'a> Asked<'a> {
    /// The line, if its operands name earlier lines.
    pub(crate) fn of(context: &'a Context<'a>, fields: &'a Fields, line: u32) -> Option<Asked<'a>>
        ensures { AskedOf context.now fields.now line result }
    {
        if all_earlier(context.types, fields.operands()) {
            Some(Asked {
                context,
                fields,
                line,
            })
        } else {
            None
        }
    }

    /// What is found of an application with these cells of its operands, if it is no fold, or the refusal of question 9, 10, 11 or 13.
    fn applied(&self, wanted: &[ArrayType], cell: ArrayType, items: Items) -> Result<Typed, Refusal>
        ensures { Applied (types_of self.now.context.now.types.now) (types_of wanted.now) (line_with self.now.fields.now []).operands (array_type cell) items self.now.line result }
    {
        Application {
            types: self.context.types,
            wanted,
            operands: self.fields.operands(),
        }
        .applied(cell, items, self.line)
    }

    /// What is found of an append of cells of this type and cells of `more` items, or the refusal of question 9, 10, 11 or 13.
    fn appended(&self, first: ArrayType, more: u32) -> Result<Typed, Refusal>
        ensures { Appended (types_of self.now.context.now.types.now) (array_type first) more (line_with self.now.fields.now []).operands self.now.line result }
    {
        let items = items_of(first.shape);
        let second = ArrayType {
            base: first.base,
            shape: led(more, first.shape),
        };
        let cell = ArrayType {
            base: first.base,
            shape: led(items.number.saturating_add(more), first.shape),
        };
        self.applied(&[first, second], cell, items)
    }

    /// What is found of a fold of cells of this type by an operator with this unit, or the refusal of question 9, 10, 11, 12 or 13.
    fn folded(&self, wanted: ArrayType, unit: Option<u64>) -> Result<Typed, Refusal>
        ensures { Folded (types_of self.now.context.now.types.now) (array_type wanted) unit (line_with self.now.fields.now []).operands self.now.line result }
    {
        let line = self.line;
        let cells = [wanted];
        let application = Application {
            types: self.context.types,
            wanted: &cells,
            operands: self.fields.operands(),
        };
        let frame = application.framed(line)?;
        let items = items_of(wanted.shape);
        match unit {
            None if items.number == 0 => return Err(Refusal::NoUnit { line }),
            _ => {}
        }
        let cell = ArrayType {
            base: wanted.base,
            shape: wanted.shape.back(1),
        };
        application.over(frame, cell, items, line)
    }

    /// What is found of a frame line, or the refusal of question 8, 9, 10 or 13.
    pub(crate) fn framing(&self) -> Result<Typed, Refusal>
        ensures { (m : Meaning) → RuledAs m self.now.context.now a_frame (line_with self.now.fields.now []) self.now.line result }
    {
        let operands = self.fields.operands();
        let shape = self.fields.shape;
        let rank = self.fields.function;
        let array = types::framing(
            self.context.types,
            self.fields.base,
            shape,
            rank,
            operands,
            self.line,
        )?;
        let whole = Lift {
            repeats: 1,
            size: shape.back(rank as usize).small_size(),
        };
        Ok(Typed {
            array,
            cells: operands.len() as u32,
            items: Items::NONE,
            lifts: [whole; 4],
        })
    }

    /// What is found of an operator line, or the refusal of question 7, 9, 10, 11 or 13.
    pub(crate) fn operator<A: Algebra>(&self) -> Result<Typed, Refusal>
        ensures { RuledAs A.meaning self.now.context.now an_operator (line_with self.now.fields.now []) self.now.line result }
    {
        let line = self.line;
        let Some(signature) = described::<A>(self.fields.function) else {
            return Err(Refusal::BadFunction { line });
        };
        if self.fields.operands().len() != signature.operands.count() {
            return Err(Refusal::BadFunction { line });
        }
        let cell = scalar(signature.result);
        match signature.operands {
            Operands::One(a) => self.applied(&[scalar(a)], cell, Items::NONE),
            Operands::Two(a, b) => self.applied(&[scalar(a), scalar(b)], cell, Items::NONE),
            Operands::Three(a, b, c) => self.applied(
                &[scalar(a), scalar(b), scalar(c)],
                cell,
                Items::NONE,
            ),
        }
    }

    /// What is found of a call, or the refusal of question 7, 9, 10, 11 or 13.
    pub(crate) fn call(&self) -> Result<Typed, Refusal>
        ensures { (m : Meaning) → RuledAs m self.now.context.now a_call (line_with self.now.fields.now []) self.now.line result }
    {
        let line = self.line;
        let Some(entry) = usable(self.context.formulas, self.fields.function) else {
            return Err(Refusal::BadFunction { line });
        };
        let wanted = entry.parameters();
        if self.fields.operands().len() != wanted.len() {
            return Err(Refusal::BadFunction { line });
        }
        self.applied(wanted, entry.result, Items::NONE)
    }

    /// What is found of a fold, or the refusal of question 7 to 13.
    pub(crate) fn fold<A: Algebra>(&self) -> Result<Typed, Refusal>
        requires { length (line_with self.now.fields.now []).operands ≡ 1 }
        ensures { RuledAs A.meaning self.now.context.now a_fold (line_with self.now.fields.now []) self.now.line result }
    {
        let line = self.line;
        let shape = self.fields.shape;
        let Some(signature) = described::<A>(self.fields.function) else {
            return Err(Refusal::BadFunction { line });
        };
        if !is_foldable(signature) {
            return Err(Refusal::BadFunction { line });
        }
        if shape.rank() == 0 {
            return Err(Refusal::BadContents { line });
        }
        let wanted = ArrayType {
            base: u32::from(signature.result),
            shape,
        };
        self.folded(wanted, signature.unit)
    }

    /// What is found of an append, or the refusal of question 9, 10, 11 or 13.
    pub(crate) fn append(&self) -> Result<Typed, Refusal>
        requires two { length (line_with self.now.fields.now []).operands ≡ 2 }
        requires axis { has_axis (line_with self.now.fields.now []).shape ≡ true }
        ensures { (m : Meaning) → RuledAs m self.now.context.now an_append (line_with self.now.fields.now []) self.now.line result }
    {
        let types = self.context.types;
        let operands = self.fields.operands();
        let shape = self.fields.shape;
        let left = type_at(types, operands[0]);
        let right = type_at(types, operands[1]);
        let start = right.shape.rank().saturating_sub(shape.rank());
        let more = right.shape.back(start).axis(0);
        let first = ArrayType {
            base: left.base,
            shape,
        };
        self.appended(first, more)
    }

    /// What is found of a reversal, or the refusal of question 9, 10, 11 or 13.
    pub(crate) fn reverse(&self) -> Result<Typed, Refusal>
        requires one { length (line_with self.now.fields.now []).operands ≡ 1 }
        requires axis { has_axis (line_with self.now.fields.now []).shape ≡ true }
        ensures { (m : Meaning) → RuledAs m self.now.context.now a_reverse (line_with self.now.fields.now []) self.now.line result }
    {
        let operands = self.fields.operands();
        let given = type_at(self.context.types, operands[0]);
        let cell = ArrayType {
            base: given.base,
            shape: self.fields.shape,
        };
        self.applied(&[cell], cell, items_of(self.fields.shape))
    }
}
