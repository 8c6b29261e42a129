// The typing rule: what a line and its operands are asked, in order, and what is found of the line.
#![tactic(auto)]

mod applications;
mod asked;
mod contents;
mod found;
mod kinds;
mod lifting;
mod operands;
mod parameters;
mod rules;
mod types;

pub use applications::spread;
pub use contents::{has_codes, parts_of_base, parts_of_shape};
pub use found::{Context, Entry, Items, Lift, Typed};
pub use operands::{Application, all_earlier};
pub use parameters::Parameters;
pub use rules::type_line;
pub use types::{framing, literal, parameter};

#[cfg(test)]
mod tests {
    use super::*;
    use counts::{Counts, Operator};
    use lines::{Fields, Line, Refusal};
    use shapes::{ArrayType, Shape};
    use std::test::Fail;

    // An array type of base type 0 with these axes.
    fn array(axes: &[u32]) -> Result<ArrayType, Fail> {
        let shape = Shape::new(axes).ok_or("rank")?;
        Ok(ArrayType { base: 0, shape })
    }

    // Operands among lines of these types, with the cells that are wanted of them.
    fn application<'a>(
        types: &'a [ArrayType],
        wanted: &'a [ArrayType],
        operands: &'a [u32],
    ) -> Application<'a> {
        Application {
            types,
            wanted,
            operands,
        }
    }

    #[test]
    fn frames_are_compared_in_all_pairs(rt: HostRuntime) -> Result<(), Fail> {
        let types = [array(&[2])?, array(&[])?, array(&[3])?];
        let scalars = [array(&[])?, array(&[])?, array(&[])?];
        assert!(rt; application(&types, &scalars, &[0, 1]).frame().is_some());
        assert!(rt; application(&types, &scalars, &[1, 2]).frame().is_some());
        assert!(rt; application(&types, &scalars, &[0, 1, 2]).frame().is_none());
        Ok(())
    }

    #[test]
    fn leading_axes_are_matched(rt: HostRuntime) -> Result<(), Fail> {
        let types = [array(&[3])?, array(&[3, 2])?, array(&[2, 3])?];
        let scalars = [array(&[])?, array(&[])?];
        assert!(rt; application(&types, &scalars, &[0, 1]).frame() == Some(types[1].shape));
        assert!(rt; application(&types, &scalars, &[0, 2]).frame().is_none());
        assert!(rt; application(&types, &[array(&[3])?], &[2]).cells_fit());
        assert!(rt; !application(&types, &[array(&[2])?], &[2]).cells_fit());
        Ok(())
    }

    #[test]
    fn a_short_frame_is_repeated(rt: HostRuntime) -> Result<(), Fail> {
        let types = [array(&[2])?, array(&[2, 4])?];
        let scalars = [array(&[])?, array(&[])?];
        let found = application(&types, &scalars, &[0, 1])
            .applied(scalars[0], Items::NONE, 5)
            .ok()
            .ok_or("refused")?;
        assert!(rt; found.array == types[1]);
        assert_eq!(rt; found.cells, 8);
        assert_eq!(rt; found.lifts[0].repeats, 4);
        assert_eq!(rt; found.lifts[1].repeats, 1);
        assert_eq!(rt; found.lifts[0].size, 1);
        assert_eq!(rt; found.lifts[1].size, 1);
        Ok(())
    }

    // The number of a refusal, 0 if nothing is refused.
    fn number<T: Drop>(judged: Result<T, Refusal>) -> u8 {
        match judged {
            Ok(_) => 0,
            Err(refusal) => refusal.number(),
        }
    }

    #[test]
    fn an_application_is_refused_by_its_first_no(rt: HostRuntime) -> Result<(), Fail> {
        let flags = ArrayType {
            base: 1,
            shape: array(&[3])?.shape,
        };
        let types = [array(&[2])?, flags, array(&[3])?, array(&[2, 4])?];
        let scalars = [array(&[])?, array(&[])?];
        let cell = scalars[0];
        let none = Items::NONE;
        let wide = array(&[65536])?;
        let longer = [array(&[4])?];
        let of_both = application(&types, &scalars, &[0, 3]);
        assert_eq!(rt;
            number(application(&types, &scalars, &[0, 1]).applied(cell, none, 5)),
            9
        );
        assert_eq!(rt;
            number(application(&types, &scalars, &[0, 2]).applied(cell, none, 5)),
            11
        );
        assert_eq!(rt;
            number(application(&types, &longer, &[2]).applied(cell, none, 5)),
            10
        );
        assert_eq!(rt; number(of_both.applied(wide, none, 5)), 13);
        let found = of_both.applied(cell, none, 5).ok().ok_or("refused")?;
        assert!(rt; found.array == types[3]);
        Ok(())
    }

    // A line with a function and operands.
    fn line<'a>(kind: u32, shape: &'a [u32], function: u32, operands: &'a [u32]) -> Line<'a> {
        Line {
            kind,
            base: 0,
            shape,
            function,
            operands,
            codes: &[],
        }
    }

    // What a line is typed in after lines of these types, without parameters and formulas.
    fn after(types: &[ArrayType]) -> Context<'_> {
        Context {
            parameters: &[],
            types,
            formulas: &[],
        }
    }

    // The number of the first no on a line, 0 if there is none.
    fn first_no(context: &Context, line: &Line) -> u8 {
        let Some(fields) = Fields::of::<Counts>(line) else {
            return Refusal::BadField.number();
        };
        let mut found = Typed::NONE;
        number(type_line::<Counts>(context, &fields, line.codes, 3, &mut found))
    }

    #[test]
    fn a_line_is_refused_by_its_first_no(rt: HostRuntime) -> Result<(), Fail> {
        let flags = ArrayType {
            base: 1,
            shape: array(&[3])?.shape,
        };
        let types = [array(&[3])?, flags, array(&[2])?, array(&[0])?];
        let context = after(&types);
        let add = u32::from(u8::from(Operator::Add));
        let less = u32::from(u8::from(Operator::Less));
        let sub = u32::from(u8::from(Operator::Sub));
        assert_eq!(rt; first_no(&context, &line(3, &[], add, &[0, 0])), 0);
        assert_eq!(rt; first_no(&context, &line(3, &[], add, &[0, 4])), 7);
        assert_eq!(rt; first_no(&context, &line(3, &[], add, &[0])), 7);
        assert_eq!(rt; first_no(&context, &line(5, &[3], less, &[0])), 7);
        assert_eq!(rt; first_no(&context, &line(7, &[], 0, &[0])), 8);
        assert_eq!(rt; first_no(&context, &line(3, &[], add, &[0, 1])), 9);
        assert_eq!(rt; first_no(&context, &line(5, &[2], add, &[0])), 10);
        assert_eq!(rt; first_no(&context, &line(3, &[], add, &[0, 2])), 11);
        assert_eq!(rt; first_no(&context, &line(5, &[0], sub, &[3])), 12);
        assert_eq!(rt; first_no(&context, &line(5, &[0], add, &[3])), 0);
        Ok(())
    }

    #[test]
    fn an_append_adds_first_axes(rt: HostRuntime) -> Result<(), Fail> {
        let types = [array(&[3])?, array(&[2])?, array(&[65536])?];
        let context = after(&types);
        assert_eq!(rt; first_no(&context, &line(6, &[3], 0, &[0, 1])), 0);
        assert_eq!(rt; first_no(&context, &line(6, &[3], 0, &[0])), 7);
        assert_eq!(rt; first_no(&context, &line(6, &[3], 0, &[0, 2])), 13);
        assert_eq!(rt; first_no(&context, &line(7, &[3], 0, &[0])), 0);
        Ok(())
    }

    #[test]
    fn a_frame_line_puts_cells_of_one_type_together(rt: HostRuntime) -> Result<(), Fail> {
        let types = [array(&[3])?, array(&[3])?, array(&[2])?];
        let context = after(&types);
        assert_eq!(rt; first_no(&context, &line(2, &[2, 3], 1, &[0, 1])), 0);
        assert_eq!(rt; first_no(&context, &line(2, &[2, 3], 1, &[0, 3])), 7);
        assert_eq!(rt; first_no(&context, &line(2, &[2, 3], 1, &[0])), 8);
        assert_eq!(rt; first_no(&context, &line(2, &[2, 3], 3, &[0, 1])), 8);
        assert_eq!(rt; first_no(&context, &line(2, &[2, 3], 1, &[0, 2])), 10);
        assert_eq!(rt; first_no(&context, &line(2, &[0, 3], 1, &[])), 0);
        let whole = array(&[2, 3])?.shape;
        let nothing = array(&[0, 3])?.shape;
        assert_eq!(rt; number(framing(&types, 0, whole, 1, &[0, 1], 3)), 0);
        assert_eq!(rt; number(framing(&types, 0, whole, 1, &[0, 3], 3)), 7);
        assert_eq!(rt; number(framing(&types, 0, whole, 1, &[0], 3)), 8);
        assert_eq!(rt; number(framing(&types, 0, whole, 3, &[0, 1], 3)), 8);
        assert_eq!(rt; number(framing(&types, 1, whole, 1, &[0, 1], 3)), 9);
        assert_eq!(rt; number(framing(&types, 0, whole, 1, &[0, 2], 3)), 10);
        assert_eq!(rt; number(framing(&types, 0, nothing, 1, &[], 3)), 0);
        Ok(())
    }

    #[test]
    fn a_parameter_line_names_a_parameter(rt: HostRuntime) -> Result<(), Fail> {
        let parameters = [array(&[3])?, array(&[256, 257])?];
        assert_eq!(rt; number(parameter(&parameters, 0, 0)), 0);
        assert_eq!(rt; number(parameter(&parameters, 1, 0)), 13);
        assert_eq!(rt; number(parameter(&parameters, 2, 0)), 7);
        Ok(())
    }
}
