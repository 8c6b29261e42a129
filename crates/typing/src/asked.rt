// A line that may be asked by its kind.
ghost use Rattle.std.specs.Prelude.{◌≡◌, true, []};
ghost use Rattle.remora.specs.Questions.{earlier};
ghost use Rattle.lines.specs.Lines.{line_with};
ghost use Rattle.typing.specs.Typings.{types_of};

use super::found::Context;
use lines::Fields;

/// A line whose operands name earlier lines, beside what it is typed in and its number.
#[derive(Clone, Copy)]
pub(crate) struct Asked<'a> {
    pub(crate) context: &'a Context<'a>,
    pub(crate) fields: &'a Fields,
    pub(crate) line: u32,
    ghost earlier: { earlier (types_of context.now.types.now) (line_with fields.now []).operands ≡ true },
}
