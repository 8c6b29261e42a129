// The check of a draft: its lines typed one after another, what is found written to them, and the forecasts held against the limits.
ghost use Rattle.std.specs.Prelude.{◌≡◌, ◌^◌, ◌<◌, ◌≤◌, length};
ghost use Rattle.remora.specs.Forecasts.{limited};
ghost use Rattle.typing.specs.Typings.{types_of};
ghost use Rattle.checker.specs.Checking.{RowTyped, CheckedAs, DraftChecked, LimitedBy};

use super::drafts::Draft;
use super::forecasts::{Forecast, Share, known};
use super::rows::{Row, part};
use algebra::Algebra;
use lines::Refusal;
use remora::{STEPS, within_limits};
use shapes::ArrayType;
use typing::{Context, Entry, Parameters, type_line};

/// Types a line in its context, and puts it at this place.
fn type_row<A: Algebra>(
    row: &mut Row,
    context: &Context,
    codes: &[u64],
    line: u32,
    place: u32,
) -> Result<(), Refusal>
    ensures { RowTyped A.meaning context.now.formulas.now (types_of context.now.parameters.now) (types_of context.now.types.now) codes.now line place row.old result row.new }
{
    let given = row.given;
    let own = part(codes, given.start, given.length);
    let mut found = row.found;
    type_line::<A>(context, &given.fields, own, line, &mut found)?;
    row.found = found;
    row.offset = place;
    Ok(())
}

/// Types the lines of a draft in their order, and adds up their forecasts.
fn type_rows<'a, A: Algebra>(
    rows: &mut [Row],
    codes: &[u64],
    parameters: &'a [ArrayType],
    formulas: &'a [Entry],
) -> Result<Forecast, Refusal>
    requires { length rows.old ≤ 64 }
    ensures { CheckedAs A.meaning formulas.now (types_of parameters.now) codes.now rows.old result rows.new }
{
    // The types stand beside the lines too, since a context lends them as one slice, without a heap.
    let mut types = [ArrayType::NOTHING; 64];
    let mut forecast = Forecast::none();
    for (k, row) in rows.iter_mut().enumerate() {
        let context = Context {
            parameters,
            types: &types[..k],
            formulas,
        };
        type_row::<A>(row, &context, codes, k as u32, forecast.place as u32)?;
        let callee = known(formulas, row.given.fields.function);
        forecast.add(Share::of(row, callee));
        types[k] = row.found.array;
    }
    Ok(forecast)
}

/// Whether forecasts, of which the steps may be more than a `u64` holds, are within the limits.
fn are_within_limits(steps: u128, room: u64, depth: u64) -> bool
    ensures { result ≡ limited steps room depth }
{
    steps <= u128::from(STEPS) && within_limits(steps as u64, room, depth)
}

/// What is known of a formula with these parameters and this result, if its forecasts, by those of its lines, are within the limits.
fn entry_within(
    parameters: Parameters,
    res: ArrayType,
    forecast: Forecast,
) -> Result<Entry, Refusal>
    requires { forecast.steps < 2 ^ 120 }
    ensures { LimitedBy parameters res forecast result }
{
    let steps = 1 + forecast.steps;
    let room = forecast.room();
    let depth = 1 + u64::from(forecast.depth);
    if !are_within_limits(steps, room, depth) {
        return Err(Refusal::BeyondLimits);
    }
    Ok(Entry {
        parameters,
        result: res,
        steps: steps as u32,
        room: room as u32,
        depth: depth as u32,
        withdrawn: false,
    })
}

impl Draft {
    /// Questions 7 to 14: what is known of the formula that the draft is to become; what typing finds is written to its lines.
    pub fn check<A: Algebra>(&mut self, formulas: &[Entry]) -> Result<Entry, Refusal>
        requires { (0 < self.old.height) × (self.old.height ≤ 64) }
        ensures { DraftChecked A.meaning formulas.now self.old result self.new }
    {
        let height = self.height as usize;
        let parameters = self.parameters;
        let forecast = type_rows::<A>(
            &mut self.rows[0..height],
            &self.codes,
            parameters.as_slice(),
            formulas,
        )?;
        let result = self.rows[height - 1].found.array;
        entry_within(parameters, result, forecast)
    }
}
