// Entering a draft.
ghost use Rattle.std.specs.Prelude.{◌≡◌, true};
ghost use Rattle.checker.specs.Sound.{sound};
ghost use Rattle.collection.specs.Promises.{Entered};

use algebra::Algebra;
use checker::{Draft, Tables};
use lines::Refusal;

/// Questions 6 to 14: the draft becomes the formula with the next number, which is answered. Dropping the draft is left to the caller.
pub(crate) fn entered<A: Algebra>(draft: &mut Draft, tables: &mut Tables) -> Result<u32, Refusal>
    requires { sound draft.old tables.old ≡ true }
    ensures { Entered A.meaning draft.old tables.old result draft.new tables.new }
{
    let empty = draft.height == 0;
    let full = tables.count >= 64;
    if empty || full {
        return Err(Refusal::NotEnterable);
    }
    let entry = draft.check::<A>(tables.known())?;
    let number = tables.count;
    tables.keep(entry, draft.lines(), draft.own_codes());
    Ok(number)
}
