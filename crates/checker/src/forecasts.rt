// Forecasts of a formula, added up line by line.
ghost use Rattle.std.specs.Prelude.{◌≡◌, ◌^◌, ◌<◌};
ghost use Rattle.typing.specs.Plans.{entry_of, known_in};
ghost use Rattle.checker.specs.Forecasting.{share_of, no_forecast, added, room_in};

use super::rows::Row;
use lines::Kind;
use typing::Entry;

/// What one line adds to the forecasts: its steps, its atoms, the room of the formula that it calls behind them, and that formula's depth.
#[derive(Clone, Copy)]
pub struct Share {
    pub steps: u64,
    pub atoms: u32,
    pub behind: u32,
    pub depth: u32,
}

/// What lines come to: their steps, the place behind their atoms, the room that they take up to any of them, and the greatest depth that they call.
#[derive(Clone, Copy)]
pub struct Forecast {
    pub steps: u128,
    pub place: u64,
    pub most: u64,
    pub depth: u32,
}

/// What is known of formula `number`, nothing if it was not given.
// As in the theory no Option: each line asks, and only a call, of which the number was given, uses the answer.
pub fn known(formulas: &[Entry], number: u32) -> Entry
    ensures { entry_of result ≡ known_in formulas.now number }
{
    formulas
        .get(number as usize)
        .copied()
        .unwrap_or(Entry::NONE)
}

impl Share {
    /// What a line adds, by what is known of the formula that it calls, if it calls one.
    pub fn of(row: &Row, callee: Entry) -> Share
        ensures exact { result ≡ share_of callee row.now }
        ensures bound { result.steps < 2 ^ 64 }
    {
        let atoms = row.found.array.shape.small_size();
        let cells = row.found.cells;
        match row.given.fields.kind {
            Kind::Parameter => Share {
                steps: 1,
                atoms: 0,
                behind: 0,
                depth: 0,
            },
            Kind::Call => Share {
                steps: 1 + u64::from(cells) * (1 + u64::from(callee.steps)),
                atoms,
                behind: if cells > 0 { callee.room } else { 0 },
                depth: callee.depth,
            },
            _ => Share {
                steps: 1,
                atoms,
                behind: 0,
                depth: 0,
            },
        }
    }
}

impl Forecast {
    /// The forecast of no lines.
    pub fn none() -> Forecast
        ensures { result ≡ no_forecast }
    {
        Forecast {
            steps: 0,
            place: 0,
            most: 0,
            depth: 0,
        }
    }

    /// Adds what one more line adds.
    pub fn add(&mut self, share: Share)
        requires { (self.old.steps < 2 ^ 120) × (self.old.place < 2 ^ 60) }
        ensures { self.new ≡ added self.old share }
    {
        let end = self.place + u64::from(share.atoms);
        self.steps += u128::from(share.steps);
        self.place = end;
        self.most = self.most.max(end + u64::from(share.behind));
        self.depth = self.depth.max(share.depth);
    }

    /// The room of the lines.
    pub fn room(&self) -> u64
        ensures { result ≡ room_in self.now }
    {
        self.most.max(self.place)
    }
}
