// Drafts and formulas in tables of fixed size: the draft, the entered formulas, the check of a draft and its forecasts.
#![tactic(auto)]

mod checks;
mod drafts;
mod forecasts;
mod rows;
mod tables;

pub use drafts::Draft;
pub use forecasts::{Forecast, Share, known};
pub use rows::{Given, Row, part};
pub use tables::{Extent, Tables};
