// The collection of formulas and its public calls.
#![tactic(auto)]

mod calls;
mod entries;
mod holdings;
mod slips;

pub use holdings::Collection;
pub use slips::Slip;
