// Sessions: the calls that commands name, made on a collection of formulas on counts, and their answers in words.
#![tactic(auto)]

mod answers;
mod session;
mod troubles;

pub use answers::{Answer, Call, Told};
pub use session::Session;
pub use troubles::Trouble;
