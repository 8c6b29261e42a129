// Lines of a draft as they are handed over, what is kept of them once their fields are in order, and the reasons for which a call refuses.
#![tactic(auto)]

mod fields;
mod given;
mod refusals;

pub use fields::Fields;
pub use given::{Kind, Line, ParameterType, UnknownKind};
pub use refusals::Refusal;
