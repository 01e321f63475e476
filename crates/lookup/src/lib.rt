// What a lookup answers, by definition, with worked lookups and laws.
#![tactic(auto)]

mod calls;
mod laws;
mod resolution;
mod samples;

pub use calls::OpenCall;
pub use calls::answer::{MIN_AREA, MIN_ROWS, answer_call};
pub use laws::most_rounds;
pub use resolution::{Found, Refused, Resolution, ResolveError};
pub use samples::worked_lookups_hold;
