// Which label touches a request, and what its values make of it.
#![tactic(auto)]

mod attempts;
mod label;
mod rewrite;
mod samples;

pub use attempts::{Attempt, Progress};
pub use label::{AliasMatchKind, key, key_matches};
pub use rewrite::{NewRequest, TooLong, load_alias_value};
pub use samples::worked_examples_hold;
