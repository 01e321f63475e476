// The candidates of a path, formed one at a time. Labels and rounds have no part in them.
#![tactic(auto)]

mod directory;
mod forming;
mod places;
mod samples;
mod walk;

pub use directory::asks_for_directory;
pub use forming::Fault;
pub use samples::worked_examples_hold;
pub use walk::Walk;
