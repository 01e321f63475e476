// What the lookup asks: a file tree, a host, a policy; and the test that a path is acceptable.
#![tactic(auto)]

mod acceptance;
mod answers;
mod endings;
mod part_count;
mod policy;
mod traits;

pub use acceptance::is_acceptable;
pub use answers::{Broken, Kind, MAX_MAIN, Manifest, Way};
pub use endings::{EndingRefusal, Endings};
pub use part_count::PartCount;
pub use policy::Policy;
pub use traits::{FileTree, Host};
