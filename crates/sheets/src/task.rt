// What the lines of a sheet leave to do.
use crate::refusal::Refusal;
use texts::Place;

/// What a line of a sheet leaves to do; texts are told by their places in the sheet.
#[derive(Clone, Copy, PartialEq, Eq, Debug)]
pub enum Task {
    /// To tell why the line is refused.
    Refused(Refusal),
    /// To resolve a request from a directory.
    Resolve { directory: Place, request: Place },
    /// To let go of what is only kept to answer faster.
    Forget,
}
