// The struct stands alone in its file: the definitions in specs/ name it, and what its ghost fields import must not lead back to them.
ghost use Rattle.std.specs.Prelude.{◌≡◌, true, map};
ghost use Rattle.stack.specs.Held.{held};
ghost use Rattle.listing.specs.Rows.{all_fit, row};

use crate::line::Line;
use stack::ArrayVec;

mod entries;
pub mod host;
mod questions;

// How many lines there is room for.
const LINES: usize = 256;

/// A host as up to 256 lines, in the order in which they were added.
#[derive(Drop)]
pub struct Listing {
    lines: ArrayVec<Line, LINES>,
    ghost fit: { all_fit (map row (held lines)) ≡ true },
}
