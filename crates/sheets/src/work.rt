// What is at hand while a sheet is answered. The structs stand alone in their file: the definitions in specs/ name them.
use lookup::{MIN_AREA, MIN_ROWS, OpenCall};
use resolver::{Call, Reply};
use stack::ArrayVec;

// What a call is lent: as much as it asks for.
pub(crate) const AREA: usize = MIN_AREA;

pub(crate) const ROWS: usize = MIN_ROWS;

// How many calls are served at a time.
pub(crate) const BATCH: usize = 64;

/// What is lent to calls: work memory, and a reply for each that is served at a time.
#[derive(Drop)]
pub(crate) struct Lent {
    pub(crate) area: [u8; AREA],
    pub(crate) rows: [OpenCall; ROWS],
    pub(crate) replies: [Reply; BATCH],
}

/// The rows that were written, the calls that wait to be served together, and what is lent to them.
#[derive(Drop)]
pub(crate) struct Work {
    pub(crate) rows: Vec<u8>,
    pub(crate) waiting: ArrayVec<Call, BATCH>,
    pub(crate) lent: Lent,
}
