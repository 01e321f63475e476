// The struct stands alone in its file: the definitions in specs/ name it.
use stack::ArrayVec;
use texts::Text;

mod table;

// How many endings there may be, and the longest of them, in bytes.
const MAX_ENDINGS: usize = 4;

const MAX_ENDING_LEN: usize = 16;

/// Allows paths that end in one of up to four endings of at most 16 bytes; without an ending it allows none.
#[derive(Clone, Copy)]
pub struct Endings {
    texts: ArrayVec<Text<MAX_ENDING_LEN>, MAX_ENDINGS>,
}

/// Why an ending is not taken.
#[derive(Clone, Copy, PartialEq, Eq, Debug)]
pub enum EndingRefusal {
    /// It has more than 16 bytes.
    TooLong,
    /// There are four.
    Full,
}
