// One line of a listing. The struct stands alone in its file: the definitions in specs/ name it.
ghost use Rattle.std.specs.Prelude.{◌≡◌};
ghost use Rattle.texts.specs.Held.{bytes_of};
ghost use Rattle.texts.specs.Hashes.{path_hash};

use crate::kinds::LineKind;
use texts::{MAX_LEN, Text};

mod fitting;

/// A kind and two texts: a path or a main text and nothing, or a request and a path.
#[derive(Clone, Copy)]
pub struct Line {
    pub(crate) kind: LineKind,
    pub(crate) first: Text<MAX_LEN>,
    // kept, since most paths are told apart by it
    hash: u8,
    pub(crate) second: Text<MAX_LEN>,
    ghost hash_of_the_first: { hash ≡ path_hash (bytes_of first) },
}
