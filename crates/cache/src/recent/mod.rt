// The kinds of the last paths asked, the latest first. The structs stand alone in their file: the definitions in specs/ name them.
ghost use Rattle.std.specs.Prelude.{◌≡◌, ℕ, ◌==◌, length, count_by, nat_lt, if◌then◌else◌};
ghost use Rattle.stack.specs.Held.{held};
ghost use Rattle.texts.specs.Held.{bytes_of};
ghost use Rattle.texts.specs.Hashes.{path_hash};

use stack::ArrayVec;
use texts::{MAX_LEN, Text};
use tree::Kind;

mod table;

// How many paths are held at most.
const ROOM: usize = 64;

#[derive(Clone, Copy)]
pub struct Entry {
    path: Text<MAX_LEN>,
    // kept, since most paths are told apart by it
    hash: u8,
    kind: Kind,
    ghost hash_of_the_path: { hash ≡ path_hash (bytes_of path) },
}

// An entry stays in its slot, since it is much larger than the number of the slot, which moves.
#[derive(Drop)]
pub struct Recent {
    entries: ArrayVec<Entry, ROOM>,
    // the slots of the entries, the latest first
    order: ArrayVec<u8, ROOM>,
    ghost each_slot_once: { (i : ℕ) → count_by (λ j. j == i) (held order) ≡ (if nat_lt i (length (held entries)) then 1 else 0) },
    ghost as_many: { length (held order) ≡ length (held entries) },
}
