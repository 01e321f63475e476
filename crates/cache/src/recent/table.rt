// What is done with the entries and the order of their slots.
ghost use Rattle.std.specs.Prelude.{◌≡◌, ◌<◌, ◌≤◌, false, [], None, length, ◌==◌};
ghost use Rattle.stack.specs.Held as list;
ghost use Rattle.texts.specs.Hashes.{path_hash};
ghost use Rattle.texts.specs.Parts.{parts};
ghost use Rattle.cache.specs.Seen.{Placed, fresh, holds, recalled, remember, renewed};
ghost use Rattle.cache.specs.Held.{held, in_slot, seen};

use super::{Entry, ROOM, Recent};
use stack::ArrayVec;
use texts::{Text, path_hash, same_hashed_path};
use tree::Kind;

// A hash of what is asked pays where a path is held for every so many of its bytes: it is made from each of them, and a comparison without it stops early.
const BYTES_A_PATH: usize = 8;

impl Entry {
    fn new(path: &[u8], hash: u8, kind: Kind) -> Entry
        requires short_path { length path.now ≤ 255 }
        requires hash_of_the_path { hash ≡ path_hash path.now }
        ensures path_with_its_kind { seen result ≡ fresh (parts path.now) kind }
    {
        let path = Text::new(path).unwrap();
        Entry { path, hash, kind }
    }
}

impl Recent {
    // Nothing held.
    pub fn new() -> Recent
        ensures nothing_held { held result ≡ [] }
    {
        let blank = Entry::new(b"", path_hash(b""), Kind::Nothing);
        let entries = ArrayVec::new(blank);
        let order = ArrayVec::new(0);
        Recent { entries, order }
    }

    // Lets go of all that is held.
    pub fn clear(&mut self)
        ensures nothing_held { held self.new ≡ [] }
    {
        self.entries.truncate(0);
        self.order.truncate(0);
    }

    // The entry in a slot that is in use.
    fn entry(&self, slot: u8) -> &Entry
        requires in_use { slot < length (list.held self.now.entries) }
        ensures entry_of_the_slot { seen result.now ≡ in_slot (list.held self.now.entries) slot }
    {
        &self.entries.as_slice()[slot as usize]
    }

    // Where in the order the path is held.
    fn place(&self, path: &[u8], hash: u8) -> Option<usize>
        requires hash_of_the_path_if_there_is_one { (hash == 0) ≡ false → hash ≡ path_hash path.now }
        ensures place_if_held { Placed (parts path.now) (held self.now) result }
    {
        self.order.as_slice().iter().position(|slot| {
            let entry = self.entry(*slot);
            same_hashed_path(entry.path.as_bytes(), entry.hash, path, hash)
        })
    }

    // Whether the path is held.
    pub fn holds(&self, path: &[u8]) -> bool
        ensures by_its_parts { result ≡ holds (parts path.now) (held self.now) }
    {
        let held = self.order.as_slice().len();
        let few = held.saturating_mul(BYTES_A_PATH) <= path.len();
        let hash = if few { 0 } else { path_hash(path) };
        self.place(path, hash).is_some()
    }

    // The kind of a path that is held, which becomes the latest.
    pub fn recall(&mut self, path: &[u8], hash: u8) -> Option<Kind>
        requires hash_of_the_path { hash ≡ path_hash path.now }
        ensures kind_if_held { result ≡ recalled (parts path.now) (held self.old) }
        ensures becomes_the_latest { held self.new ≡ renewed (parts path.now) (held self.old) }
    {
        let i = self.place(path, hash)?;
        let slot = self.order.move_to_front(i).unwrap();
        let entry = self.entry(slot);
        Some(entry.kind)
    }

    // Never inline: else a question whose path is held would pay for an entry that it does not make.
    // A path that is not held becomes the latest; the one asked longest ago gives way.
    #[inline(never)]
    pub fn remember(&mut self, path: &[u8], hash: u8, kind: Kind)
        requires short_path { length path.now ≤ 255 }
        requires hash_of_the_path { hash ≡ path_hash path.now }
        requires not_held_yet { recalled (parts path.now) (held self.old) ≡ None }
        ensures becomes_the_latest { held self.new ≡ remember (parts path.now) kind (held self.old) }
    {
        let entry = Entry::new(path, hash, kind);
        let count = self.order.as_slice().len();
        // A slot of its own while there is room, and then the slot of the path asked longest ago.
        if count < ROOM {
            self.entries.push(entry).unwrap();
            self.order.push_front(count as u8).unwrap();
        } else {
            let oldest = self.order.move_to_front(ROOM - 1).unwrap();
            self.entries.set(oldest as usize, entry);
        }
    }
}
