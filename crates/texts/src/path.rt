// Paths: clean ones, and what their parts say.
ghost use Rattle.std.specs.Prelude.{◌≡◌, ◌+◌, ◌<◌, ◌≤◌, true, false, ◌==◌, ◌++◌, length, is_ok, if◌then◌else◌, nat_le};
ghost use Rattle.stack.specs.Items.{items, capacity};
ghost use Rattle.texts.specs.Hashes.{hashed, path_hash};
ghost use Rattle.texts.specs.Parts.{clean, clean_pieces, every, named, parts, pieces, places, same_parts, written};

use crate::bytes::same_bytes;
use crate::components::Components;
use crate::piece::{is_name, piece_len};
use crate::place::Place;
use stack::{Full, Stack};

// Whether every piece of `text` is a name.
fn names_only(text: &[u8]) -> bool
    ensures every_piece_is_a_name { result ≡ every named (pieces text.now) }
{
    text.split(|b| *b == b'/').all(is_name)
}

// Whether a slash leads and every piece behind it is a name.
fn is_rooted(text: &[u8]) -> bool
    ensures names_behind_a_leading_slash { result ≡ clean_pieces (pieces text.now) }
{
    match text {
        [b'/', rest @ ..] => names_only(rest),
        _ => false,
    }
}

/// Whether a path is clean: it begins with a slash, has no empty, `.` or `..` piece, and ends in a slash only if it is `/`.
pub fn is_clean(text: &[u8]) -> bool
    ensures clean_by_its_pieces { result ≡ clean text.now }
    ensures parts_give_the_path_back { result ≡ true → written (parts text.now) ≡ text.now }
{
    same_bytes(text, b"/") || is_rooted(text)
}

// By hand: a `zip` would not see which of the two has parts left, and of `Iterator::eq` over two maps the proof did not close.
/// Whether two texts are the same path: their parts are the same.
#[inline(never)]
pub fn same_path(a: &[u8], b: &[u8]) -> bool
    ensures part_for_part { result ≡ same_parts (parts a.now) (parts b.now) }
{
    let mut right = Components::new(b);
    for part in Components::new(a) {
        let Some(other) = right.next() else {
            return false;
        };
        if !same_bytes(part.of(a), other.of(b)) {
            return false;
        }
    }
    right.next().is_none()
}

// A number below 128 from the bytes of a text.
fn hash(text: &[u8]) -> u8
    ensures from_all_bytes { result ≡ hashed 0 text.now }
    ensures below_128 { result < 128 }
{
    let mut hash = 0;
    let mut left = text;
    while let [byte, behind @ ..] = left {
        hash = (31 * hash + *byte as usize) % 128;
        left = behind;
    }
    hash as u8
}

/// The hash of a clean path; any other has 0.
pub fn path_hash(path: &[u8]) -> u8
    ensures hash_of_a_clean_path { result ≡ path_hash path.now }
{
    if !is_clean(path) {
        return 0;
    }
    128 + hash(path)
}

/// Whether two texts are the same path, by their hashes; 0 stands for one that was not made. Clean paths are the same if their bytes are.
#[inline]
#[tactic(auto, using(crate::proofs::SamePaths::hashed_same, crate::proofs::SamePaths::hashed_apart))]
pub fn same_hashed_path(a: &[u8], a_hash: u8, b: &[u8], b_hash: u8) -> bool
    requires hash_of_the_first_if_it_has_one { (a_hash == 0) ≡ false → a_hash ≡ path_hash a.now }
    requires hash_of_the_second_if_it_has_one { (b_hash == 0) ≡ false → b_hash ≡ path_hash b.now }
    ensures part_for_part { result ≡ same_parts (parts a.now) (parts b.now) }
{
    if a_hash == 0 || b_hash == 0 {
        return same_path(a, b);
    }
    a_hash == b_hash && same_bytes(a, b)
}

/// How many parts a text has.
pub fn count_parts(text: &[u8]) -> usize
    ensures as_many_as_parts { result ≡ length (parts text.now) }
{
    Components::new(text).count()
}

/// Pushes the places of the parts of `text`; where there is no room for all of them the stack keeps the items that it had.
pub fn push_parts(text: &[u8], found: &mut Stack<Place>) -> Result<(), Full>
    ensures room_for_all { is_ok result ≡ nat_le (length (items found.old) + length (parts text.now)) (capacity found.old) }
    ensures places_on_top { items found.new ≡ (if is_ok result then items found.old ++ places text.now else items found.old) }
    ensures same_capacity { capacity found.new ≡ capacity found.old }
{
    let had = found.len();
    for place in Components::new(text) {
        if found.push(place).is_err() {
            found.truncate(had);
            return Err(Full);
        }
    }
    Ok(())
}
