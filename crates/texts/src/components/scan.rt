// How a scan of a text finds its parts.
ghost use Rattle.std.specs.Prelude.{◌≡◌, ◌<◌, ◌≤◌, true, [], ◌∷◌, length, MatchOption};
ghost use Rattle.texts.specs.Parts.{marks, parts, root, texts_of};
ghost use Rattle.texts.specs.Scans.{marks_left, Next, rest_text};
ghost use Rattle.std.specs.Iterator.{item_count};
ghost use Rattle.texts.specs.Walks.{PartGiven, begun, left, subject, places_left};

use crate::bytes::position;
use crate::components::Components;
use crate::piece::{is_solid, piece_len};
use crate::place::Place;

// The first part: the leading slash or the first piece; an empty text has none.
fn first_part(text: &[u8]) -> Option<Place>
    ensures first_part_or_none_left { MatchOption result (marks_left text.now 0 ≡ []) (Next text.now 0) }
{
    match text {
        [] => None,
        [b'/', ..] => Some(Place { start: 0, len: 1 }),
        _ => Some(Place {
            start: 0,
            len: position(text, b'/'),
        }),
    }
}

// The next part behind `at`, where an earlier one ended. Its place is wanted, and `split` would give the pieces without their places.
fn later_part(text: &[u8], at: usize) -> Option<Place>
    requires behind_the_first_byte { (0 < at) × (at ≤ length text.now) }
    ensures next_part_or_none_left { MatchOption result (marks_left text.now at ≡ []) (Next text.now at) }
{
    let mut start = at;
    loop {
        let len = piece_len(text, start);
        let place = Place { start, len };
        if is_solid(place.of(text)) {
            return Some(place);
        }
        let end = start + len;
        if end == text.len() {
            return None;
        }
        start = end + 1;
    }
}

// The next part from `at` on.
fn next_part(text: &[u8], at: usize) -> Option<Place>
    requires within_the_text { at ≤ length text.now }
    ensures next_part_or_none_left { MatchOption result (marks_left text.now at ≡ []) (Next text.now at) }
{
    if at == 0 {
        first_part(text)
    } else {
        later_part(text, at)
    }
}

impl<'a> Components<'a> {
    /// The parts of `text`, from the first.
    pub fn new(text: &'a [u8]) -> Components<'a>
        ensures all_parts_are_left { left result ≡ marks text.now }
        ensures of_the_text { subject result ≡ text.now }
    {
        Components { text, at: 0 }
    }

    /// What stands behind the last part that was given, as a path of its own: what is left, below the root.
    pub fn rest(&self) -> &'a [u8]
        ensures text_behind_the_part { result.now ≡ rest_text (subject self.now) self.now.at }
        ensures parts_left_below_the_root { begun self.now ≡ true → parts result.now ≡ root ∷ texts_of (left self.now) }
    {
        let text = self.text;
        let at = self.at;
        if at >= text.len() {
            b"/"
        } else if text[at] == b'/' {
            &text[at..]
        } else {
            text
        }
    }
}

impl Iterator for Components<'_> {
    type Item = Place;

    ghost next_gives = { PartGiven };

    ghost remaining = { item_count places_left };

    /// The place of the next part; none behind the last.
    fn next(&mut self) -> Option<Place> {
        let place = next_part(self.text, self.at)?;
        self.at = place.start + place.len;
        Some(place)
    }
}
