// Making such a text, adding to it, and reading it.
ghost use Rattle.std.specs.Prelude.{◌≡◌, ◌+◌, ◌<◌, ◌≤◌, [], ◌++◌, length, take, is_ok, if◌then◌else◌, nat_le, MatchOption};
ghost use Rattle.texts.specs.Held.{bytes_of};

use crate::text::Text;
use stack::{ArrayVec, Full};

impl<const N: usize> Text<N> {
    /// The text without a byte.
    pub fn empty() -> Text<N>
        ensures no_bytes { bytes_of result ≡ [] }
    {
        Text {
            bytes: ArrayVec::new(0),
        }
    }

    /// The text with these bytes; none if they are more than `N`.
    pub fn new(bytes: &[u8]) -> Option<Text<N>>
        ensures same_bytes_or_too_many { MatchOption result (N < length bytes.now) (λ t. bytes_of t ≡ bytes.now) }
    {
        let mut text = Text::empty();
        text.push_text(bytes).ok()?;
        Some(text)
    }

    /// Adds bytes behind the others; where there is no room for all of them the text stays as it was.
    pub fn push_text(&mut self, more: &[u8]) -> Result<(), Full>
        ensures refused_only_without_room { is_ok result ≡ nat_le (length (bytes_of self.old) + length more.now) N }
        ensures bytes_after { bytes_of self.new ≡ (if is_ok result then bytes_of self.old ++ more.now else bytes_of self.old) }
    {
        self.bytes.extend_from_slice(more)
    }

    /// Takes bytes off the end until there are `len`; a text that has no more stays as it was.
    pub fn truncate(&mut self, len: usize)
        ensures bytes_after { bytes_of self.new ≡ take len (bytes_of self.old) }
    {
        self.bytes.truncate(len);
    }

    /// The bytes of the text.
    pub fn as_bytes(&self) -> &[u8]
        ensures bytes_of_the_text { result.now ≡ bytes_of self.now }
        ensures at_most_n { length result.now ≤ N }
    {
        self.bytes.as_slice()
    }
}
