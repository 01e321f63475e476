// Taking the escapes out of a path.
ghost use Rattle.std.specs.Prelude.{◌≡◌, length, Some};
ghost use Rattle.std.specs.Iterator.{YieldsFirst, item_count};
ghost use Rattle.specifier.specs.Requests.{escapes, unescaped};
ghost use Rattle.texts.specs.Texts.{length_in, buffer_with};

/// Whether `text` begins with an escape.
fn at_escape(text: &[u8]) -> bool
    ensures begins_with_an_escape { result ≡ escapes text.now }
{
    matches!(text, [0, b'#', ..])
}

/// The bytes of a text without its escapes, one after another.
#[derive(Drop)]
struct Unescaped<'a>(&'a [u8]);

impl<'a> Iterator for Unescaped<'a> {
    type Item = u8;

    ghost next_gives = { YieldsFirst (λ s. unescaped s.0.now) };

    ghost remaining = { item_count (λ s. unescaped s.0.now) };

    fn next(&mut self) -> Option<u8> {
        if at_escape(self.0) {
            self.0 = &self.0[1..];
        }
        let (first, rest) = self.0.split_first()?;
        self.0 = rest;
        Some(*first)
    }
}

// Two passes, since `out` has to stay as it was where the text does not fit. By index: of what is written through an adapter of `iter_mut` a proof knows nothing.
// The caller lends the buffer, by a rule of the project.
/// Copies `text` without its escapes to the front of `out`, and says how long that is; none, and `out` as it was, if it does not fit.
pub(crate) fn write_unescaped(text: &[u8], out: &mut [u8]) -> Option<usize>
    ensures length_if_it_fits { result ≡ length_in (Some (unescaped text.now)) (length out.old) }
    ensures bytes_if_it_fits { out.new ≡ buffer_with (Some (unescaped text.now)) out.old }
{
    let len = Unescaped(text).count();
    if len > out.len() {
        return None;
    }
    for (i, b) in Unescaped(text).enumerate() {
        out[i] = b;
    }
    Some(len)
}
