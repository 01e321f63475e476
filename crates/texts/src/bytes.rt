// A text by its bytes.
ghost use Rattle.std.specs.Prelude.{◌≡◌, ◌≤◌, length, Some};
ghost use Rattle.std.specs.Str.{bytes_eq};
ghost use Rattle.texts.specs.Texts.{appended, ascii, ends, is_text, printable, until, length_in, buffer_with, unslashed};

/// The longest text, in bytes.
pub const MAX_LEN: usize = 255;

// The largest byte of a text.
const MAX_BYTE: u8 = 127;

// The least and the largest byte that an office may write.
const MIN_PRINTABLE: u8 = 32;

const MAX_PRINTABLE: u8 = 126;

// Here and in the next by `position`: the search for a byte that fails looks at many bytes at once, which `all` does not.
/// Whether every byte is at most 127.
pub fn is_ascii(text: &[u8]) -> bool
    ensures every_byte_is_at_most_127 { result ≡ ascii text.now }
{
    text.iter().position(|b| *b > MAX_BYTE).is_none()
}

/// Whether every byte is one that an office may write, 32 to 126.
pub fn is_printable(text: &[u8]) -> bool
    ensures every_byte_is_32_to_126 { result ≡ printable text.now }
{
    text.iter()
        .position(|b| *b < MIN_PRINTABLE || *b > MAX_PRINTABLE)
        .is_none()
}

/// Whether the bytes are a text: at most 255, each at most 127.
pub fn is_text(text: &[u8]) -> bool
    ensures short_and_ascii { result ≡ is_text text.now }
{
    text.len() <= MAX_LEN && is_ascii(text)
}

// A name for `==`, where paths are compared part by part: its clause and its edit say what "the same" is.
/// Whether two texts have the same bytes.
pub fn same_bytes(a: &[u8], b: &[u8]) -> bool
    ensures byte_for_byte { result ≡ bytes_eq a.now b.now }
{
    a == b
}

/// How many bytes stand before the first `byte`; all of them if there is none.
pub fn position(text: &[u8], byte: u8) -> usize
    ensures stands_before_the_first { result ≡ until byte text.now }
    ensures within_the_text { result ≤ length text.now }
{
    text.iter().position(|b| *b == byte).unwrap_or(text.len())
}

/// Whether the last byte of a text is `byte`; an empty text has none.
pub fn ends_in(text: &[u8], byte: u8) -> bool
    ensures byte_at_the_end { result ≡ ends byte text.now }
{
    match text {
        [.., last] => *last == byte,
        [] => false,
    }
}

// Callers lend the memory, by a rule of the project, so a buffer and a length stand side by side in the next two; `Text` is for what is held by value.
/// Copies `text` to the front of `out` and says how long it is; a text that does not fit is refused, and `out` stays as it was.
pub fn copy_text(text: &[u8], out: &mut [u8]) -> Option<usize>
    ensures length_if_it_fits { result ≡ length_in (Some text.now) (length out.old) }
    ensures bytes_beyond_stay { out.new ≡ buffer_with (Some text.now) out.old }
{
    let len = text.len();
    if len > out.len() {
        return None;
    }
    out[0..len].copy_from_slice(text);
    Some(len)
}

/// Writes `more` behind the first `len` bytes of `out`, and says how many they are then; where there is no room, `out` stays as it was.
pub fn append_text(out: &mut [u8], len: usize, more: &[u8]) -> Option<usize>
    ensures length_if_it_fits { result ≡ length_in (appended len out.old more.now) (length out.old) }
    ensures bytes_beyond_stay { out.new ≡ buffer_with (appended len out.old more.now) out.old }
{
    if len > out.len() {
        return None;
    }
    if out.len() - len < more.len() {
        return None;
    }
    let end = len + more.len();
    out[len..end].copy_from_slice(more);
    Some(end)
}

/// `text` without the slashes at its end.
pub fn trim_final_slashes(text: &[u8]) -> &[u8]
    ensures no_final_slash { result.now ≡ unslashed text.now }
{
    let mut kept = text;
    while let [front @ .., b'/'] = kept {
        kept = front;
    }
    kept
}
