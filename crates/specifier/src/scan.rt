// Where the fragment of a request starts.
ghost use Rattle.std.specs.Prelude.{◌≡◌};
ghost use Rattle.specifier.specs.Requests.{until_hash};

const FRAGMENT_MARK: u8 = b'#';

/// Directly behind this byte a fragment's mark is part of the text.
const ESCAPE: u8 = 0;

/// How many bytes stand before the first `#` that is not directly after a NUL; `before` is the byte in front of `text`.
pub(crate) fn until_hash(before: u8, text: &[u8]) -> usize
    ensures counts_to_the_hash { result ≡ until_hash before text.now }
{
    let mut prev = before;
    for (i, b) in text.iter().enumerate() {
        if *b == FRAGMENT_MARK && prev != ESCAPE {
            return i;
        }
        prev = *b;
    }
    text.len()
}
