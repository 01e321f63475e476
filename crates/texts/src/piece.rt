// The pieces of a text between its slashes.
ghost use Rattle.std.specs.Prelude.{◌≡◌, ◌+◌, ◌≤◌, length, drop};
ghost use Rattle.texts.specs.Texts.{until};
ghost use Rattle.texts.specs.Parts.{named, solid};

use crate::bytes::{position, same_bytes};

// How long the piece is that begins at `start`.
pub(crate) fn piece_len(text: &[u8], start: usize) -> usize
    requires within_the_text { start ≤ length text.now }
    ensures up_to_the_slash { result ≡ until 47 (drop start text.now) }
    ensures ends_within_the_text { start + result ≤ length text.now }
{
    position(&text[start..], b'/')
}

// Whether a piece behind a slash is a part.
pub(crate) fn is_solid(piece: &[u8]) -> bool
    ensures neither_empty_nor_a_dot { result ≡ solid piece.now }
{
    match piece {
        [] => false,
        [b] => *b != b'.',
        _ => true,
    }
}

// Whether a piece is a name that a clean path may have.
pub(crate) fn is_name(piece: &[u8]) -> bool
    ensures neither_empty_nor_one_or_two_dots { result ≡ named piece.now }
{
    is_solid(piece) && !same_bytes(piece, b"..")
}
