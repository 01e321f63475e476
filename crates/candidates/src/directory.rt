// Requests that ask for what is in a directory.
ghost use Rattle.std.specs.Prelude.{◌≡◌};
ghost use Rattle.candidates.specs.Candidates.{asks_for_directory};

use texts::{ends_in, same_bytes};

/// Whether a request asks for what is in a directory: it ends in a slash or is `.`; `..` does not.
pub fn asks_for_directory(request: &[u8]) -> bool
    ensures slash_at_the_end_or_a_dot { result ≡ asks_for_directory request.now }
{
    ends_in(request, b'/') || same_bytes(request, b".")
}
