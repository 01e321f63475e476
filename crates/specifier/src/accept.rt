// What is looked up at all: these tests come before any lookup.
ghost use Rattle.std.specs.Prelude.{◌≡◌};
ghost use Rattle.specifier.specs.Accepted.{askable, startable};

use texts::{is_ascii, is_clean};

// The longest directory and the longest request, in bytes.
const MAX_DIRECTORY: usize = 80;

const MAX_REQUEST: usize = 96;

/// Whether a lookup can start from `directory`: a clean path of at most 80 bytes, each at most 127.
pub fn is_directory(directory: &[u8]) -> bool
    ensures clean_short_and_ascii { result ≡ startable directory.now }
{
    directory.len() <= MAX_DIRECTORY && is_ascii(directory) && is_clean(directory)
}

/// Whether `request` is looked up: it has at most 96 bytes, each at most 127.
pub fn is_request(request: &[u8]) -> bool
    ensures short_and_ascii { result ≡ askable request.now }
{
    request.len() <= MAX_REQUEST && is_ascii(request)
}
