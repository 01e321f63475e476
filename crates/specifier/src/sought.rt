// The path that a request looks for.
ghost use Rattle.std.specs.Prelude.{◌≡◌, length};
ghost use Rattle.texts.specs.Texts.{buffer_with, length_in};
ghost use Rattle.specifier.specs.Sought.{sought_path};

use crate::branch::Branch;
use paths::normalize_with;
use texts::{copy_text, trim_final_slashes};

// The caller lends the buffer, by a rule of the project.
/// Writes the path that a request with this path looks for from `directory` to the front of `out`. None, and `out` as it was, where the request goes to hash or package lookup, or the path is longer than 255 bytes on the way or than `out`.
pub fn write_sought_path(directory: &[u8], path: &[u8], out: &mut [u8]) -> Option<usize>
    ensures length_of_the_path { result ≡ length_in (sought_path directory.now path.now) (length out.old) }
    ensures path_in_front { out.new ≡ buffer_with (sought_path directory.now path.now) out.old }
{
    match Branch::of(path) {
        Branch::Absolute => copy_text(trim_final_slashes(path), out),
        Branch::Relative => normalize_with(directory, path, out),
        Branch::Hash | Branch::Package => None,
    }
}
