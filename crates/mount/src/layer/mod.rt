// The struct stands alone in its file: what its ghost fields import must not lead back to it.
ghost use Rattle.std.specs.Prelude.{◌≡◌, true};
ghost use Rattle.texts.specs.Held.{bytes_of};
ghost use Rattle.mount.specs.Mounts.{mountable};

use texts::Text;

mod answers;
mod below;

// The longest path that a host can be mounted at, in bytes.
const MAX_AT: usize = 16;

/// Two hosts: the second answers for what lies below the path `at`, with only the root in that path's place, and the first for all else.
#[derive(Drop)]
pub struct Mount<A, B> {
    first: A,
    second: B,
    at: Text<MAX_AT>,
    ghost placed: { mountable (bytes_of at) ≡ true },
}
