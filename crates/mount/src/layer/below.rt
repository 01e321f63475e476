// Which paths lie below the mount.
ghost use Rattle.std.specs.Prelude.{◌≡◌, ◌≤◌, max, length, Some, None, MatchOption};
ghost use Rattle.texts.specs.Held.{bytes_of};
ghost use Rattle.texts.specs.Parts.{parts};
ghost use Rattle.mount.specs.Mounts.{stripped};

use crate::layer::Mount;
use texts::{Components, same_bytes};

impl<A, B> Mount<A, B> {
    // What is left of `path` below the mount, as a path of its own. By hand: a `zip` would keep the rest of `found` to itself.
    pub(crate) fn below<'a>(&self, path: &'a [u8]) -> Option<&'a [u8]>
        ensures rest_below_the_mount { MatchOption result (stripped (parts (bytes_of self.now.at)) (parts path.now) ≡ None) (λ t. (stripped (parts (bytes_of self.now.at)) (parts path.now) ≡ Some (parts t.now)) × (length t.now ≤ max 1 (length path.now))) }
    {
        let mount = self.at.as_bytes();
        let mut wanted = Components::new(mount);
        let mut found = Components::new(path);
        while let Some(part) = wanted.next() {
            let other = found.next()?;
            if !same_bytes(part.of(mount), other.of(path)) {
                return None;
            }
        }
        Some(found.rest())
    }
}
