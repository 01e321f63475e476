// A policy that looks at how deep a path lies.
ghost use Rattle.std.specs.Prelude.{◌≡◌, length, nat_le};
ghost use Rattle.texts.specs.Parts.{parts};

use crate::policy::Policy;
use texts::count_parts;

/// Allows paths of at most `max` parts.
#[derive(Clone, Copy)]
pub struct PartCount {
    pub max: usize,
}

impl Policy for PartCount {
    ghost allowed = { λ s path. nat_le (length (parts path)) s.max };

    fn allows(&self, path: &[u8]) -> bool {
        count_parts(path) <= self.max
    }
}
