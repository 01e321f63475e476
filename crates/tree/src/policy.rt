// A policy: yes or no for a path's bytes.
ghost use Rattle.std.specs.Prelude.{◌≡◌};
ghost use Rattle.tree.specs.Acceptances.{Allowed};

/// A policy: it says yes or no to a path's bytes, and no question alters it.
pub trait Policy {
    // What it says of each path.
    ghost allowed: { Self → Allowed };

    /// Whether the path is allowed.
    fn allows(&self, path: &[u8]) -> bool
        ensures answer_by_the_meaning { result ≡ allowed self.now path.now };
}
