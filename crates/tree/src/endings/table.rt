// Adding an ending, and the test.
ghost use Rattle.std.specs.Prelude.{◌≡◌, [], ◌∷◌, ◌++◌, is_ok, if◌then◌else◌};
ghost use Rattle.texts.specs.Taken.{taken_unless};
ghost use Rattle.tree.specs.Acceptances.{ends_in, ends_in_one};
ghost use Rattle.tree.specs.Endings.{endings_of, ending_refusal};

use crate::endings::{EndingRefusal, Endings};
use crate::policy::Policy;
use stack::ArrayVec;
use texts::Text;

// Whether `path` ends in `ending`.
fn ends_in(ending: &[u8], path: &[u8]) -> bool
    ensures path_ends_in_the_ending { result ≡ ends_in ending.now path.now }
{
    path.ends_with(ending)
}

impl Endings {
    /// A policy without endings.
    pub fn new() -> Endings
        ensures no_endings { endings_of result ≡ [] }
    {
        let texts = ArrayVec::new(Text::empty());
        Endings { texts }
    }

    /// One ending more; a fifth or one of more than 16 bytes is refused, and nothing changes.
    pub fn add(&mut self, ending: &[u8]) -> Result<(), EndingRefusal>
        ensures taken_if_short_and_one_of_four { result ≡ taken_unless (ending_refusal (endings_of self.old) ending.now) }
        ensures added_behind_the_others { endings_of self.new ≡ (if is_ok result then endings_of self.old ++ ending.now ∷ [] else endings_of self.old) }
    {
        let text = Text::new(ending).ok_or(EndingRefusal::TooLong)?;
        self.texts.push(text).map_err(|_| EndingRefusal::Full)
    }

    // Whether the path ends in one of the endings.
    fn fits(&self, path: &[u8]) -> bool
        ensures path_ends_in_one_of_them { result ≡ ends_in_one (endings_of self.now) path.now }
    {
        self.texts
            .as_slice()
            .iter()
            .any(|ending| ends_in(ending.as_bytes(), path))
    }
}

impl Policy for Endings {
    ghost allowed = { λ s path. ends_in_one (endings_of s) path };

    fn allows(&self, path: &[u8]) -> bool {
        self.fits(path)
    }
}
