// A file tree, and a host: what every layer answers.
ghost use Rattle.std.specs.Prelude.{◌≡◌, ℕ, length};
ghost use Rattle.std.specs.Option.{option_map};
ghost use Rattle.stack.specs.Items.{item_at};
ghost use Rattle.texts.specs.Parts.{parts};
ghost use Rattle.texts.specs.Texts.{buffer_with};
ghost use Rattle.tree.specs.Meanings.{Meaning, Proper, Question, answered, counted, forgetting, kind_of, lookup_of, mains, manifest_of, path_found};

use crate::answers::{Broken, Kind, Manifest, Way};

// That a layer is sound stands in each contract: a rule of the project makes it a member, asked and kept by every call.
/// A file tree: each list of parts is nothing, a file or a directory.
pub trait FileTree {
    // The tree and the answers to the other questions, as one value.
    ghost meaning: { Self → Meaning };

    // What a layer keeps agrees with the host below.
    ghost sound: { Self → Type 0 };

    // How a question moves the state behind the meaning: which layers were asked, and what they hold then.
    ghost steps: { Self → Question → Self → Type 0 };

    /// What stands at `path`.
    fn kind(&mut self, path: &[u8]) -> Kind
        requires sound { sound self.old }
        ensures answer_by_the_meaning { result ≡ (meaning self.old).kind (parts path.now) }
        ensures same_meaning { meaning self.new ≡ meaning self.old }
        ensures still_sound { sound self.new }
        ensures steps_on { steps self.old (kind_of path.now) self.new };

    // The meaning of what is sound keeps the limits of a host.
    ghost proper: { (s : Self) → sound s → Proper (meaning s) };
}

/// A host: a file tree that answers three more questions and can be told to forget.
pub trait Host: FileTree {
    /// The manifest at `path`, if there is one.
    fn manifest(&mut self, path: &[u8]) -> Result<Option<Manifest>, Broken>
        requires sound { Self.FileTree.sound self.old }
        ensures answer_by_the_meaning { result ≡ counted ((Self.FileTree.meaning self.old).manifest (parts path.now)) }
        ensures same_meaning { Self.FileTree.meaning self.new ≡ Self.FileTree.meaning self.old }
        ensures still_sound { Self.FileTree.sound self.new }
        ensures steps_on { Self.FileTree.steps self.old (manifest_of path.now) self.new };

    /// The main text at `i` of the manifest at `path`; none beyond the last.
    fn main_text(&self, path: &[u8], i: usize) -> Option<&[u8]>
        requires sound { Self.FileTree.sound self.now }
        ensures main_text_in_its_place { option_map (λ x. x.now) result ≡ item_at (mains ((Self.FileTree.meaning self.now).manifest (parts path.now))) i };

    // The caller lends the buffer, by a rule of the project.
    /// Looks `request` up from `directory`. A path that is found is written to the front of `out`, and its length is returned; for one that does not fit, there is none and `out` stays as it was.
    fn lookup(
        &mut self,
        way: Way,
        request: &[u8],
        directory: &[u8],
        out: &mut [u8],
    ) -> Result<Option<usize>, Broken>
        requires sound { Self.FileTree.sound self.old }
        ensures answer_by_the_meaning { result ≡ answered ((Self.FileTree.meaning self.old).lookup way request.now (parts directory.now)) (length out.old) }
        ensures path_in_front { out.new ≡ buffer_with (path_found ((Self.FileTree.meaning self.old).lookup way request.now (parts directory.now))) out.old }
        ensures same_meaning { Self.FileTree.meaning self.new ≡ Self.FileTree.meaning self.old }
        ensures still_sound { Self.FileTree.sound self.new }
        ensures steps_on { Self.FileTree.steps self.old (lookup_of way request.now directory.now) self.new };

    /// Lets go of what is only kept to answer faster.
    fn forget(&mut self)
        requires sound { Self.FileTree.sound self.old }
        ensures same_meaning { Self.FileTree.meaning self.new ≡ Self.FileTree.meaning self.old }
        ensures still_sound { Self.FileTree.sound self.new }
        ensures steps_on { Self.FileTree.steps self.old forgetting self.new };
}
