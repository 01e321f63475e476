// Forming the text of a candidate.
ghost use Rattle.std.specs.Prelude.{◌≡◌, ◌≤◌, ◌∷◌, ◌++◌, Some, length, take};
ghost use Rattle.texts.specs.Texts.{Text as Path, fits, fronted};
ghost use Rattle.candidates.specs.Answers.{said, stem_text, written_length};
ghost use Rattle.candidates.specs.Candidates.{formed};
ghost use Rattle.candidates.specs.declared.forming.Fault.TheVariants.{TooLong};

use stack::Full;
use texts::{MAX_LEN, append_text, copy_text};

/// Why nothing more of a path is tried.
#[derive(Clone, Copy, PartialEq, Eq, Debug)]
pub enum Fault {
    /// The manifest of the path is broken.
    BrokenManifest,
    /// A text would pass 255 bytes.
    TooLong,
}

impl From<Full> for Fault {
    ghost from_gives = { λ _ fault. fault ≡ TooLong };

    fn from(_full: Full) -> Fault {
        Fault::TooLong
    }
}

// The caller lends the buffer, by a rule of the project; so in all that write a text to it.
// A candidate by the length of its text at the front of the buffer, or why nothing more is tried; nothing else is written there.
pub(crate) type Formed = Result<usize, Fault>;

// What an extension goes behind: a path, or a main file below it, with the slash between them.
#[derive(Clone, Copy)]
pub(crate) struct Stem<'a> {
    path: &'a [u8],
    slash: &'a [u8],
    name: &'a [u8],
}

impl<'a> Stem<'a> {
    // A path itself.
    pub(crate) fn of_path(path: &'a [u8]) -> Stem<'a>
        ensures the_path { stem_text result ≡ path.now }
    {
        Stem {
            path,
            slash: b"",
            name: b"",
        }
    }

    // A main file below a path; its slash is always written.
    pub(crate) fn below(path: &'a [u8], name: &'a [u8]) -> Stem<'a>
        ensures path_slash_and_name { stem_text result ≡ path.now ++ (47 ∷ name.now) }
    {
        Stem {
            path,
            slash: b"/",
            name,
        }
    }

    // Whether the text has at most 255 bytes with an extension.
    fn fits(self, extension: &[u8]) -> bool
        ensures at_most_255_bytes { result ≡ fits (stem_text self.entry ++ extension.now) }
    {
        let len = self.path.len();
        let len = len.saturating_add(self.slash.len());
        let len = len.saturating_add(self.name.len());
        len.saturating_add(extension.len()) <= MAX_LEN
    }

    // The candidate with an extension.
    pub(crate) fn form(self, extension: &[u8], out: &mut [u8]) -> Formed
        requires room_for_a_text { 255 ≤ length out.old }
        ensures extension_behind_the_stem { (of : Path) → said of out.new result ≡ formed (stem_text self.entry ++ extension.now) }
        ensures only_its_text_is_written { out.new ≡ fronted (take (written_length (Some result)) out.new) out.old }
    {
        if !self.fits(extension) {
            return Err(Fault::TooLong);
        }
        let mut len = copy_text(self.path, out).unwrap();
        len = append_text(out, len, self.slash).unwrap();
        len = append_text(out, len, self.name).unwrap();
        len = append_text(out, len, extension).unwrap();
        Ok(len)
    }
}
