// Each question goes to one side, by the path or by the directory.
ghost use Rattle.std.specs.Prelude.{◌≡◌, length, is_ok, MatchResult};
ghost use Rattle.texts.specs.Held.{bytes_of};
ghost use Rattle.texts.specs.Parts.{parts};
ghost use Rattle.texts.specs.Texts.{buffer_with};
ghost use Rattle.tree.specs.Meanings.{answered, found, path_found};
ghost use Rattle.mount.specs.Mounts.{Routed, in_front, mountable, mounted};
ghost use Rattle.mount.specs.Placed.{mounted_proper};

use crate::layer::{MAX_AT, Mount};
use texts::{MAX_LEN, Text, append_text, copy_text, is_clean};
use tree::{Broken, FileTree, Host, Kind, Manifest, Way};

// The shortest path that a host can be mounted at, in bytes.
const MIN_AT: usize = 2;

// Whether a host can be mounted at `at`.
#[tactic(auto, unfolding(crate::specs::Mounts::mountable))]
fn is_mountable(at: &[u8]) -> bool
    ensures clean_with_2_to_16_bytes { result ≡ mountable at.now }
{
    is_clean(at) && (MIN_AT..=MAX_AT).contains(&at.len())
}

// The caller lends the buffer, by a rule of the project.
// The path that was found with the mount in front of it, at the front of `out`; past 255 bytes there is none.
fn put_in_front(at: &[u8], path: &[u8], out: &mut [u8]) -> Option<usize>
    ensures found_if_the_whole_path_fits { Ok result ≡ answered (in_front at.now (found path.now)) (length out.old) }
    ensures path_in_front { out.new ≡ buffer_with (path_found (in_front at.now (found path.now))) out.old }
{
    let whole = at.len() + path.len();
    if whole > MAX_LEN || whole > out.len() {
        return None;
    }
    let len = copy_text(at, out)?;
    append_text(out, len, path)
}

impl<A: FileTree, B: FileTree> Mount<A, B> {
    /// `second` mounted at a clean path of 2 to 16 bytes of `first`; with any other path both hosts are handed back.
    pub fn new(first: A, second: B, at: &[u8]) -> Result<Mount<A, B>, (A, B)>
        requires first_is_sound { A.FileTree.sound first }
        requires second_is_sound { B.FileTree.sound second }
        ensures mounted_at_a_clean_short_path { is_ok result ≡ mountable at.now }
        ensures mounted_or_both_handed_back { MatchResult result (λ m. (m.first ≡ first) × (m.second ≡ second) × (bytes_of m.at ≡ at.now)) (λ back. (back.0 ≡ first) × (back.1 ≡ second)) }
    {
        if !is_mountable(at) {
            return Err((first, second));
        }
        let at = Text::new(at).unwrap();
        Ok(Mount { first, second, at })
    }
}

impl<A: FileTree, B: FileTree> FileTree for Mount<A, B> {
    ghost meaning = { λ s. mounted (bytes_of s.at) (A.FileTree.meaning s.first) (B.FileTree.meaning s.second) };

    ghost sound = { λ s. A.FileTree.sound s.first × B.FileTree.sound s.second };

    ghost steps = { λ s q t. Routed (parts (bytes_of s.at)) q (A.FileTree.steps s.first q t.first × (t.second ≡ s.second)) (λ r. (t.first ≡ s.first) × B.FileTree.steps s.second r t.second) (A.FileTree.steps s.first q t.first × B.FileTree.steps s.second q t.second) };

    ghost proper = { λ s h. mounted_proper _ _ _ s.placed (A.FileTree.proper s.first h.0) (B.FileTree.proper s.second h.1) };

    fn kind(&mut self, path: &[u8]) -> Kind {
        match self.below(path) {
            Some(rest) => self.second.kind(rest),
            None => self.first.kind(path),
        }
    }
}

impl<A: Host, B: Host> Host for Mount<A, B> {
    fn manifest(&mut self, path: &[u8]) -> Result<Option<Manifest>, Broken> {
        match self.below(path) {
            Some(rest) => self.second.manifest(rest),
            None => self.first.manifest(path),
        }
    }

    fn main_text(&self, path: &[u8], i: usize) -> Option<&[u8]> {
        match self.below(path) {
            Some(rest) => self.second.main_text(rest, i),
            None => self.first.main_text(path, i),
        }
    }

    // The caller lends the buffer, by a rule of the project; the second host gets one of the mount's own, since the mount goes in front.
    fn lookup(
        &mut self,
        way: Way,
        request: &[u8],
        directory: &[u8],
        out: &mut [u8],
    ) -> Result<Option<usize>, Broken> {
        let Some(rest) = self.below(directory) else {
            return self.first.lookup(way, request, directory, out);
        };
        let mut path = [0; MAX_LEN];
        let Some(len) = self.second.lookup(way, request, rest, &mut path)? else {
            return Ok(None);
        };
        Ok(put_in_front(self.at.as_bytes(), &path[..len], out))
    }

    fn forget(&mut self) {
        self.first.forget();
        self.second.forget();
    }
}
