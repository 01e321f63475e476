// The layer: what is held is answered, any other question goes to the host below.
ghost use Rattle.std.specs.Prelude.{◌≡◌, []};
ghost use Rattle.cache.specs.Held.{Agrees, Stepped, held};
ghost use Rattle.cache.specs.Seen.{holds_text};

use crate::recent::Recent;
use texts::{MAX_LEN, path_hash};
use tree::{Broken, FileTree, Host, Kind, Manifest, Way};

/// A host that holds the kinds of the last 64 different paths asked.
#[derive(Drop)]
pub struct Cache<H> {
    below: H,
    recent: Recent,
}

impl<H: FileTree> Cache<H> {
    /// A cache over `below` that holds nothing yet.
    pub fn new(below: H) -> Cache<H>
        requires sound { H.FileTree.sound below }
        ensures sound_as_a_layer { H.FileTree.sound result.below × Agrees (H.FileTree.meaning result.below).kind (held result.recent) }
        ensures below_as_given { result.below ≡ below }
        ensures meaning_of_the_host_below { H.FileTree.meaning result.below ≡ H.FileTree.meaning below }
        ensures starts_empty { held result.recent ≡ [] }
    {
        Cache {
            below,
            recent: Recent::new(),
        }
    }

    /// The host below, as it is now.
    pub fn into_below(self) -> H
        ensures gives_the_host_below { result ≡ self.below }
    {
        let Cache { below, recent: _ } = self;
        below
    }

    /// Whether the path is held; bytes that are too many for a text never are.
    pub fn holds(&self, path: &[u8]) -> bool
        ensures holds_by_parts { result ≡ holds_text path.now (held self.now.recent) }
    {
        path.len() <= MAX_LEN && self.recent.holds(path)
    }
}

impl<H: FileTree> FileTree for Cache<H> {
    ghost meaning = { λ s. H.FileTree.meaning s.below };

    ghost sound = { λ s. H.FileTree.sound s.below × Agrees (H.FileTree.meaning s.below).kind (held s.recent) };

    ghost steps = { λ s q t. Stepped (H.FileTree.meaning s.below).kind (held s.recent) (held t.recent) (t.below ≡ s.below) (H.FileTree.steps s.below q t.below) q };

    ghost proper = { λ s h. H.FileTree.proper s.below h.0 };

    fn kind(&mut self, path: &[u8]) -> Kind {
        if path.len() > MAX_LEN {
            return self.below.kind(path);
        }
        let hash = path_hash(path);
        if let Some(kind) = self.recent.recall(path, hash) {
            return kind;
        }
        let kind = self.below.kind(path);
        self.recent.remember(path, hash, kind);
        kind
    }
}

impl<H: Host> Host for Cache<H> {
    fn manifest(&mut self, path: &[u8]) -> Result<Option<Manifest>, Broken> {
        self.below.manifest(path)
    }

    fn main_text(&self, path: &[u8], i: usize) -> Option<&[u8]> {
        self.below.main_text(path, i)
    }

    fn lookup(
        &mut self,
        way: Way,
        request: &[u8],
        directory: &[u8],
        out: &mut [u8],
    ) -> Result<Option<usize>, Broken> {
        self.below.lookup(way, request, directory, out)
    }

    fn forget(&mut self) {
        self.recent.clear();
        self.below.forget();
    }
}
