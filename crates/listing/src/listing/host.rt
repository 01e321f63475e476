// A listing as a file tree and as a host. No question alters it.
ghost use Rattle.std.specs.Prelude.{◌≡◌};
ghost use Rattle.listing.specs.Entries.{rows};
ghost use Rattle.listing.specs.Meanings.{listed};
ghost use Rattle.listing.specs.Kept.{listed_proper};
ghost use Rattle.listing.specs.RowsLemmas.{few_lines};

use crate::kinds::{LineKind, Topic};
use crate::listing::Listing;
use texts::copy_text;
use tree::{Broken, FileTree, Host, Kind, Manifest, Way};

impl FileTree for Listing {
    ghost meaning = { λ s. listed (rows s) };

    ghost sound = { λ _. Unit {0} };

    ghost steps = { λ s _ t. t ≡ s };

    ghost proper = { λ s h. listed_proper (rows s) (few_lines s) s.fit };

    fn kind(&mut self, path: &[u8]) -> Kind {
        match self.deciding_line(Topic::Kind, path) {
            Some(i) => self.line(i).kind_listed(),
            None => Kind::Nothing,
        }
    }
}

impl Host for Listing {
    fn manifest(&mut self, path: &[u8]) -> Result<Option<Manifest>, Broken> {
        let Some(i) = self.deciding_line(Topic::Manifest, path) else {
            return Ok(None);
        };
        match self.line(i).kind {
            LineKind::Manifest => {
                let mains = self.count_mains(i + 1);
                Ok(Some(Manifest { mains }))
            }
            LineKind::BrokenManifest => Err(Broken),
            _ => Ok(None),
        }
    }

    fn main_text(&self, path: &[u8], i: usize) -> Option<&[u8]> {
        let at = self.deciding_line(Topic::Manifest, path)?;
        match self.line(at).kind {
            LineKind::Manifest => self.find_main(at + 1, i),
            _ => None,
        }
    }

    fn lookup(
        &mut self,
        way: Way,
        request: &[u8],
        _directory: &[u8],
        out: &mut [u8],
    ) -> Result<Option<usize>, Broken> {
        let Some(i) = self.deciding_line(Topic::Lookup(way), request) else {
            return Ok(None);
        };
        let path = self.line(i).second.as_bytes();
        if path.is_empty() {
            return Err(Broken);
        }
        Ok(copy_text(path, out))
    }

    fn forget(&mut self) {}
}
