// What a line says.
ghost use Rattle.std.specs.Prelude.{◌≡◌, ◌≤◌, [], false, length, ◌==◌};
ghost use Rattle.texts.specs.Hashes.{path_hash};
ghost use Rattle.texts.specs.Parts.{parts, same_parts};
ghost use Rattle.listing.specs.Rows.{is_main, is_manifest, kind_listed, row, row_of};
ghost use Rattle.listing.specs.Meanings.{asked, fits, lists_kind, lists_manifest, lists_way};

use crate::kinds::{LineKind, Topic};
use crate::line::Line;
use texts::{MAX_LEN, Text, path_hash, same_bytes, same_hashed_path};
use tree::{Kind, Way};

impl Line {
    // The line without a text, which stands where nothing is listed yet.
    pub(crate) fn blank() -> Line
        ensures row_without_texts { row result ≡ row_of LineKind.File [] [] }
    {
        Line {
            kind: LineKind::File,
            first: Text::empty(),
            hash: path_hash(b""),
            second: Text::empty(),
        }
    }

    pub(crate) fn new(kind: LineKind, first: &[u8], second: &[u8]) -> Line
        requires first_is_short { length first.now ≤ 255 }
        requires second_is_short { length second.now ≤ 255 }
        ensures row_of_kind_and_texts { row result ≡ row_of kind first.now second.now }
    {
        Line {
            kind,
            first: Text::new(first).unwrap(),
            hash: path_hash(first),
            second: Text::new(second).unwrap(),
        }
    }

    // Whether the line has the path `text`, which has this hash; with 0 none was made.
    fn has_path(&self, text: &[u8], hash: u8) -> bool
        requires hash_of_the_path_if_there_is_one { (hash == 0) ≡ false → hash ≡ path_hash text.now }
        ensures same_path_part_for_part { result ≡ same_parts (parts (row self.now).first) (parts text.now) }
    {
        same_hashed_path(self.first.as_bytes(), self.hash, text, hash)
    }

    // Whether the line decides what is asked about `text`, which has this hash as a path; with 0 none was made.
    pub(crate) fn fits(&self, topic: Topic, text: &[u8], hash: u8) -> bool
        requires hash_of_the_path_if_there_is_one { (hash == 0) ≡ false → hash ≡ path_hash text.now }
        ensures fits_what_is_asked { result ≡ fits (asked topic text.now) (row self.now) }
    {
        match topic {
            Topic::Kind => self.lists_kind() && self.has_path(text, hash),
            Topic::Manifest => self.lists_manifest() && self.has_path(text, hash),
            Topic::Lookup(way) => self.lists_way(way) && same_bytes(self.first.as_bytes(), text),
        }
    }

    // Whether the line lists a file or a directory.
    fn lists_kind(&self) -> bool
        ensures file_or_directory { result ≡ lists_kind self.now.kind }
    {
        matches!(self.kind, LineKind::File | LineKind::Directory)
    }

    // Whether the line lists a manifest, a broken one or not.
    fn lists_manifest(&self) -> bool
        ensures manifest_or_a_broken_one { result ≡ lists_manifest self.now.kind }
    {
        matches!(self.kind, LineKind::BrokenManifest | LineKind::Manifest)
    }

    // Whether the line lists what a lookup asks for.
    fn lists_way(&self, way: Way) -> bool
        ensures lookup_of_its_way { result ≡ lists_way way self.now.kind }
    {
        match way {
            Way::Package => matches!(self.kind, LineKind::Package),
            Way::Hash => matches!(self.kind, LineKind::Hash),
        }
    }

    // Whether main texts may follow the line.
    pub(crate) fn is_manifest(&self) -> bool
        ensures manifest_by_its_kind { result ≡ is_manifest self.now.kind }
    {
        matches!(self.kind, LineKind::Manifest)
    }

    // Whether the line is a main text.
    pub(crate) fn is_main(&self) -> bool
        ensures main_text_by_its_kind { result ≡ is_main self.now.kind }
    {
        matches!(self.kind, LineKind::Main)
    }

    // The kind that the line gives its path.
    pub(crate) fn kind_listed(&self) -> Kind
        ensures kind_of_the_listed_path { result ≡ kind_listed self.now.kind }
    {
        match self.kind {
            LineKind::File => Kind::File,
            LineKind::Directory => Kind::Directory,
            _ => Kind::Nothing,
        }
    }
}
