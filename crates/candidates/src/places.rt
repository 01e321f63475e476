// The candidates of a path as a file, and those of its main files, each by its place.
ghost use Rattle.std.specs.Prelude.{◌≡◌, ◌*◌, ◌<◌, ◌≤◌, IsSome, length, map, take};
ghost use Rattle.std.specs.Option.{option_map};
ghost use Rattle.stack.specs.Items.{item_at};
ghost use Rattle.texts.specs.Held.{bytes_of};
ghost use Rattle.texts.specs.Texts.{Text as Path, fronted};
ghost use Rattle.settings.specs.Meant.{tables};
ghost use Rattle.candidates.specs.Answers.{said, stem_text, written_length};
ghost use Rattle.candidates.specs.Candidates.{extended, indexed};
ghost use Rattle.candidates.specs.Left.{form_candidates};

use crate::forming::{Formed, Stem};
use settings::{MAX_EXTENSION, MAX_MAIN_FILE, Settings};
use texts::Text;

// Whether a path is tried itself or by its main files.
#[derive(Clone, Copy, PartialEq, Eq, Debug)]
pub(crate) enum Form {
    File,
    Index,
}

// A path whose candidates are formed, with what forms them.
#[derive(Clone, Copy)]
pub(crate) struct Sought<'a> {
    pub(crate) settings: &'a Settings,
    pub(crate) fully_specified: bool,
    pub(crate) path: &'a [u8],
}

// A stem with the extension at a place; none beyond the last. Extensions are gone through by their index, in the order written, by a rule of the project.
fn extended_candidate(
    stem: Stem,
    extensions: &[Text<MAX_EXTENSION>],
    place: usize,
    out: &mut [u8],
) -> Option<Formed>
    requires room_for_a_text { 255 ≤ length out.old }
    ensures place_among_the_extensions { IsSome result → place < length extensions.now }
    ensures extension_at_the_place { (of : Path) → option_map (said of out.new) result ≡ item_at (extended (stem_text stem.entry) (map bytes_of extensions.now)) place }
    ensures only_its_text_is_written { out.new ≡ fronted (take (written_length result) out.new) out.old }
{
    for i in 0..extensions.len() {
        if i == place {
            return Some(stem.form(extensions[i].as_bytes(), out));
        }
    }
    None
}

// Each main file below a path with all extensions in turn: the candidate at a place; none beyond the last. Main files are gone through by their index, in the order written, by a rule of the project.
fn named_candidate(
    path: &[u8],
    names: &[Text<MAX_MAIN_FILE>],
    extensions: &[Text<MAX_EXTENSION>],
    place: usize,
    out: &mut [u8],
) -> Option<Formed>
    requires few { length extensions.now ≤ 8 }
    requires room_for_a_text { 255 ≤ length out.old }
    ensures place_within_the_table { IsSome result → place < 8 * length names.now }
    ensures main_file_at_the_place { (of : Path) → option_map (said of out.new) result ≡ item_at (indexed path.now (map bytes_of extensions.now) (map bytes_of names.now)) place }
    ensures only_its_text_is_written { out.new ≡ fronted (take (written_length result) out.new) out.old }
{
    let mut left = place;
    for i in 0..names.len() {
        if left < extensions.len() {
            let stem = Stem::below(path, names[i].as_bytes());
            return extended_candidate(stem, extensions, left, out);
        }
        left -= extensions.len();
    }
    None
}

impl Sought<'_> {
    // The path itself or with an extension: the candidate at a place; none beyond the last.
    fn file_candidate(&self, place: usize, out: &mut [u8]) -> Option<Formed>
        requires room_for_a_text { 255 ≤ length out.old }
        ensures at_most_9_files { IsSome result → place < 9 }
        ensures file_at_the_place { (of : Path) → option_map (said of out.new) result ≡ item_at (form_candidates (tables self.now.settings.now) self.now.fully_specified Form.File self.now.path.now) place }
        ensures only_its_text_is_written { out.new ≡ fronted (take (written_length result) out.new) out.old }
    {
        let mut left = place;
        if !self.settings.enforces_extension() {
            if left == 0 {
                return Some(Stem::of_path(self.path).form(b"", out));
            }
            left -= 1;
        }
        if self.fully_specified {
            return None;
        }
        let stem = Stem::of_path(self.path);
        extended_candidate(stem, self.settings.extensions(), left, out)
    }

    // The main files below the path: the candidate at a place; none beyond the last.
    fn index_candidate(&self, place: usize, out: &mut [u8]) -> Option<Formed>
        requires room_for_a_text { 255 ≤ length out.old }
        ensures at_most_32_indexes { IsSome result → place < 32 }
        ensures index_at_the_place { (of : Path) → option_map (said of out.new) result ≡ item_at (form_candidates (tables self.now.settings.now) self.now.fully_specified Form.Index self.now.path.now) place }
        ensures only_its_text_is_written { out.new ≡ fronted (take (written_length result) out.new) out.old }
    {
        if self.fully_specified {
            return None;
        }
        named_candidate(
            self.path,
            self.settings.main_files(),
            self.settings.extensions(),
            place,
            out,
        )
    }

    // The candidates of the path in one of the two forms: the one at a place; none beyond the last.
    pub(crate) fn candidate(&self, form: Form, place: usize, out: &mut [u8]) -> Option<Formed>
        requires room_for_a_text { 255 ≤ length out.old }
        ensures at_most_32_candidates { IsSome result → place < 32 }
        ensures candidate_at_the_place { (of : Path) → option_map (said of out.new) result ≡ item_at (form_candidates (tables self.now.settings.now) self.now.fully_specified form self.now.path.now) place }
        ensures only_its_text_is_written { out.new ≡ fronted (take (written_length result) out.new) out.old }
    {
        match form {
            Form::File => self.file_candidate(place, out),
            Form::Index => self.index_candidate(place, out),
        }
    }
}
