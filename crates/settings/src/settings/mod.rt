// The struct stands alone in its file: the definitions in specs/ name it, and what its ghost fields import must not lead back to them.
ghost use Rattle.std.specs.Prelude.{◌≡◌, ◌≤◌, true, map, length, take};
ghost use Rattle.stack.specs.Held.{held};
ghost use Rattle.texts.specs.Held.{bytes_of};
ghost use Rattle.texts.specs.Parts.{every};
ghost use Rattle.settings.specs.Limits.{aliases_kept, extension_kept, main_file_kept, restriction_kept};
ghost use Rattle.settings.specs.Rows.{alias_of};

use crate::enforcement::EnforceExtension;
use crate::limits::{
    EXTENSIONS, LABELS, MAIN_FILES, MAX_EXTENSION, MAX_MAIN_FILE, MAX_RESTRICTION, RESTRICTIONS,
};
use crate::row::AliasRow;
use stack::ArrayVec;
use texts::Text;

mod entries;
mod reading;
mod refusing;
mod tables;

/// The office's tables and flags.
#[derive(Drop)]
pub struct Settings {
    // the labels: an array with its count by a rule of the project, since one row is changed in its place through `&mut self`
    rows: [AliasRow; LABELS],
    count: usize,
    extensions: ArrayVec<Text<MAX_EXTENSION>, EXTENSIONS>,
    main_files: ArrayVec<Text<MAX_MAIN_FILE>, MAIN_FILES>,
    restrictions: ArrayVec<Text<MAX_RESTRICTION>, RESTRICTIONS>,
    fully_specified: bool,
    resolve_to_context: bool,
    enforce_extension: EnforceExtension,
    ghost whole: { length rows ≡ 16 },
    ghost within: { count ≤ 16 },
    ghost aliases_kept: { aliases_kept (map alias_of (take count rows)) ≡ true },
    ghost extensions_kept: { every extension_kept (map bytes_of (held extensions)) ≡ true },
    ghost main_files_kept: { every main_file_kept (map bytes_of (held main_files)) ≡ true },
    ghost restrictions_kept: { every restriction_kept (map bytes_of (held restrictions)) ≡ true },
}
