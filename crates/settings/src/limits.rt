// How much the tables hold, and how long their texts are.

// How many labels, values of a label, extensions, main files and restrictions there are at most.
pub(crate) const LABELS: usize = 16;

pub(crate) const VALUES: usize = 4;

pub(crate) const EXTENSIONS: usize = 8;

pub(crate) const MAIN_FILES: usize = 4;

pub(crate) const RESTRICTIONS: usize = 4;

// The most characters of a label, and bytes of a value, an extension, a main file and a restriction.
pub(crate) const MAX_LABEL: usize = 32;

pub const MAX_VALUE: usize = 96;

pub const MAX_EXTENSION: usize = 12;

pub const MAX_MAIN_FILE: usize = 16;

pub(crate) const MAX_RESTRICTION: usize = texts::MAX_LEN;
