// Paths: joining one text to another, and normalizing.
#![tactic(auto)]

mod path_util;

pub use path_util::{MAX_PARTS, joined, normalize, normalize_with, normalized};
