// Texts: what a text is, its parts, and which paths are clean or the same.
#![tactic(auto)]

mod bytes;
mod components;
mod path;
mod piece;
mod place;
mod text;

pub use bytes::{
    MAX_LEN, append_text, copy_text, ends_in, is_ascii, is_printable, is_text, position,
    same_bytes, trim_final_slashes,
};
pub use components::Components;
pub use path::{count_parts, is_clean, path_hash, push_parts, same_hashed_path, same_path};
pub use place::Place;
pub use text::Text;
