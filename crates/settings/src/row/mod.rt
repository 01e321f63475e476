// The structs stand alone in their file: the definitions in specs/ name them.
use crate::limits::{MAX_LABEL, MAX_VALUE, VALUES};
use stack::ArrayVec;
use texts::Text;

mod values;

// As the Rust has it; an option would not say that the request is ignored.
/// What a label stands for: the request is ignored, or becomes this text.
#[derive(Clone, Copy)]
pub enum AliasValue {
    Ignore,
    Path(Text<MAX_VALUE>),
}

/// A label with up to four values, in the order in which they were added.
#[derive(Clone, Copy)]
pub struct AliasRow {
    label: Text<MAX_LABEL>,
    values: ArrayVec<AliasValue, VALUES>,
}
