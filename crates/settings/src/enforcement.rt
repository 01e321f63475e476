// Whether an extension must be added.

// As the Rust has it; an `Option<bool>` would not say what none stands for.
/// Whether a path is tried only with an extension; auto: exactly if one of the extensions is empty.
#[derive(Clone, Copy, PartialEq, Eq, Debug)]
pub enum EnforceExtension {
    Auto,
    Enabled,
    Disabled,
}
