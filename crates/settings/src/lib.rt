// The office's tables: labels with their values, extensions, main files, restrictions and flags.
#![tactic(auto)]

mod enforcement;
mod entry;
mod flag;
mod kinds;
mod limits;
mod refusals;
mod row;
mod settings;

pub use enforcement::EnforceExtension;
pub use kinds::{Setting, is_setting_kind};
pub use limits::{MAX_EXTENSION, MAX_MAIN_FILE, MAX_VALUE};
pub use refusals::Refusal;
pub use row::{AliasRow, AliasValue};
pub use settings::Settings;
