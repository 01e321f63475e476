// Which settings are refused, and why.
ghost use Rattle.std.specs.Prelude.{◌≡◌, ◌<◌, length};
ghost use Rattle.texts.specs.Taken.{taken_unless};
ghost use Rattle.settings.specs.Entries.{full, last_values, refusal_of, too_early};
ghost use Rattle.settings.specs.Meant.{tables};
ghost use Rattle.settings.specs.Rows.{alias_of};

use crate::kinds::Setting;
use crate::limits::{EXTENSIONS, LABELS, MAIN_FILES, RESTRICTIONS, VALUES};
use crate::refusals::Refusal;
use crate::row::AliasRow;
use crate::settings::Settings;
use texts::is_printable;

impl Settings {
    // A value comes too early where no label stands before it.
    fn comes_too_early(&self, kind: Setting) -> bool
        ensures value_before_its_label { result ≡ too_early kind (tables self.now) }
    {
        match kind {
            Setting::Value | Setting::Ignore => self.count == 0,
            _ => false,
        }
    }

    // How many values the last label has; none where there is no label.
    fn last_count(&self) -> usize
        ensures values_of_the_last_label { result ≡ length (last_values (tables self.now).aliases) }
    {
        match self.aliases().last() {
            Some(row) => row.values().len(),
            None => 0,
        }
    }

    // Whether the table has no room.
    fn is_full(&self, kind: Setting) -> bool
        ensures no_room_in_its_table { result ≡ full kind (tables self.now) }
    {
        match kind {
            Setting::Alias => self.count >= LABELS,
            Setting::Value | Setting::Ignore => self.last_count() >= VALUES,
            Setting::Extension => self.extensions.as_slice().len() >= EXTENSIONS,
            Setting::MainFile => self.main_files.as_slice().len() >= MAIN_FILES,
            Setting::Restriction => self.restrictions.as_slice().len() >= RESTRICTIONS,
        }
    }

    // Refuses a setting, by the first check that it fails.
    pub(crate) fn check(&self, kind: Setting, first: &[u8], second: &[u8]) -> Result<(), Refusal>
        ensures first_check_that_fails { result ≡ taken_unless (refusal_of (tables self.now) kind first.now second.now) }
    {
        if self.comes_too_early(kind) {
            return Err(Refusal::ValueBeforeLabel);
        }
        if !kind.takes_label(first) {
            return Err(Refusal::LabelLength);
        }
        if !(kind.takes_length(first) && second.is_empty() && is_printable(first)) {
            return Err(Refusal::Text);
        }
        if !kind.takes_form(first) {
            return Err(Refusal::Form);
        }
        if self.is_full(kind) {
            return Err(Refusal::Full);
        }
        Ok(())
    }
}
