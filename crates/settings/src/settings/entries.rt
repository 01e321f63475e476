// Filling the tables. What is refused leaves every table as it was.
ghost use Rattle.std.specs.Prelude.{◌≡◌, ◌<◌, ◌≤◌, true, false, [], length};
ghost use Rattle.texts.specs.Taken.{taken_unless};
ghost use Rattle.settings.specs.Entries.{flag_refusal, flagged, refusal_of, tables_after, with_flag};
ghost use Rattle.settings.specs.Flags.{numbers_of};
ghost use Rattle.settings.specs.Limits.{WithinLimits};
ghost use Rattle.settings.specs.Loading.{line_after, line_refusal, offer_of};
ghost use Rattle.settings.specs.Meant.{tables};
ghost use Rattle.settings.specs.Tables.{unset};

use crate::enforcement::EnforceExtension;
use crate::entry::Entry;
use crate::flag::Flag;
use crate::kinds::Setting;
use crate::limits::LABELS;
use crate::refusals::Refusal;
use crate::row::{AliasRow, AliasValue};
use crate::settings::Settings;
use crate::settings::tables::push_text;
use stack::ArrayVec;
use texts::Text;

impl Settings {
    /// Empty tables and no flag set.
    pub fn new() -> Settings
        ensures nothing_is_set { tables result ≡ unset }
    {
        Settings {
            rows: [AliasRow::new(Text::empty()); LABELS],
            count: 0,
            extensions: ArrayVec::new(Text::empty()),
            main_files: ArrayVec::new(Text::empty()),
            restrictions: ArrayVec::new(Text::empty()),
            fully_specified: false,
            resolve_to_context: false,
            enforce_extension: EnforceExtension::Auto,
        }
    }

    // Kind and texts are three parameters, as a line has them: a struct would be made and taken apart again in each of two calls.
    // Adds a setting, unless it is refused.
    #[tactic(auto, unfolding(crate::specs::Entries::tables_after))]
    fn add(&mut self, kind: Setting, first: &[u8], second: &[u8]) -> Result<(), Refusal>
        ensures taken_or_refused { result ≡ taken_unless (refusal_of (tables self.old) kind first.now second.now) }
        ensures tables_then { tables self.new ≡ tables_after (tables self.old) kind first.now second.now }
    {
        self.check(kind, first, second)?;
        match kind {
            Setting::Alias => self.push_alias(first),
            Setting::Value => self.push_value(AliasValue::Path(Text::new(first).unwrap())),
            Setting::Ignore => self.push_value(AliasValue::Ignore),
            Setting::Extension => push_text(&mut self.extensions, first),
            Setting::MainFile => push_text(&mut self.main_files, first),
            Setting::Restriction => push_text(&mut self.restrictions, first),
        }
        Ok(())
    }

    // An entry, the call of a setup page and the line loader are three functions by a rule of the project, so each table has a call.

    /// Adds a label, behind the others and without values.
    pub fn add_alias(&mut self, label: &[u8]) -> Result<(), Refusal>
        ensures taken_or_refused { result ≡ taken_unless (refusal_of (tables self.old) Setting.Alias label.now []) }
        ensures tables_then { tables self.new ≡ tables_after (tables self.old) Setting.Alias label.now [] }
    {
        self.add(Setting::Alias, label, b"")
    }

    /// Adds a value to the last label.
    pub fn add_value(&mut self, value: &[u8]) -> Result<(), Refusal>
        ensures taken_or_refused { result ≡ taken_unless (refusal_of (tables self.old) Setting.Value value.now []) }
        ensures tables_then { tables self.new ≡ tables_after (tables self.old) Setting.Value value.now [] }
    {
        self.add(Setting::Value, value, b"")
    }

    /// Lets the last label ignore what it touches, behind its other values.
    pub fn add_ignore(&mut self) -> Result<(), Refusal>
        ensures taken_or_refused { result ≡ taken_unless (refusal_of (tables self.old) Setting.Ignore [] []) }
        ensures tables_then { tables self.new ≡ tables_after (tables self.old) Setting.Ignore [] [] }
    {
        self.add(Setting::Ignore, b"", b"")
    }

    /// Adds an extension.
    pub fn add_extension(&mut self, extension: &[u8]) -> Result<(), Refusal>
        ensures taken_or_refused { result ≡ taken_unless (refusal_of (tables self.old) Setting.Extension extension.now []) }
        ensures tables_then { tables self.new ≡ tables_after (tables self.old) Setting.Extension extension.now [] }
    {
        self.add(Setting::Extension, extension, b"")
    }

    /// Adds a main file.
    pub fn add_main_file(&mut self, name: &[u8]) -> Result<(), Refusal>
        ensures taken_or_refused { result ≡ taken_unless (refusal_of (tables self.old) Setting.MainFile name.now []) }
        ensures tables_then { tables self.new ≡ tables_after (tables self.old) Setting.MainFile name.now [] }
    {
        self.add(Setting::MainFile, name, b"")
    }

    /// Adds a restriction.
    pub fn add_restriction(&mut self, path: &[u8]) -> Result<(), Refusal>
        ensures taken_or_refused { result ≡ taken_unless (refusal_of (tables self.old) Setting.Restriction path.now []) }
        ensures tables_then { tables self.new ≡ tables_after (tables self.old) Setting.Restriction path.now [] }
    {
        self.add(Setting::Restriction, path, b"")
    }

    // Sets a flag.
    fn set(&mut self, flag: Flag)
        ensures tables_with_the_flag { tables self.new ≡ with_flag (numbers_of flag).0 (numbers_of flag).1 (tables self.old) }
    {
        match flag {
            Flag::FullySpecified(on) => self.fully_specified = on,
            Flag::ResolveToContext(on) => self.resolve_to_context = on,
            Flag::EnforceExtension(how) => self.enforce_extension = how,
        }
    }

    // Both stay numbers: a sheet may write some that no flag or setting has.
    /// Sets a flag by its number: 1 fully specified, 2 context, 3 enforcement; 1 is on, 0 off, and for the third 2 auto.
    pub fn set_flag(&mut self, flag: u16, setting: u16) -> Result<(), Refusal>
        ensures taken_or_refused { result ≡ taken_unless (flag_refusal flag setting) }
        ensures tables_then { tables self.new ≡ flagged (tables self.old) flag setting }
    {
        let flag = Flag::try_from((flag, setting))?;
        self.set(flag);
        Ok(())
    }

    /// Whether a line of the settings would be taken, or why not; nothing changes.
    pub fn check_line(&self, line: &[u8]) -> Result<(), Refusal>
        ensures taken_or_refused { result ≡ taken_unless (line_refusal (tables self.now) (offer_of line.now)) }
    {
        match Entry::read(line)? {
            Entry::Texts(kind, first, second) => self.check(kind, first, second),
            Entry::Flag(_) => Ok(()),
        }
    }

    /// Takes a line of the settings.
    pub fn load(&mut self, line: &[u8]) -> Result<(), Refusal>
        ensures taken_or_refused { result ≡ taken_unless (line_refusal (tables self.old) (offer_of line.now)) }
        ensures tables_then { tables self.new ≡ line_after (tables self.old) (offer_of line.now) }
        ensures within_its_limits { WithinLimits (tables self.new) }
    {
        match Entry::read(line)? {
            Entry::Texts(kind, first, second) => self.add(kind, first, second),
            Entry::Flag(flag) => {
                self.set(flag);
                Ok(())
            }
        }
    }
}
