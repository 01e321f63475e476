// Reading the tables and flags.
ghost use Rattle.std.specs.Prelude.{◌≡◌, ◌≤◌, map, length};
ghost use Rattle.texts.specs.Held.{bytes_of};
ghost use Rattle.settings.specs.Meant.{tables};
ghost use Rattle.settings.specs.Rows.{alias_of};
ghost use Rattle.settings.specs.Tables.{enforced, some_empty};

use crate::enforcement::EnforceExtension;
use crate::limits::{MAX_EXTENSION, MAX_MAIN_FILE, MAX_RESTRICTION};
use crate::row::AliasRow;
use crate::settings::Settings;
use texts::Text;

// Whether one of the texts is empty.
fn has_empty(texts: &[Text<MAX_EXTENSION>]) -> bool
    ensures one_of_them_is_empty { result ≡ some_empty (map bytes_of texts.now) }
{
    texts.iter().any(|text| text.as_bytes().is_empty())
}

impl Settings {
    /// The labels with their values, in the order written.
    pub fn aliases(&self) -> &[AliasRow]
        ensures labels_in_the_order_written { map alias_of result.now ≡ (tables self.now).aliases }
        ensures at_most_16 { length result.now ≤ 16 }
    {
        let all = &self.rows[..];
        &all[0..self.count]
    }

    /// The extensions, in the order written.
    pub fn extensions(&self) -> &[Text<MAX_EXTENSION>]
        ensures extensions_in_the_order_written { map bytes_of result.now ≡ (tables self.now).extensions }
        ensures at_most_8 { length result.now ≤ 8 }
    {
        self.extensions.as_slice()
    }

    /// The main files, in the order written.
    pub fn main_files(&self) -> &[Text<MAX_MAIN_FILE>]
        ensures main_files_in_the_order_written { map bytes_of result.now ≡ (tables self.now).main_files }
        ensures at_most_4 { length result.now ≤ 4 }
    {
        self.main_files.as_slice()
    }

    /// The restrictions, in the order written.
    pub fn restrictions(&self) -> &[Text<MAX_RESTRICTION>]
        ensures restrictions_in_the_order_written { map bytes_of result.now ≡ (tables self.now).restrictions }
        ensures at_most_4 { length result.now ≤ 4 }
    {
        self.restrictions.as_slice()
    }

    /// Whether a request is taken as it is, without extensions and main files.
    pub fn fully_specified(&self) -> bool
        ensures flag_as_set { result ≡ (tables self.now).fully_specified }
    {
        self.fully_specified
    }

    /// Whether a lookup answers a directory in place of a file.
    pub fn resolve_to_context(&self) -> bool
        ensures flag_as_set { result ≡ (tables self.now).context }
    {
        self.resolve_to_context
    }

    /// Whether a path is tried only with an extension: as set; under auto, if one of the extensions is empty.
    pub fn enforces_extension(&self) -> bool
        ensures set_or_by_an_empty_extension { result ≡ enforced (tables self.now) }
    {
        match self.enforce_extension {
            EnforceExtension::Enabled => true,
            EnforceExtension::Disabled => false,
            EnforceExtension::Auto => has_empty(self.extensions.as_slice()),
        }
    }
}
