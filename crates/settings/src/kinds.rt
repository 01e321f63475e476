// What a line of the settings adds.
ghost use Rattle.std.specs.Prelude.{◌≡◌};
ghost use Rattle.std.specs.Option.{ok_or};
ghost use Rattle.texts.specs.Texts.{has};
ghost use Rattle.settings.specs.Entries.{dotted, formed, label_sized, sized};
ghost use Rattle.settings.specs.Kinds.{is_kind, setting_of};
ghost use Rattle.settings.specs.declared.refusals.Refusal.TheVariants.{Kind};

use crate::limits::{MAX_EXTENSION, MAX_LABEL, MAX_MAIN_FILE, MAX_RESTRICTION, MAX_VALUE};
use crate::refusals::Refusal;
use texts::is_clean;

// The kind of a line that sets a flag; it is no `Setting`, since it adds to no table.
pub(crate) const FLAG: u16 = 31;

/// What a line of the settings adds to a table; a flag adds nothing and has a number of its own.
#[derive(Clone, Copy, PartialEq, Eq, Debug)]
pub enum Setting {
    Alias,
    Value,
    Ignore,
    Extension,
    MainFile,
    Restriction,
}

// Whether a slash stands in a name.
fn has_slash(name: &[u8]) -> bool
    ensures slash_in_the_name { result ≡ has 47 name.now }
{
    name.contains(&b'/')
}

// Whether an extension is empty or begins with a dot.
fn is_dotted(extension: &[u8]) -> bool
    ensures empty_or_a_dot_first { result ≡ dotted extension.now }
{
    matches!(extension, [] | [b'.', ..])
}

impl TryFrom<u16> for Setting {
    type Error = Refusal;

    ghost try_from_gives = { λ n r. r ≡ ok_or (setting_of n) Kind };

    /// The setting to which an office gives this number. The numbers stand here alone, since nothing asks for the number of a setting.
    fn try_from(number: u16) -> Result<Setting, Refusal>
        ensures setting_by_its_number { result ≡ ok_or (setting_of number) Kind }
    {
        match number {
            21 => Ok(Setting::Alias),
            23 => Ok(Setting::Value),
            24 => Ok(Setting::Ignore),
            25 => Ok(Setting::Extension),
            26 => Ok(Setting::MainFile),
            30 => Ok(Setting::Restriction),
            _ => Err(Refusal::Kind),
        }
    }
}

/// Whether a line of this kind is one of the settings: a setting, or a flag.
pub fn is_setting_kind(kind: u16) -> bool
    ensures setting_or_flag { result ≡ is_kind kind }
{
    kind == FLAG || Setting::try_from(kind).is_ok()
}

impl Setting {
    // Whether a label has a length that it may have; what is no label passes.
    pub(crate) fn takes_label(self, text: &[u8]) -> bool
        ensures one_to_32_characters { result ≡ label_sized self text.now }
    {
        match self {
            Setting::Alias => matches!(text.len(), 1..=MAX_LABEL),
            _ => true,
        }
    }

    // Whether a text that is no label has a length that it may have.
    pub(crate) fn takes_length(self, text: &[u8]) -> bool
        ensures length_by_the_kind { result ≡ sized self text.now }
    {
        match self {
            Setting::Alias => true,
            Setting::Value => matches!(text.len(), 1..=MAX_VALUE),
            Setting::Ignore => text.is_empty(),
            Setting::Extension => text.len() <= MAX_EXTENSION,
            Setting::MainFile => matches!(text.len(), 1..=MAX_MAIN_FILE),
            Setting::Restriction => text.len() <= MAX_RESTRICTION,
        }
    }

    // Whether a text has the form that its table asks for.
    pub(crate) fn takes_form(self, text: &[u8]) -> bool
        ensures form_by_the_kind { result ≡ formed self text.now }
    {
        match self {
            Setting::Extension => is_dotted(text) && !has_slash(text),
            Setting::MainFile => !has_slash(text),
            Setting::Restriction => is_clean(text),
            _ => true,
        }
    }
}
