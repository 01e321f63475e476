// Why an entry is not taken.
ghost use Rattle.std.specs.Prelude.{◌≡◌};
ghost use Rattle.settings.specs.Kinds.{number};
ghost use Rattle.settings.specs.declared.refusals.Refusal.TheVariants as refusal;

/// Why an entry is not taken.
#[derive(Clone, Copy, PartialEq, Eq, Debug)]
pub enum Refusal {
    /// A label that has no character, or more than 32.
    LabelLength = 10,
    /// Another text of a wrong length, a text where the kind has none, or a byte outside 32 to 126.
    Text = 11,
    /// The table is full.
    Full = 12,
    /// A restriction that is not clean, an extension without its dot, a slash in an extension or a main file, no such flag, or no such setting of it.
    Form = 13,
    /// A value or an ignore before any label.
    ValueBeforeLabel = 14,
    /// The columns are not those of a line, or there is no such kind.
    Kind = 15,
}

impl Refusal {
    // The discriminant, by a name that a `From` would not give.
    /// The number that an office reads for it.
    pub fn number(self) -> u8
        ensures number_of_the_refusal { result ≡ number self }
    {
        self as u8
    }
}

impl From<lines::Refusal> for Refusal {
    ghost from_gives = { λ _ r. r ≡ refusal.Kind };

    /// A line with other columns is refused as one of another kind is.
    fn from(_: lines::Refusal) -> Refusal
        ensures columns_are_refused_as_kinds { result ≡ refusal.Kind }
    {
        Refusal::Kind
    }
}
