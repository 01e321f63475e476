// Why a line of a sheet is refused.
ghost use Rattle.std.specs.Prelude.{◌≡◌};
ghost use Rattle.sheets.specs.Refusals.{number};
ghost use Rattle.sheets.specs.declared.refusal.Refusal.TheVariants as refused;

/// Why a line of a sheet is refused.
#[derive(Clone, Copy, PartialEq, Eq, Debug)]
pub enum Refusal {
    /// Its columns or its lengths are not those of a line.
    Line,
    /// The listing does not take it.
    Listing(listing::Refusal),
    /// The settings do not take it.
    Setting(settings::Refusal),
    /// It is of the kind that lets go, and has a text.
    Texts,
    /// It is an entry behind the first call.
    Closed,
}

impl Refusal {
    // A method and no `From`: each of the three types below has its own number.
    /// The number that stands for it.
    pub fn number(self) -> u8
        ensures number_of_the_refusal { result ≡ number self }
    {
        match self {
            Refusal::Line => lines::Refusal::BadLine.number(),
            Refusal::Listing(refusal) => refusal.number(),
            Refusal::Setting(refusal) => refusal.number(),
            Refusal::Texts => listing::Refusal::Text.number(),
            Refusal::Closed => listing::Refusal::Form.number(),
        }
    }
}

impl From<lines::Refusal> for Refusal {
    ghost from_gives = { λ _ r. r ≡ refused.Line };

    fn from(_refusal: lines::Refusal) -> Refusal {
        Self::Line
    }
}

impl From<listing::Refusal> for Refusal {
    ghost from_gives = { λ refusal r. r ≡ refused.Listing refusal };

    fn from(refusal: listing::Refusal) -> Refusal {
        Self::Listing(refusal)
    }
}

impl From<settings::Refusal> for Refusal {
    ghost from_gives = { λ refusal r. r ≡ refused.Setting refusal };

    fn from(refusal: settings::Refusal) -> Refusal {
        Self::Setting(refusal)
    }
}
