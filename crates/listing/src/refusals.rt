// Why a line is not taken.
ghost use Rattle.std.specs.Prelude.{◌≡◌};
ghost use Rattle.listing.specs.Kinds.{number};

/// Why a line is not taken.
#[derive(Clone, Copy, PartialEq, Eq, Debug)]
pub enum Refusal {
    /// A length or a byte that the kind does not take.
    Text = 11,
    /// There are 256 lines.
    Full = 12,
    /// A path that is not clean.
    Form = 13,
    /// A main text before the first manifest that is not broken.
    MainBeforeManifest = 14,
    /// There is no such kind.
    Kind = 15,
}

impl Refusal {
    // The discriminant, by a name that a `From` would not give.
    /// The number that an office reads for it.
    pub fn number(self) -> u8
        ensures number_of_the_refusal { result ≡ number self }
    {
        self as u8
    }
}
