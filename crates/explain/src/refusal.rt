// Why a line is refused.
ghost use Rattle.std.specs.Prelude.{◌≡◌};
ghost use Rattle.explain.specs.Refusals.{number_of};
ghost use Rattle.explain.specs.declared.refusal.Refusal.TheVariants.{Empty, Line};

use specifier::SpecifierError;

#[derive(Clone, Copy, PartialEq, Eq, Debug)]
pub enum Refusal {
    // its columns or its kind are not those of a line
    Line = 15,
    // no lookup can start from the directory
    Directory = 2,
    // the request is not looked up
    Request = 20,
    // the request has no path
    Empty = 21,
    // a text on the way has more than 255 bytes
    TooLong = 28,
}

impl Refusal {
    // A method and no `From`: the number is the discriminant, in one line.
    /// The number that stands for it.
    pub fn number(self) -> u8
        ensures number_in_the_list { result ≡ number_of self }
    {
        self as u8
    }
}

impl From<lines::Refusal> for Refusal {
    ghost from_gives = { λ _ r. r ≡ Line };

    fn from(_refusal: lines::Refusal) -> Refusal {
        Refusal::Line
    }
}

impl From<SpecifierError> for Refusal {
    ghost from_gives = { λ _ r. r ≡ Empty };

    fn from(_error: SpecifierError) -> Refusal {
        Refusal::Empty
    }
}
