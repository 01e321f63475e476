// What a call answers.
ghost use Rattle.std.specs.Prelude.{◌≡◌};
ghost use Rattle.lookup.specs.Resolutions.{error_number};

/// Why a call hands out no path, by the number that an office and a firmware read.
#[derive(Clone, Copy, PartialEq, Eq, Debug)]
pub enum ResolveError {
    /// Too little memory was lent.
    NoMemory = 1,
    /// No lookup can start from the directory: it is not clean, has more than 80 bytes, or one above 127.
    Directory = 2,
    /// The request is not looked up: it has more than 96 bytes, or one above 127.
    Request = 20,
    /// A text has no path.
    Empty = 21,
    /// Nothing was found.
    NotFound = 22,
    /// A label's values were tried in vain.
    MatchedAliasNotFound = 23,
    /// A label ignores the request.
    Ignored = 24,
    /// All rounds were run.
    Recursion = 27,
    /// A text would pass 255 bytes.
    TooLong = 28,
    /// A manifest is broken.
    BrokenManifest = 30,
    /// A lookup of the host is broken.
    BrokenLookup = 31,
}

impl ResolveError {
    // The discriminant, by a name that a `From` would not give.
    /// The number that stands for it.
    pub fn number(self) -> u8
        ensures number_of_the_error { result ≡ error_number self }
    {
        self as u8
    }
}

/// A path that is handed out: how long it is at the front of the first buffer, and its query and fragment in the second and third, if it has them.
#[derive(Clone, Copy, PartialEq, Eq, Debug)]
pub struct Found {
    pub path: usize,
    pub query: Option<usize>,
    pub fragment: Option<usize>,
}

/// A call that hands out no path: why, and how long its texts are at the front of the first and the second buffer, if it has them.
#[derive(Clone, Copy, PartialEq, Eq, Debug)]
pub struct Refused {
    pub error: ResolveError,
    pub first: Option<usize>,
    pub second: Option<usize>,
}

/// What a call answers, after how many rounds.
#[derive(Clone, Copy, PartialEq, Eq, Debug)]
pub struct Resolution {
    pub outcome: Result<Found, Refused>,
    pub rounds: usize,
}
