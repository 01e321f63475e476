// What a line lists, what its texts may be, and what can be asked of it.
ghost use Rattle.std.specs.Prelude.{◌≡◌};
ghost use Rattle.std.specs.Option.{ok_or};
ghost use Rattle.listing.specs.Kinds.{formed, line_kind, sized};

use crate::refusals::Refusal;
use texts::{MAX_LEN, is_clean};
use tree::{MAX_MAIN, Way};

// The longest request, in bytes: a number of its own, since what a sheet lists is not what a lookup accepts.
const MAX_REQUEST: usize = 96;

/// What a line lists.
#[derive(Clone, Copy, PartialEq, Eq, Debug)]
pub enum LineKind {
    File,
    Directory,
    BrokenManifest,
    Manifest,
    Main,
    Package,
    Hash,
}

/// What is asked about a text: the kind or the manifest at a path, or where a request leads.
#[derive(Clone, Copy)]
pub enum Topic {
    Kind,
    Manifest,
    Lookup(Way),
}

impl TryFrom<u16> for LineKind {
    ghost use Rattle.listing.specs.declared.refusals.Refusal.{Refusal};

    type Error = Refusal;

    ghost try_from_gives = { λ number r. r ≡ ok_or (line_kind number) Refusal.Kind };

    /// The kind that an office gives this number; nothing asks a kind for its number, so they stand here alone.
    fn try_from(number: u16) -> Result<LineKind, Refusal>
        ensures kind_by_its_number { result ≡ ok_or (line_kind number) Refusal.Kind }
    {
        match number {
            1 => Ok(LineKind::File),
            2 => Ok(LineKind::Directory),
            3 => Ok(LineKind::BrokenManifest),
            4 => Ok(LineKind::Manifest),
            5 => Ok(LineKind::Main),
            9 => Ok(LineKind::Package),
            10 => Ok(LineKind::Hash),
            _ => Err(Refusal::Kind),
        }
    }
}

impl LineKind {
    // Whether texts of these lengths may stand in a line of this kind.
    pub(crate) fn takes_lengths(self, first: usize, second: usize) -> bool
        ensures lengths_by_the_kind { result ≡ sized self first second }
    {
        match self {
            LineKind::Main => first <= MAX_MAIN && second == 0,
            LineKind::Package | LineKind::Hash => {
                (1..=MAX_REQUEST).contains(&first) && second <= MAX_LEN
            }
            _ => first <= MAX_LEN && second == 0,
        }
    }

    // Whether the path of a line of this kind has the form of one; an empty second text means that the lookup is broken.
    pub(crate) fn takes_form(self, first: &[u8], second: &[u8]) -> bool
        ensures form_by_the_kind { result ≡ formed self first.now second.now }
    {
        match self {
            LineKind::Main => true,
            LineKind::Package | LineKind::Hash => second.is_empty() || is_clean(second),
            _ => is_clean(first),
        }
    }
}
