// A request as its path, its query and its fragment.
ghost use Rattle.std.specs.Prelude.{◌≡◌, ◌<◌, ◌≤◌, true, false, length, drop, IfOk, Some};
ghost use Rattle.specifier.specs.Requests.{skip, fragment_at, query_at, unescaped, raw_path, query_of, fragment_of, specifier_of, place_between, number};
ghost use Rattle.specifier.specs.Rules.{AllPath, Holds, marked, together};
ghost use Rattle.texts.specs.Parts.{text_at};
ghost use Rattle.texts.specs.Texts.{HASH, QUESTION, has, length_in, buffer_with};

use crate::escape::write_unescaped;
use crate::scan::until_hash;
use texts::{Place, position};

const QUERY_MARK: u8 = b'?';

// Places, by a rule of the project: an absent query or fragment is `None`, a present one `Some` place.
/// Where the pieces of a request stand in it: the path as it is written, the query from its `?` on and the fragment from its `#` on.
#[derive(Clone, Copy, PartialEq, Eq, Debug)]
pub struct Specifier {
    pub path: Place,
    pub query: Option<Place>,
    pub fragment: Option<Place>,
}

/// Why a request cannot be read.
#[derive(Clone, Copy, PartialEq, Eq, Debug)]
pub enum SpecifierError {
    Empty = 21,
}

impl SpecifierError {
    // The discriminant, by a name that a `From` would not give.
    /// The number that this fault is told by.
    pub fn number(self) -> u8
        ensures number_of_the_fault { result ≡ number self }
    {
        self as u8
    }
}

/// The place from `start` to `end`; none if nothing stands there.
fn between(start: usize, end: usize) -> Option<Place>
    ensures place_if_not_empty { result ≡ place_between start end }
{
    if start < end {
        Some(Place {
            start,
            len: end - start,
        })
    } else {
        None
    }
}

/// Where the fragment starts, or the request's length; the scan goes from `from` on.
fn fragment_start(request: &[u8], from: usize) -> usize
    requires not_empty { 0 < length request.now }
    requires passes_over { from ≡ skip request.now }
    ensures start_of_the_fragment { result ≡ fragment_at request.now }
    ensures within_the_request { (from ≤ result) × (result ≤ length request.now) }
{
    from + until_hash(request[0], &request[from..])
}

/// Where the query starts, or `end`, where the fragment starts; the scan goes from `from` on.
fn query_start(request: &[u8], from: usize, end: usize) -> usize
    requires passes_over { from ≡ skip request.now }
    requires ends_at_the_fragment { end ≡ fragment_at request.now }
    requires within_the_request { (from ≤ end) × (end ≤ length request.now) }
    ensures start_of_the_query { result ≡ query_at request.now }
{
    from + position(&request[from..end], QUERY_MARK)
}

impl Specifier {
    /// Reads a request; one without a path is refused.
    pub fn parse(request: &[u8]) -> Result<Specifier, SpecifierError>
        ensures reads_the_request { result ≡ specifier_of request.now }
        ensures places_hold_the_pieces { IfOk result (Holds request.now) }
        ensures all_path_without_marks { has QUESTION request.now ≡ false → has HASH request.now ≡ false → AllPath request.now }
        ensures pieces_give_the_request_back { together request.now ≡ request.now }
        ensures query_begins_with_its_mark { marked QUESTION (query_of request.now) ≡ true }
        ensures fragment_begins_with_its_mark { marked HASH (fragment_of request.now) ≡ true }
        ensures no_query_mark_in_the_path { has QUESTION (drop (skip request.now) (raw_path request.now)) ≡ false }
    {
        let from = match request {
            [] => return Err(SpecifierError::Empty),
            [b'/' | b'.' | b'#', ..] => 1,
            [_, ..] => 0,
        };
        let fragment_at = fragment_start(request, from);
        let query_at = query_start(request, from, fragment_at);
        let path = between(0, query_at).ok_or(SpecifierError::Empty)?;
        let query = between(query_at, fragment_at);
        let fragment = between(fragment_at, request.len());
        Ok(Specifier {
            path,
            query,
            fragment,
        })
    }

    // The caller lends the buffer, by a rule of the project.
    /// Copies the path of `request` without its escapes to the front of `out`, and says how long it is; none, and `out` as it was, if it does not fit.
    pub fn write_path(self, request: &[u8], out: &mut [u8]) -> Option<usize>
        ensures length_if_it_fits { result ≡ length_in (Some (unescaped (text_at request.now self.path))) (length out.old) }
        ensures bytes_if_it_fits { out.new ≡ buffer_with (Some (unescaped (text_at request.now self.path))) out.old }
    {
        write_unescaped(self.path.of(request), out)
    }
}
