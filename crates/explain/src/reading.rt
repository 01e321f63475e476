// How a request is read: what the box makes of it before it looks for a file.
ghost use Rattle.std.specs.Prelude.{◌≡◌, ◌<◌, length, MatchOption};
ghost use Rattle.std.specs.Option.{option_map as mapped_option};
ghost use Rattle.std.specs.Result.{result_map_both};
ghost use Rattle.texts.specs.Held.{bytes_of};
ghost use Rattle.texts.specs.Parts.{text_at};
ghost use Rattle.specifier.specs.Requests.{unescaped};
ghost use Rattle.specifier.specs.Sought.{sought_path};
ghost use Rattle.explain.specs.Readings.{PathsAreSought, fragment_first, meant, said, within};

use crate::question::Question;
use crate::refusal::Refusal;
use specifier::{Branch, Specifier, is_directory, is_request, write_sought_path};
use texts::{MAX_LEN, Text};

/// A request taken apart, its path without escapes, the way it goes and the path that it looks for.
#[derive(Clone, Copy)]
pub struct Reading {
    pub specifier: Specifier,
    pub path: Text<MAX_LEN>,
    pub branch: Branch,
    pub sought: Option<Text<MAX_LEN>>,
}

// The caller lends the memory, by a rule of the project, so a buffer and a length stand side by side in the next two.
// The path of a request, without escapes.
fn path_of(specifier: Specifier, request: &[u8]) -> Option<Text<MAX_LEN>>
    ensures unescaped_path_if_short { MatchOption result (255 < length (unescaped (text_at request.now specifier.path))) (λ t. bytes_of t ≡ unescaped (text_at request.now specifier.path)) }
{
    let mut bytes = [0; MAX_LEN];
    let len = specifier.write_path(request, &mut bytes)?;
    Text::new(&bytes[0..len])
}

/// The path that a question looks for, if there is one of at most 255 bytes; its request has no escapes.
pub fn sought(question: Question) -> Option<Text<MAX_LEN>>
    ensures sought_path_if_short { mapped_option bytes_of result ≡ within (sought_path question.entry.directory.now question.entry.request.now) }
{
    let mut bytes = [0; MAX_LEN];
    let len = write_sought_path(question.directory, question.request, &mut bytes)?;
    Text::new(&bytes[0..len])
}

impl Reading {
    /// Reads the request of a question from its directory, or says why it is refused.
    pub fn of(question: Question) -> Result<Reading, Refusal>
        ensures read_as_it_is_meant { result_map_both (said question.entry.request.now) (λ e. e) result ≡ meant question.entry.directory.now question.entry.request.now }
        ensures paths_are_sought { PathsAreSought question.entry.directory.now question.entry.request.now }
    {
        let Question { directory, request } = question;
        if !is_directory(directory) {
            return Err(Refusal::Directory);
        }
        if !is_request(request) {
            return Err(Refusal::Request);
        }
        let specifier = Specifier::parse(request)?;
        let path = path_of(specifier, request).ok_or(Refusal::TooLong)?;
        let branch = Branch::of(path.as_bytes());
        let sought = sought(Question {
            directory,
            request: path.as_bytes(),
        });
        Ok(Reading {
            specifier,
            path,
            branch,
            sought,
        })
    }

    /// The path with its fragment, which is looked up first where a request has a fragment and no query.
    pub fn with_fragment(&self, request: &[u8]) -> Option<Text<MAX_LEN>>
        ensures path_and_fragment_without_a_query { mapped_option bytes_of result ≡ within (fragment_first (said request.now self.now)) }
    {
        if self.specifier.query.is_some() {
            return None;
        }
        let fragment = self.specifier.fragment?;
        let mut text = self.path;
        text.push_text(fragment.of(request)).ok()?;
        Some(text)
    }
}
