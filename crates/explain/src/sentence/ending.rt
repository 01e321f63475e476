// The sentences of the resolver: what a lookup ends in, that it forgets, and how many paths it handed out.
ghost use Rattle.std.specs.Prelude.{◌≡◌, Some};
ghost use Rattle.std.specs.Option.{option_map};
ghost use Rattle.explain.specs.Ends.{end_in, end_sentence, forgot_sentence, front_text, named_words, rounds_words, tally_sentence};

use crate::ending::LookupEnd;
use crate::sentence::told::Piece;
use crate::shown::Shown;
use std::fmt;
use texts::Place;

// A text with the word in front of it, if there is one.
#[derive(Clone, Copy)]
struct Named<'a> {
    word: &'static str,
    text: Option<&'a [u8]>,
}

impl fmt::Display for Named<'_> {
    ghost output = { λ n. Some (named_words n.word.now (option_map (λ t. t.now) n.text)) };

    fn fmt<W: fmt::Write>(&self, f: &mut fmt::Formatter<W>) -> fmt::Result {
        let word = self.word;
        match self.text {
            Some(text) => write!(f, "{word}{}", Shown(text)),
            None => Ok(()),
        }
    }
}

// The rounds run.
#[derive(Clone, Copy)]
struct Rounds(usize);

impl fmt::Display for Rounds {
    ghost output = { λ r. Some (rounds_words r.0) };

    fn fmt<W: fmt::Write>(&self, f: &mut fmt::Formatter<W>) -> fmt::Result {
        let rounds = self.0;
        if rounds == 1 {
            write!(f, ", after 1 round")
        } else {
            write!(f, ", after {rounds} rounds")
        }
    }
}

// The text at the front of a buffer, by its length, if it has one.
fn front_of(len: Option<usize>, buffer: &[u8]) -> Option<&[u8]>
    ensures as_much_as_its_length { option_map (λ t. t.now) result ≡ front_text len buffer.now }
{
    len.map(|len| Place { start: 0, len }.of(buffer))
}

impl fmt::Display for LookupEnd {
    ghost output = { λ e. Some (end_sentence (end_in e)) };

    fn fmt<W: fmt::Write>(&self, f: &mut fmt::Formatter<W>) -> fmt::Result {
        let rounds = Rounds(self.resolution.rounds);
        match self.resolution.outcome {
            Ok(found) => {
                let path = Place {
                    start: 0,
                    len: found.path,
                };
                let query = Piece {
                    name: "query",
                    text: front_of(found.query, &self.second),
                };
                let fragment = Piece {
                    name: "fragment",
                    text: front_of(found.fragment, &self.third),
                };
                let path = Shown(path.of(&self.first));
                write!(f, "  The lookup ends in {path}{query}{fragment}{rounds}")
            }
            Err(refused) => {
                let number = refused.error.number();
                let first = Named {
                    word: " on ",
                    text: front_of(refused.first, &self.first),
                };
                let second = Named {
                    word: " and ",
                    text: front_of(refused.second, &self.second),
                };
                write!(
                    f,
                    "  The lookup is refused with {number}{first}{second}{rounds}"
                )
            }
        }
    }
}

/// That a line made the resolver forget.
#[derive(Clone, Copy)]
pub struct Forgot {
    pub line: u64,
}

impl fmt::Display for Forgot {
    ghost output = { λ s. Some (forgot_sentence s.line) };

    fn fmt<W: fmt::Write>(&self, f: &mut fmt::Formatter<W>) -> fmt::Result {
        let line = self.line;
        write!(
            f,
            "Line {line} makes the resolver forget what it held to answer faster"
        )
    }
}

/// How many paths the resolver handed out.
#[derive(Clone, Copy)]
pub struct Tally {
    pub paths: u32,
}

impl fmt::Display for Tally {
    ghost output = { λ t. Some (tally_sentence t.paths) };

    fn fmt<W: fmt::Write>(&self, f: &mut fmt::Formatter<W>) -> fmt::Result {
        let paths = self.paths;
        write!(f, "The tally of paths handed out is {paths}")
    }
}
