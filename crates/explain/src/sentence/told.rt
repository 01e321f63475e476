// The sentence on a request that is read.
ghost use Rattle.std.specs.Prelude.{◌≡◌, Some};
ghost use Rattle.std.specs.Option.{option_map};
ghost use Rattle.texts.specs.Held.{bytes_of};
ghost use Rattle.specifier.specs.Requests.{piece_at};
ghost use Rattle.explain.specs.Answers.{heard};
ghost use Rattle.explain.specs.Readings.{reading_in, said};
ghost use Rattle.explain.specs.Told.{heard_words, kind_words, looking_words, piece_words, told, way_words};

use crate::answer::Answer;
use crate::question::Question;
use crate::reading::Reading;
use crate::shown::Shown;
use specifier::Branch;
use std::fmt;
use texts::{MAX_LEN, Place, Text};
use tree::Kind;

// A query or fragment with its name, or that there is none.
#[derive(Clone, Copy)]
pub(super) struct Piece<'a> {
    pub(super) name: &'static str,
    pub(super) text: Option<&'a [u8]>,
}

impl fmt::Display for Piece<'_> {
    ghost output = { λ p. Some (piece_words p.name.now (option_map (λ t. t.now) p.text)) };

    fn fmt<W: fmt::Write>(&self, f: &mut fmt::Formatter<W>) -> fmt::Result {
        let name = self.name;
        match self.text {
            Some(text) => write!(f, ", {name} {}", Shown(text)),
            None => write!(f, ", no {name}"),
        }
    }
}

// The path that is looked for.
#[derive(Clone, Copy)]
struct Looking<'a> {
    way: &'static str,
    sought: Option<&'a [u8]>,
}

impl fmt::Display for Looking<'_> {
    ghost output = { λ l. Some (looking_words l.way.now (option_map (λ t. t.now) l.sought)) };

    fn fmt<W: fmt::Write>(&self, f: &mut fmt::Formatter<W>) -> fmt::Result {
        let way = self.way;
        match self.sought {
            Some(path) => write!(f, "; it is {way} and looks for {}", Shown(path)),
            None => write!(f, "; it is {way} and looks for no path"),
        }
    }
}

// The way, and the path that is looked for.
#[derive(Clone, Copy)]
struct WayWords<'a> {
    branch: Branch,
    sought: Option<&'a [u8]>,
}

impl fmt::Display for WayWords<'_> {
    ghost output = { λ w. Some (way_words w.branch (option_map (λ t. t.now) w.sought)) };

    fn fmt<W: fmt::Write>(&self, f: &mut fmt::Formatter<W>) -> fmt::Result {
        let sought = self.sought;
        match self.branch {
            Branch::Absolute => write!(
                f,
                "{}",
                Looking {
                    way: "absolute",
                    sought
                }
            ),
            Branch::Relative => write!(
                f,
                "{}",
                Looking {
                    way: "relative",
                    sought
                }
            ),
            Branch::Hash => write!(f, "; it goes to hash lookup"),
            Branch::Package => write!(f, "; it goes to package lookup"),
        }
    }
}

// What stands at a path, in words: a function, since the type is another crate's.
fn kind_name(kind: Kind) -> &'static str
    ensures words_of_the_kind { result.now ≡ kind_words kind }
{
    match kind {
        Kind::Nothing => "which is nothing",
        Kind::File => "which is a file",
        Kind::Directory => "which is a directory",
    }
}

impl fmt::Display for Answer {
    ghost output = { λ a. Some (heard_words (heard a)) };

    fn fmt<W: fmt::Write>(&self, f: &mut fmt::Formatter<W>) -> fmt::Result {
        match self {
            Answer::Kind(kind) => write!(f, ", {}", kind_name(*kind)),
            Answer::NoPath => Ok(()),
            Answer::Found(path) => write!(f, ", which finds {}", Shown(path.as_bytes())),
            Answer::Missing => write!(f, ", which finds nothing"),
            Answer::Broken => write!(f, ", which is broken"),
        }
    }
}

/// How a request is read, which way it goes, what it looks for and what the host says of that.
#[derive(Clone, Copy)]
pub struct Told<'a> {
    line: u64,
    question: Question<'a>,
    path: &'a [u8],
    query: Option<&'a [u8]>,
    fragment: Option<&'a [u8]>,
    branch: Branch,
    sought: Option<&'a [u8]>,
    answer: Answer,
}

// A piece of the request by its place.
fn piece_of(place: Option<Place>, request: &[u8]) -> Option<&[u8]>
    ensures text_at_its_place { option_map (λ t. t.now) result ≡ piece_at request.now place }
{
    place.map(|place| place.of(request))
}

// The bytes of a text, if there is one.
fn bytes_in(text: &Option<Text<MAX_LEN>>) -> Option<&[u8]>
    ensures bytes_of_the_text { option_map (λ t. t.now) result ≡ option_map bytes_of text.now }
{
    text.as_ref().map(|text| text.as_bytes())
}

impl<'a> Told<'a> {
    /// What is told of a line with this question, reading and answer.
    pub fn of(line: u64, question: Question<'a>, reading: &'a Reading, answer: Answer) -> Told<'a>
        ensures of_the_line_and_its_question { (result.line ≡ line) × (result.question ≡ question.entry) }
        ensures of_the_reading { reading_in result ≡ said question.entry.request.now reading.now }
        ensures of_the_answer { result.answer ≡ answer }
    {
        Told {
            line,
            question,
            path: reading.path.as_bytes(),
            query: piece_of(reading.specifier.query, question.request),
            fragment: piece_of(reading.specifier.fragment, question.request),
            branch: reading.branch,
            sought: bytes_in(&reading.sought),
            answer,
        }
    }
}

impl fmt::Display for Told<'_> {
    ghost output = { λ t. Some (told t.line t.question.directory.now t.question.request.now (reading_in t) (heard t.answer)) };

    fn fmt<W: fmt::Write>(&self, f: &mut fmt::Formatter<W>) -> fmt::Result {
        let (line, question, path) = (self.line, self.question, Shown(self.path));
        let (directory, request) = (Shown(question.directory), Shown(question.request));
        let query = Piece {
            name: "query",
            text: self.query,
        };
        let fragment = Piece {
            name: "fragment",
            text: self.fragment,
        };
        let way = WayWords {
            branch: self.branch,
            sought: self.sought,
        };
        write!(
            f,
            "Line {line}: from {directory}, {request} is read as path {path}"
        )?;
        write!(f, "{query}{fragment}{way}{}", self.answer)
    }
}
