// Why a line of a sheet is refused, be it a question, a line of the listing or one of the settings.
ghost use Rattle.std.specs.Prelude.{◌≡◌, Some};
ghost use Rattle.explain.specs.declared.cause.Cause.TheVariants.{Listing, Question, Setting};
ghost use Rattle.explain.specs.Causes.{cause_number, cause_words, listing_words, question_words, settings_words};

use crate::refusal::Refusal;
use std::fmt;

#[derive(Clone, Copy)]
pub enum Cause {
    Question(Refusal),
    Listing(listing::Refusal),
    Setting(settings::Refusal),
}

// Two of the three types are other crates' and cannot get a `Display` here, so the words are functions.

// What is wrong with a question, in words.
fn question_reason(refusal: Refusal) -> &'static str
    ensures words_of_the_refusal { result.now ≡ question_words refusal }
{
    match refusal {
        Refusal::Line => "its columns or its kind are not those of a line",
        Refusal::Directory =>
            "the directory is no clean path of at most 80 bytes, each at most 127",
        Refusal::Request => "the request has more than 96 bytes, or a byte above 127",
        Refusal::Empty => "the request has no path",
        Refusal::TooLong => "a text on the way has more than 255 bytes",
    }
}

// What is wrong with a line of the listing, in words.
fn listing_reason(refusal: listing::Refusal) -> &'static str
    ensures words_of_the_refusal { result.now ≡ listing_words refusal }
{
    match refusal {
        listing::Refusal::Text => "a text has a wrong length, or a byte outside 32 to 126",
        listing::Refusal::Full => "the listing has 256 lines",
        listing::Refusal::Form => "the path is not clean",
        listing::Refusal::MainBeforeManifest => "no manifest stands before the main text",
        listing::Refusal::Kind => "no line of this kind is listed",
    }
}

// What is wrong with a line of the settings, in words.
fn settings_reason(refusal: settings::Refusal) -> &'static str
    ensures words_of_the_refusal { result.now ≡ settings_words refusal }
{
    match refusal {
        settings::Refusal::LabelLength => "the label has no character, or more than 32",
        settings::Refusal::Text => "a text has a wrong length, or a byte outside 32 to 126",
        settings::Refusal::Full => "its table is full",
        settings::Refusal::Form =>
            "the text has not the form of its kind, or there is no such flag or setting of it",
        settings::Refusal::ValueBeforeLabel => "no label stands before the value",
        settings::Refusal::Kind => "its columns or its kind are not those of a line",
    }
}

impl From<Refusal> for Cause {
    ghost from_gives = { λ refusal cause. cause ≡ Question refusal };

    fn from(refusal: Refusal) -> Cause {
        Self::Question(refusal)
    }
}

impl From<listing::Refusal> for Cause {
    ghost from_gives = { λ refusal cause. cause ≡ Listing refusal };

    fn from(refusal: listing::Refusal) -> Cause {
        Self::Listing(refusal)
    }
}

impl From<settings::Refusal> for Cause {
    ghost from_gives = { λ refusal cause. cause ≡ Setting refusal };

    fn from(refusal: settings::Refusal) -> Cause {
        Self::Setting(refusal)
    }
}

impl Cause {
    // A method and no `Display`, which writes the words: each of the three types has its own number.
    /// The number that stands for it.
    pub fn number(self) -> u8
        ensures number_in_the_list { result ≡ cause_number self }
    {
        match self {
            Cause::Question(refusal) => refusal.number(),
            Cause::Listing(refusal) => refusal.number(),
            Cause::Setting(refusal) => refusal.number(),
        }
    }
}

// What is wrong, in words.
impl fmt::Display for Cause {
    ghost output = { λ c. Some (cause_words c) };

    fn fmt<W: fmt::Write>(&self, f: &mut fmt::Formatter<W>) -> fmt::Result {
        f.write_str(match *self {
            Cause::Question(refusal) => question_reason(refusal),
            Cause::Listing(refusal) => listing_reason(refusal),
            Cause::Setting(refusal) => settings_reason(refusal),
        })
    }
}
