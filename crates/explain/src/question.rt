// A line behind the front: it asks with a directory and a request, or makes the resolver forget.
ghost use Rattle.std.specs.Prelude.{◌≡◌};
ghost use Rattle.std.specs.Result.{result_map_both};
ghost use Rattle.lines.specs.Sheets.{content_of};
ghost use Rattle.explain.specs.Questions.{asked, blamed, forgets, order_of, ordered, question_of};

use crate::refusal::Refusal;
use lines::Line;

// Numbers, since a sheet may write any.
/// The kind of the line that asks.
const ASKS: u16 = 40;

/// The kind of the line that makes the resolver forget.
const FORGETS: u16 = 41;

// Beside the pair of `alias`: this one is read off a line and blamed, by calls that a type of another crate cannot have.
#[derive(Clone, Copy)]
pub struct Question<'a> {
    pub directory: &'a [u8],
    pub request: &'a [u8],
}

impl<'a> Question<'a> {
    /// The question in a line of kind 40; any other line is refused.
    pub fn read(line: &'a [u8]) -> Result<Question<'a>, Refusal>
        ensures question_in_the_line { result_map_both asked (λ e. e) result ≡ question_of line.now }
    {
        let line = Line::read(line)?;
        if line.kind != ASKS {
            return Err(Refusal::Line);
        }
        Ok(Question {
            directory: line.first,
            request: line.second,
        })
    }

    /// The text that a refusal is about.
    pub fn to_blame(self, refusal: Refusal) -> &'a [u8]
        ensures directory_or_request { result.now ≡ blamed refusal (asked self.entry) }
    {
        match refusal {
            Refusal::Directory => self.directory,
            _ => self.request,
        }
    }
}

/// What a line behind the front says.
#[derive(Clone, Copy)]
pub enum Order<'a> {
    Ask(Question<'a>),
    Forget,
}

// Whether a line makes the resolver forget: its kind is 41, and it has no texts.
fn is_forget(line: &[u8]) -> bool
    ensures kind_41_without_texts { result ≡ forgets (content_of line.now) }
{
    Line::read(line).is_ok_and(|line| line.kind == FORGETS
        && line.first.is_empty()
        && line.second.is_empty())
}

impl<'a> Order<'a> {
    /// The question in a line of kind 40, or the forget in one of kind 41 without texts; any other line is refused.
    pub fn read(line: &'a [u8]) -> Result<Order<'a>, Refusal>
        ensures order_in_the_line { result_map_both ordered (λ e. e) result ≡ order_of line.now }
    {
        if is_forget(line) {
            return Ok(Order::Forget);
        }
        Question::read(line).map(Order::Ask)
    }
}
