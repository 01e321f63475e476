// The lines of a sheet, which have three numbers in columns and two texts, and the row of numbers of an answer.
#![tactic(auto)]

ghost use Rattle.std.specs.Prelude.{◌≡◌, ◌+◌, ◌≤◌, true, false, ◌++◌, length, take, IfOk, IfErr, Some, MatchOption};
ghost use Rattle.std.specs.Option.{ok_or};
ghost use Rattle.std.specs.Result.{result_map_both};
ghost use Rattle.lines.specs.Columns.{have_room, number_at, written};
ghost use Rattle.lines.specs.Sheets.{has_blanks, head_numbers, head_of, number_of, content_of, row_numbers, said, Shows};
ghost use Rattle.lines.specs.declared.Refusal.TheVariants.{BadLine};

mod columns;
mod split;

use columns::write_columns;
pub use columns::{read_column, write_column};
pub use split::first_line;

/// How long the head of a line is: three columns, with a blank behind each.
pub const HEAD_LEN: usize = 12;

/// Why a line is refused: it has not its three columns, or not the texts of these lengths behind them.
#[derive(Clone, Copy, PartialEq, Eq, Debug)]
pub enum Refusal {
    BadLine = 15,
}

impl Refusal {
    // The discriminant, by a name that a `From` would not give.
    /// The number that a refused line is told by.
    pub fn number(self) -> u8
        ensures gives_its_number { result ≡ number_of self }
    {
        self as u8
    }
}

// The kind stays a number: which kinds there are is for those to say who read the line.
/// The three numbers at the front of a line.
#[derive(Clone, Copy, PartialEq, Eq, Debug)]
pub struct Head {
    pub kind: u16,
    pub first: u16,
    pub second: u16,
}

// The number in the column at place `at` of a line.
#[tactic(auto, unfolding(crate::specs::Columns::number_at))]
fn column_at(line: &[u8], at: usize) -> Result<u16, Refusal>
    requires within_the_line { at + 3 ≤ length line.now }
    ensures number_in_the_column { result ≡ ok_or (number_at line.now at) BadLine }
{
    read_column([line[at], line[at + 1], line[at + 2]]).ok_or(Refusal::BadLine)
}

// Whether a line has blanks between the columns and behind them.
#[tactic(auto, unfolding(crate::specs::Sheets::has_blanks))]
fn has_blanks(line: &[u8]) -> bool
    ensures blanks_behind_the_columns { result ≡ has_blanks line.now }
    ensures at_least_12_bytes_if_true { result ≡ true → 12 ≤ length line.now }
{
    line.len() >= HEAD_LEN && line[3] == b' ' && line[7] == b' ' && line[11] == b' '
}

impl Head {
    /// The head of a line, whatever stands behind it.
    #[tactic(auto, unfolding(crate::specs::Sheets::head_of))]
    pub fn read(line: &[u8]) -> Result<Head, Refusal>
        ensures reads_the_head { result ≡ ok_or (head_of line.now) BadLine }
        ensures refuses_with_15 { IfErr result (λ e. number_of e ≡ 15) }
    {
        if !has_blanks(line) {
            return Err(Refusal::BadLine);
        }
        let kind = column_at(line, 0)?;
        let first = column_at(line, 4)?;
        let second = column_at(line, 8)?;
        Ok(Head {
            kind,
            first,
            second,
        })
    }

    /// The three columns, with a blank behind each.
    pub fn write(self) -> Option<[u8; HEAD_LEN]>
        ensures writes_the_head { result ≡ written (head_numbers self) }
        ensures reads_back { MatchOption result (have_room (head_numbers self) ≡ false) (λ bytes. head_of bytes ≡ Some self) }
    {
        write_columns(&[self.kind, self.first, self.second])
    }
}

// The kind stays a number, as in a head.
/// A line: its kind and its two texts.
#[derive(Clone, Copy, Debug)]
pub struct Line<'a> {
    pub kind: u16,
    pub first: &'a [u8],
    pub second: &'a [u8],
}

impl<'a> Line<'a> {
    /// A line whose head is followed by both texts and nothing else.
    #[tactic(auto, unfolding(crate::specs::Sheets::content_of))]
    pub fn read(line: &'a [u8]) -> Result<Line<'a>, Refusal>
        ensures reads_the_line { result_map_both said (λ e. e) result ≡ ok_or (content_of line.now) BadLine }
        ensures nothing_but_head_and_texts { IfOk result (λ l. line.now ≡ take 12 line.now ++ (l.first.now ++ l.second.now)) }
        ensures refuses_with_15 { IfErr result (λ e. number_of e ≡ 15) }
    {
        let head = Head::read(line)?;
        let middle = HEAD_LEN + head.first as usize;
        if line.len() != middle + head.second as usize {
            return Err(Refusal::BadLine);
        }
        Ok(Line {
            kind: head.kind,
            first: &line[HEAD_LEN..middle],
            second: &line[middle..],
        })
    }
}

/// The numbers of an answer.
#[derive(Clone, Copy, PartialEq, Eq, Debug)]
pub struct Row {
    pub number: u16,
    pub rounds: u16,
    pub first: u16,
    pub second: u16,
    pub third: u16,
}

impl Row {
    /// The five columns, with a blank behind each.
    pub fn write(self) -> Option<[u8; 20]>
        ensures writes_the_row { result ≡ written (row_numbers self) }
        ensures reads_back { MatchOption result (have_room (row_numbers self) ≡ false) (λ bytes. Shows bytes self) }
    {
        write_columns(&[
            self.number,
            self.rounds,
            self.first,
            self.second,
            self.third,
        ])
    }
}
