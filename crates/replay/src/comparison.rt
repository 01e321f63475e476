// The rows of the port beside those of the original.
ghost use Rattle.std.specs.Prelude.{◌≡◌, ◌==◌, count_by, length};
ghost use Rattle.lines.specs.Sheets.{LINE_END};
ghost use Rattle.replay.specs.Verdicts.{first_other, rows_in_common};

use lines::first_line;
use texts::same_bytes;

/// How many rows a text has.
pub fn count_rows(rows: &[u8]) -> usize
    ensures one_for_each_line_end { result ≡ count_by (λ b. b == LINE_END) rows.now }
{
    rows.iter().filter(|b| **b == b'\n').count()
}

// The rows of two texts side by side: for each stored row, whether it was answered in its place.
#[derive(Drop)]
struct SideBySide<'a> {
    answered: &'a [u8],
    stored: &'a [u8],
}

impl Iterator for SideBySide<'_> {
    ghost use Rattle.std.specs.Iterator.{YieldsFirst, at_most};
    ghost use Rattle.replay.specs.Remaining.{rows_left};

    type Item = bool;

    ghost next_gives = { YieldsFirst rows_left };

    ghost remaining = { λ sides. at_most (length sides.stored.now) };

    fn next(&mut self) -> Option<bool> {
        if self.stored.is_empty() {
            return None;
        }
        let (our_row, our_rest) = first_line(self.answered);
        let (their_row, their_rest) = first_line(self.stored);
        self.answered = our_rest;
        self.stored = their_rest;
        Some(same_bytes(our_row, their_row))
    }
}

/// How many of the stored rows were answered, each in its place.
pub fn count_same_rows(answered: &[u8], stored: &[u8]) -> usize
    ensures rows_in_common_place_by_place { result ≡ rows_in_common (length stored.now) answered.now stored.now }
{
    let sides = SideBySide { answered, stored };
    sides.filter(|same| *same).count()
}

/// The number of the first stored row that was not answered in its place, counted from 1.
pub fn first_other_row(answered: &[u8], stored: &[u8]) -> Option<usize>
    ensures first_row_that_is_another { result ≡ first_other (length stored.now) 1 answered.now stored.now }
{
    let mut sides = SideBySide { answered, stored };
    sides.position(|same| !same).map(|before| before + 1)
}
