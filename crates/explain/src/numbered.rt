// The lines of a sheet, each with its number.
ghost use Rattle.std.specs.Prelude.{◌≡◌, length, MatchOption};
ghost use Rattle.std.specs.Iterator.{at_most};
ghost use Rattle.explain.specs.SheetLines.{Ended, NextLine, left_of, lines_before};

use lines::first_line;

// It is `Copy`, so that a line can be looked at before it is taken.
/// The lines of a sheet that are left, each with its number.
#[derive(Clone, Copy)]
pub struct NumberedLines<'a> {
    number: u64,
    rest: &'a [u8],
}

impl<'a> NumberedLines<'a> {
    /// All lines of a sheet, the first with number 1.
    pub fn new(sheet: &'a [u8]) -> NumberedLines<'a>
        ensures no_line_came_before { lines_before result ≡ 0 }
        ensures whole_sheet_is_left { left_of result ≡ sheet.now }
    {
        NumberedLines {
            number: 0,
            rest: sheet,
        }
    }
}

impl<'a> Iterator for NumberedLines<'a> {
    type Item = (u64, &'a [u8]);

    ghost next_gives = { λ s r t. MatchOption r (Ended s t) (λ x. NextLine s x.0 x.1.now t) };

    ghost remaining = { λ s. at_most (length (left_of s)) };

    /// The next line with its number; none at the end of the sheet.
    fn next(&mut self) -> Option<(u64, &'a [u8])> {
        if self.rest.is_empty() {
            return None;
        }
        let (line, rest) = first_line(self.rest);
        self.number = self.number.saturating_add(1);
        self.rest = rest;
        Some((self.number, line))
    }
}
