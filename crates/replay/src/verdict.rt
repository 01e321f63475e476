// What is found of a stored sheet.
ghost use Rattle.std.specs.Prelude.{◌≡◌, false, IfErr, IfOk, IfSome, IsUtf8, is_some, not};
ghost use Rattle.replay.specs.Cases.{judged, stored};
ghost use Rattle.replay.specs.Verdicts.{judged_of};

use crate::case::Case;
use crate::comparison::{count_rows, count_same_rows, first_other_row};
use crate::summary::Differing;
use std::str::Utf8Error;
use texts::same_bytes;

/// What is found of a stored sheet.
#[derive(Clone, Copy, Debug)]
pub struct Verdict<'a> {
    pub case: Case<'a>,
    /// whether every byte is the same
    pub agrees: bool,
    pub rows: usize,
    pub same_rows: usize,
    /// the first row that is another, counted from 1
    pub other_row: Option<usize>,
}

impl<'a> Verdict<'a> {
    /// A stored sheet beside what was answered for it.
    pub fn of(case: Case<'a>, answered: &[u8]) -> Verdict<'a>
        ensures compares_every_byte_and_each_row { judged result ≡ judged_of (stored case.entry) answered.now }
    {
        Verdict {
            case,
            agrees: same_bytes(answered, case.rows),
            rows: count_rows(case.rows),
            same_rows: count_same_rows(answered, case.rows),
            other_row: first_other_row(answered, case.rows),
        }
    }
    /// What is told of the sheet: nothing if it agrees. A name that is no text is an error.
    pub fn differing(&self) -> Result<Option<Differing<'a>>, Utf8Error>
        ensures refused_only_if_the_name_of_a_sheet_that_differs_is_no_text { IfErr result (λ _. (self.now.agrees ≡ false) × (¬ (IsUtf8 self.now.case.name.now))) }
        ensures told_exactly_if_it_differs { IfOk result (λ told. is_some told ≡ not self.now.agrees) }
        ensures group_name_and_row_of_the_sheet { IfOk result (λ told. IfSome told (λ d. (d.group ≡ self.now.case.group) × (d.name.now ≡ self.now.case.name.now) × (d.other_row ≡ self.now.other_row))) }
    {
        if self.agrees {
            return Ok(None);
        }
        let name = str::from_utf8(self.case.name)?;
        Ok(Some(Differing {
            group: self.case.group,
            name,
            other_row: self.other_row,
        }))
    }
}
