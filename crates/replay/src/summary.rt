// What is told of the groups and of the sheets that differ.
ghost use Rattle.std.specs.Prelude.{Some};
ghost use Rattle.replay.specs.Summaries.{differing_words, group_words, summary_words};

use crate::group::Group;
use crate::score::Score;
use std::fmt;

impl fmt::Display for Group {
    ghost output = { λ g. Some (group_words g) };

    fn fmt<W: fmt::Write>(&self, f: &mut fmt::Formatter<W>) -> fmt::Result {
        match *self {
            Group::Sample => write!(f, "samples"),
            Group::Corner => write!(f, "corner cases"),
            Group::Chosen => write!(f, "chosen sheets"),
        }
    }
}

/// How many sheets and rows of a group agree, in a line.
#[derive(Clone, Copy)]
pub struct Summary {
    pub group: Group,
    pub score: Score,
}

impl fmt::Display for Summary {
    ghost output = { λ s. Some (summary_words s.group s.score) };

    fn fmt<W: fmt::Write>(&self, f: &mut fmt::Formatter<W>) -> fmt::Result {
        let (group, score) = (self.group, self.score);
        let (agreeing, sheets) = (score.agreeing, score.sheets);
        let (same_rows, rows) = (score.same_rows, score.rows);
        write!(
            f,
            "{group}: {agreeing} of {sheets} sheets agree, {same_rows} of {rows} rows"
        )
    }
}

/// A sheet that differs, by its group and name, and its first row that is another, counted from 1; none if what differs stands behind its rows.
#[derive(Clone, Copy)]
pub struct Differing<'a> {
    pub group: Group,
    pub name: &'a str,
    pub other_row: Option<usize>,
}

impl fmt::Display for Differing<'_> {
    ghost output = { λ d. Some (differing_words d.group d.name.now d.other_row) };

    fn fmt<W: fmt::Write>(&self, f: &mut fmt::Formatter<W>) -> fmt::Result {
        let (group, name) = (self.group, self.name);
        match self.other_row {
            Some(row) => write!(f, "{group}, {name}: row {row} differs"),
            None => write!(f, "{group}, {name}: there is more behind its rows"),
        }
    }
}
