// How many sheets and rows agree.
ghost use Rattle.std.specs.Prelude.{◌≡◌, map};
ghost use Rattle.std.specs.List.{list_all};
ghost use Rattle.replay.specs.Cases.{judged};
ghost use Rattle.replay.specs.Scores.{agrees_whole, all_agree, counted, no_score, no_scores, scored, scores_of};

use crate::group::Group;
use crate::verdict::Verdict;

/// How many sheets there are and how many agree, and the same of rows.
#[derive(Clone, Copy, PartialEq, Eq, Debug)]
pub struct Score {
    pub sheets: u64,
    pub agreeing: u64,
    pub rows: u64,
    pub same_rows: u64,
}

impl Score {
    fn new() -> Score
        ensures nothing_is_counted { result ≡ no_score }
    {
        Score {
            sheets: 0,
            agreeing: 0,
            rows: 0,
            same_rows: 0,
        }
    }

    fn agrees(self) -> bool
        ensures as_many_agree_as_there_are { result ≡ agrees_whole self }
    {
        self.agreeing == self.sheets
    }

    // This score and one sheet more.
    fn with(self, verdict: &Verdict) -> Score
        ensures counts_the_sheet_and_its_rows { result ≡ scored self (judged verdict.now) }
    {
        Score {
            sheets: self.sheets.saturating_add(1),
            agreeing: self.agreeing.saturating_add(u64::from(verdict.agrees)),
            rows: self.rows.saturating_add(verdict.rows as u64),
            same_rows: self.same_rows.saturating_add(verdict.same_rows as u64),
        }
    }
}

/// The score of each group.
#[derive(Clone, Copy, PartialEq, Eq, Debug)]
pub struct Scores {
    pub samples: Score,
    pub corners: Score,
    pub chosen: Score,
}

impl Scores {
    fn new() -> Scores
        ensures nothing_is_counted { result ≡ no_scores }
    {
        Scores {
            samples: Score::new(),
            corners: Score::new(),
            chosen: Score::new(),
        }
    }

    // These scores and one sheet more.
    fn with(self, verdict: &Verdict) -> Scores
        ensures counts_in_its_group { result ≡ counted self (judged verdict.now) }
    {
        let mut scores = self;
        match verdict.case.group {
            Group::Sample => scores.samples = self.samples.with(verdict),
            Group::Corner => scores.corners = self.corners.with(verdict),
            Group::Chosen => scores.chosen = self.chosen.with(verdict),
        }
        scores
    }

    /// The scores of all sheets.
    pub fn of(verdicts: &[Verdict]) -> Scores
        ensures counts_every_sheet { result ≡ scores_of (map judged verdicts.now) }
        ensures all_agree_exactly_if_each_sheet_does { all_agree result ≡ list_all (λ v. v.agrees) (map judged verdicts.now) }
    {
        let mut scores = Scores::new();
        for verdict in verdicts {
            scores = scores.with(verdict);
        }
        scores
    }

    /// Whether every sheet agrees.
    pub fn all_agree(&self) -> bool
        ensures every_sheet_of_every_group_agrees { result ≡ all_agree self.now }
    {
        self.samples.agrees() && self.corners.agrees() && self.chosen.agrees()
    }
}
