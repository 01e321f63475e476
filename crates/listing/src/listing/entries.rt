// Lines that are added, and lines that are refused.
ghost use Rattle.std.specs.Prelude.{◌≡◌, ℕ, ◌≤◌, [], length, Some};
ghost use Rattle.listing.specs.Entries.{has_manifest, refusal, rows, rows_after, unlisted};
ghost use Rattle.listing.specs.Meanings.{Asked, place};
ghost use Rattle.texts.specs.Taken.{taken_unless};

use crate::kinds::LineKind;
use crate::line::Line;
use crate::listing::{LINES, Listing};
use crate::refusals::Refusal;
use stack::ArrayVec;
use texts::is_printable;

impl Listing {
    /// The listing without a line.
    pub fn new() -> Listing
        ensures no_lines { rows result ≡ [] }
    {
        let lines = ArrayVec::new(Line::blank());
        Listing { lines }
    }

    // The kind stays a number: a sheet may write one that no kind has.
    /// Adds a line behind the others. A line that is refused leaves the listing as it was.
    pub fn add(&mut self, kind: u16, first: &[u8], second: &[u8]) -> Result<(), Refusal>
        ensures taken_or_refused { result ≡ taken_unless (refusal (rows self.old) kind first.now second.now) }
        ensures lines_after { rows self.new ≡ rows_after (rows self.old) kind first.now second.now }
        ensures at_most_256_lines { length (rows self.new) ≤ 256 }
        ensures earlier_lines_go_on_deciding { (q : Asked) (i : ℕ) → place q (rows self.old) ≡ Some i → place q (rows self.new) ≡ Some i }
    {
        self.check_line(kind, first, second)?;
        let kind = LineKind::try_from(kind)?;
        let line = Line::new(kind, first, second);
        self.lines.push(line).map_err(|_| Refusal::Full)
    }

    /// Whether a line would be added behind the others, or why not; nothing changes.
    pub fn check_line(&self, kind: u16, first: &[u8], second: &[u8]) -> Result<(), Refusal>
        ensures taken_or_refused { result ≡ taken_unless (refusal (rows self.now) kind first.now second.now) }
    {
        let kind = LineKind::try_from(kind)?;
        self.check(kind, first, second)?;
        if self.lines.as_slice().len() >= LINES {
            return Err(Refusal::Full);
        }
        Ok(())
    }

    // Kind and texts are three parameters, as the public call has them: a struct would be made and taken apart again in each of two calls.
    // Whether such a line may stand behind the others, room aside.
    fn check(&self, kind: LineKind, first: &[u8], second: &[u8]) -> Result<(), Refusal>
        ensures first_check_that_fails { result ≡ taken_unless (unlisted (rows self.now) kind first.now second.now) }
    {
        if kind == LineKind::Main && !self.has_manifest() {
            return Err(Refusal::MainBeforeManifest);
        }
        let sized = kind.takes_lengths(first.len(), second.len());
        if !(sized && is_printable(first) && is_printable(second)) {
            return Err(Refusal::Text);
        }
        if !kind.takes_form(first, second) {
            return Err(Refusal::Form);
        }
        Ok(())
    }

    // A main text belongs to the last manifest before it.
    fn has_manifest(&self) -> bool
        ensures manifest_among_the_lines { result ≡ has_manifest (rows self.now) }
    {
        self.lines.as_slice().iter().any(|line| line.is_manifest())
    }
}
