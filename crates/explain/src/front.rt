// The lines in front of the first that asks, which fill the listing and the settings.
ghost use Rattle.std.specs.Prelude.{◌≡◌, ◌++◌, IfOk, MatchOption, OnOk, Option, map};
ghost use Rattle.lines.specs.Sheets.{content_of};
ghost use Rattle.listing.specs.Entries.{rows};
ghost use Rattle.settings.specs.Meant.{tables};
ghost use Rattle.explain.specs.Filling.{FrontEnded, NextInFront, filled_by, front_of, noted, noting};
ghost use Rattle.explain.specs.FrontLine.{front_cause, listing_cause};
ghost use Rattle.sheets.specs.Entries.{listed_with, rows_with, tables_with};
ghost use Rattle.texts.specs.Taken.{taken_unless};

use crate::cause::Cause;
use crate::numbered::NumberedLines;
use crate::question::Order;
use crate::refusal::Refusal;
use crate::sentence::Refused;
use lines::Line;
use listing::Listing;
use settings::Settings;
use sheets::is_setting;
use std::alloc::{AllocError, Global};

// `sheets` takes an entry in these steps too, but refuses it as its rows tell it; here the refusal goes up as a cause, which a question may have too.
// Takes a line into the listing, or says why not.
fn list(listing: &mut Listing, line: &[u8]) -> Result<(), Cause>
    ensures taken_or_refused { result ≡ taken_unless (listing_cause (rows listing.old) (content_of line.now)) }
    ensures rows_then { rows listing.new ≡ listed_with (rows listing.old) (content_of line.now) }
{
    let content = Line::read(line).map_err(Refusal::from)?;
    listing.add(content.kind, content.first, content.second)?;
    Ok(())
}

// Takes a line into the settings if it is one of theirs, else into the listing, or says why not.
fn take(listing: &mut Listing, settings: &mut Settings, line: &[u8]) -> Result<(), Cause>
    ensures taken_or_refused { result ≡ taken_unless (front_cause (rows listing.old) (tables settings.old) line.now) }
    ensures rows_then { rows listing.new ≡ rows_with (rows listing.old) line.now }
    ensures tables_then { tables settings.new ≡ tables_with (tables settings.old) line.now }
{
    if !is_setting(line) {
        return list(listing, line);
    }
    settings.load(line)?;
    Ok(())
}

// Notes that a line is refused, if it is.
fn note<'a>(
    refused: &mut Vec<Refused<'a>>,
    taken: Result<(), Cause>,
    line: u64,
    text: &'a [u8],
) -> Result<(), AllocError>
    ensures noted_behind_the_others { (why : Option Cause) → taken ≡ taken_unless why → OnOk result (map noted refused.new.items ≡ map noted refused.old.items ++ noting why line text.now) }
{
    if let Err(cause) = taken {
        refused.push(Refused { line, cause, text })?;
    }
    Ok(())
}

// No `Peekable`, which would take the question out of the sheet, and hide what is left of it.
// The next line if it stands in front; a question or a forget stays where it is.
fn next_in_front<'a>(lines: &mut NumberedLines<'a>) -> Option<(u64, &'a [u8])>
    ensures next_line_or_none_in_front { MatchOption result (FrontEnded lines.old lines.new) (λ x. NextInFront lines.old x.0 x.1.now lines.new) }
{
    let mut ahead = *lines;
    let (number, line) = ahead.next()?;
    if Order::read(line).is_ok() {
        return None;
    }
    *lines = ahead;
    Some((number, line))
}

/// The lines in front that were refused, and the lines that are left of the sheet.
#[derive(Drop)]
pub struct Filled<'a> {
    pub refused: Vec<Refused<'a>>,
    pub lines: NumberedLines<'a>,
}

/// Fills the listing and the settings from the lines in front of the first that asks.
pub fn fill<'a>(
    alloc: Global,
    listing: &mut Listing,
    settings: &mut Settings,
    sheet: &'a [u8],
) -> Result<Filled<'a>, AllocError>
    ensures line_after_line_up_to_the_first_question { IfOk result (λ f. front_of (rows listing.new) (tables settings.new) f ≡ filled_by (rows listing.old) (tables settings.old) sheet.now) }
{
    let mut refused = Vec::new(alloc);
    let mut lines = NumberedLines::new(sheet);
    while let Some((number, line)) = next_in_front(&mut lines) {
        let taken = take(listing, settings, line);
        note(&mut refused, taken, number, line)?;
    }
    Ok(Filled { refused, lines })
}
